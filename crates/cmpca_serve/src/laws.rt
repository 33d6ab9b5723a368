//! Laws of how the changes that a history gained are told, the contracts of functions that do nothing.
ghost use Rattle.cmpca_serve.specs.Parts.{OrdersAreObeyed, SessionsMakeNoOrders};
ghost use Rattle.cmpca_serve.specs.Runs.{RoundsTell};

use deal_table::what_is_made_is_allowed;

/// As many of the changes gained are orders as were obeyed.
pub fn orders_are_obeyed()
    ensures { OrdersAreObeyed }
{}

/// The rounds of a run tell what became of its history beside its sessions.
pub fn rounds_tell_a_run()
    ensures { RoundsTell }
{}

/// No session makes an order: what a message makes is none.
pub fn sessions_make_no_orders()
    ensures { SessionsMakeNoOrders }
{
    what_is_made_is_allowed();
}
