//! Where the operator's orders come from.
ghost use Rattle.std.specs.Prelude.{ℕ, List, Option};
ghost use Rattle.cmp_ports.specs.Coming.{Takes};
ghost use Rattle.cmp_ports.specs.Faults.{HasCause};

use crate::faults::Failed;
use crate::order::Order;

/// A list of orders.
pub trait Orders {
    ghost use Rattle.cmp_ports.specs.declared.order.Order.{Order};

    // The orders that are left, where the object tells them.
    ghost left: { Self → Option (List Order) };

    // How many calls of the object failed. It never falls, and stays at the greatest u64.
    ghost faults: { Self → ℕ };

    /// Takes the first of the orders left. `None` exactly where none is left. A `Failed` takes none, and comes only
    /// where the count of faults rose.
    fn next(&mut self) -> Result<Option<Order>, Failed>
        ensures takes { Takes (left self.old) (left self.new) result }
        ensures cause { HasCause (faults self.old) (faults self.new) result };
}

/// A list of orders that is lent.
impl<O: Orders> Orders for &mut O {
    ghost left = { λ o. O.left o.now };

    ghost faults = { λ o. O.faults o.now };

    fn next(&mut self) -> Result<Option<Order>, Failed> {
        (**self).next()
    }
}
