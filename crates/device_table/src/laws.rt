//! Laws of the table, each the contract of a function that does nothing.
ghost use Rattle.device_table.specs.Laws.{Granted, GrantedImplicitly, Enrolled, OnlyIssuedIsWon, OnlyIssuedIsConfirmed};

/// How a run without losses goes: a request that is granted is confirmed, and its certificate held once the confirmation is
/// accepted; where confirmation is implicit it is held at once.
pub fn how_a_run_goes()
    ensures granted { Granted }
    ensures implicit { GrantedImplicitly }
    ensures enrolled { Enrolled }
{}

/// What a device may end with: a certificate that was asked for, in a reply whose protection holds, or one that it confirmed; and
/// it confirms no other than such a one.
pub fn what_is_won()
    ensures won { OnlyIssuedIsWon }
    ensures confirmed { OnlyIssuedIsConfirmed }
{}
