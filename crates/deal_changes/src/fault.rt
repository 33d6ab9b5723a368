//! Why octets could not be read as a change.
ghost use Rattle.std.specs.Prelude.{◌≡◌};
ghost use Rattle.deal_changes.specs.declared.fault.ChangeFault.TheVariants.{NoMemory};

use std::alloc::{AllocError, AllocFailed};

/// Why octets were not read as a change.
#[derive(Clone, Copy, Debug, PartialEq, Eq)]
pub enum ChangeFault {
    /// No change has these octets.
    BadChange,
    /// Memory ran out.
    NoMemory,
}

impl From<AllocError> for ChangeFault {
    ghost from_gives = { λ _ e. e ≡ NoMemory };

    fn from(_e: AllocError) -> ChangeFault {
        ChangeFault::NoMemory
    }
}

impl<T: Drop> From<AllocFailed<T>> for ChangeFault {
    ghost from_gives = { λ _ e. e ≡ NoMemory };

    fn from(_e: AllocFailed<T>) -> ChangeFault {
        ChangeFault::NoMemory
    }
}
