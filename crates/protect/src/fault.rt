//! Why a protection was not checked.
ghost use Rattle.std.specs.Prelude.{◌≡◌, Some};
ghost use Rattle.protect.specs.Faults.{fault_text};
ghost use Rattle.protect.specs.declared.fault.CheckFault.TheVariants.{NoMemory};

use std::alloc::AllocError;
use std::error::Error;
use std::fmt;

/// Why a protection was not checked.
#[derive(Clone, Copy, Debug, PartialEq, Eq)]
pub enum CheckFault {
    /// The algorithm is not the key's, or its parameters are not of the form that is accepted.
    BadAlg,
    /// Memory ran out.
    NoMemory,
}

impl From<AllocError> for CheckFault {
    ghost from_gives = { λ _ e. e ≡ NoMemory };

    fn from(_e: AllocError) -> CheckFault {
        CheckFault::NoMemory
    }
}

impl fmt::Display for CheckFault {
    ghost output = { λ fault. Some (fault_text fault) };

    fn fmt<W: fmt::Write>(&self, f: &mut fmt::Formatter<W>) -> fmt::Result {
        match self {
            CheckFault::BadAlg => f.write_str("the algorithm is not the key's"),
            CheckFault::NoMemory => f.write_str("memory ran out"),
        }
    }
}

impl Error for CheckFault {}
