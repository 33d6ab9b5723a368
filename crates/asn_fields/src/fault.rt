ghost use Rattle.std.specs.Prelude.{◌≡◌};
ghost use Rattle.asn_fields.specs.declared.fault.BadForm.{BadForm};

use der_base::DerFault;
use std::error::Error;
use std::fmt;

/// Octets are not in the form of the type that is read.
#[derive(Clone, Copy, Debug, PartialEq, Eq)]
pub struct BadForm;

impl fmt::Display for BadForm {
    ghost use Rattle.std.specs.Prelude.{Some, codes};

    ghost output = { λ _. Some (codes "the octets are not in the form of the type") };

    fn fmt<W: fmt::Write>(&self, f: &mut fmt::Formatter<W>) -> fmt::Result {
        f.write_str("the octets are not in the form of the type")
    }
}

impl Error for BadForm {}

impl From<DerFault> for BadForm {
    fn from(_fault: DerFault) -> Self {
        BadForm
    }
}
