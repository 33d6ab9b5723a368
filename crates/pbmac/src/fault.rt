use asn_fields::BadForm;
use der_base::DerFault;
use std::error::Error;
use std::fmt;

/// An algorithm is not PBMAC1 with parameters that are accepted.
#[derive(Clone, Copy, Debug, PartialEq, Eq)]
pub struct BadAlg;

impl fmt::Display for BadAlg {
    ghost use Rattle.std.specs.Prelude.{Some, codes};

    ghost output = { λ _. Some (codes "the algorithm is not PBMAC1 with parameters that are accepted") };

    fn fmt<W: fmt::Write>(&self, f: &mut fmt::Formatter<W>) -> fmt::Result {
        f.write_str("the algorithm is not PBMAC1 with parameters that are accepted")
    }
}

impl Error for BadAlg {}

impl From<BadForm> for BadAlg {
    fn from(_fault: BadForm) -> Self {
        BadAlg
    }
}

impl From<DerFault> for BadAlg {
    fn from(_fault: DerFault) -> Self {
        BadAlg
    }
}
