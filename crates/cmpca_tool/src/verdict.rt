//! What the check of a message's protection tells.
ghost use Rattle.std.specs.Prelude.{◌≡◌};

use crate::status::Status;

/// What the check of a message under a secret tells.
#[derive(Clone, Copy, Debug, PartialEq, Eq)]
pub enum Verdict {
    /// The MAC is that of the protected part.
    Verified,
    /// The octets are no message.
    BadDataFormat,
    /// The protection is missing, or the algorithm that made it.
    Unprotected,
    /// The algorithm is not PBMAC1 within its limits.
    BadAlg,
    /// The MAC is another.
    WrongMac,
}

impl Verdict {
    ghost use Rattle.cmpca_tool.specs.Reply.{verdict_line, verdict_status};

    /// The line that tells the verdict.
    pub fn line(self) -> &'static [u8]
        ensures { result.now ≡ verdict_line self }
    {
        match self {
            Verdict::Verified => b"protection verified\n",
            Verdict::BadDataFormat => b"refused badDataFormat\n",
            Verdict::Unprotected | Verdict::WrongMac => b"refused badMessageCheck\n",
            Verdict::BadAlg => b"refused badAlg\n",
        }
    }

    /// How a run with this verdict ends.
    pub fn status(self) -> Status
        ensures { result ≡ verdict_status self }
    {
        match self {
            Verdict::Verified => Status::Done,
            _ => Status::Refused,
        }
    }
}
