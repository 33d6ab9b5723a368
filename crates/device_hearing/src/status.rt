//! The status of a response.
ghost use Rattle.std.specs.Prelude.{◌≡◌};
ghost use Rattle.intake.specs.Values.{number_in};

use crate::numbers::number;

/// What a PKIStatus says of a request (RFC 9810, 5.2.3).
#[derive(Clone, Copy)]
pub(crate) enum Status {
    /// A certificate is there, as it was asked for or changed.
    Granted,
    Rejected,
    Waiting,
    /// Another status, or no number below 2^64.
    Other,
}

ghost use Rattle.device_hearing.specs.Hearing.{status_by};

/// The status by the content of its INTEGER.
pub(crate) fn status_in(content: &[u8]) -> Status
    ensures { result ≡ status_by (number_in content.now) }
{
    match number(content) {
        Some(number) if number < 2 => Status::Granted,
        Some(2) => Status::Rejected,
        Some(3) => Status::Waiting,
        _ => Status::Other,
    }
}
