//! The limits of a log.
ghost use Rattle.std.specs.Prelude.{◌≡◌};
ghost use Rattle.journal_core.specs.Journal.{is_past_limit};

/// The most payloads of a log.
const MOST_PAYLOADS: u64 = 262_144;
/// The most octets of a log.
const MOST_OCTETS: u64 = 1 << 30;

/// Whether a record of so many octets more doesn't go into a log of so many payloads and octets.
pub(crate) fn is_full(count: u64, end: u64, more: u64) -> bool
    ensures { result ≡ is_past_limit count end more }
{
    count >= MOST_PAYLOADS || end > MOST_OCTETS || more > MOST_OCTETS - end
}
