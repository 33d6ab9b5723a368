//! Times of certificates.
ghost use Rattle.std.specs.Prelude.{◌≡◌, ◌≢◌, ◌↔◌, ℕ, IfOk, OnErr};
ghost use Rattle.der_base.specs.Reading.{part_of};
ghost use Rattle.cmp_time.specs.Time.{IsUtc, IsGeneralized};
ghost use Rattle.asn_types.specs.Time.{IsTime};

use cmp_time::{read_generalized, read_utc};
use der_base::{DerFault, Element};

/// Reads a time, by the tag of its element.
fn time_element(e: &Element) -> Result<u64, DerFault>
    ensures found { IfOk result (IsTime (part_of e.now)) }
    ensures only_utc { (t : ℕ) → e.now.tag ≡ 0x17 → IsUtc e.now.content.now t → result ≡ Ok t }
    ensures only_generalized { (t : ℕ) → e.now.tag ≡ 0x18 → IsGeneralized e.now.content.now t → result ≡ Ok t }
    ensures bad_tag { (result ≡ Err DerFault.BadTag) ↔ ((e.now.tag ≢ 0x17) × (e.now.tag ≢ 0x18)) }
    ensures never_short { result ≢ Err DerFault.Short }
    ensures never_trailing { result ≢ Err DerFault.Trailing }
{
    match e.tag {
        0x17 => read_utc(e.content).ok_or(DerFault::BadLength),
        0x18 => read_generalized(e.content).ok_or(DerFault::BadLength),
        _ => Err(DerFault::BadTag),
    }
}

/// Reads a UTCTime or a GeneralizedTime as seconds since 1970 (RFC 5280, 4.1.2.5). `BadTag` where the element is neither, else
/// `BadLength` where it is not of the form or the calendar has no such time from 1970 on.
pub fn read_time(e: &Element) -> Result<u64, DerFault>
    ensures found { IfOk result (IsTime (part_of e.now)) }
    ensures only { (t : ℕ) → IsTime (part_of e.now) t → result ≡ Ok t }
    ensures bad_tag { (result ≡ Err DerFault.BadTag) ↔ ((e.now.tag ≢ 0x17) × (e.now.tag ≢ 0x18)) }
    ensures never_short { result ≢ Err DerFault.Short }
    ensures never_trailing { result ≢ Err DerFault.Trailing }
{
    time_element(e)
}
