//! The texts of UTCTime and GeneralizedTime.
ghost use Rattle.std.specs.Prelude.{◌≡◌, ℕ, ◌+◌, ◌*◌, ◌/◌, ◌%◌, ◌<◌, ◌≤◌, ◌++◌, IfOk, IfSome, IfNone};
ghost use Rattle.cmp_time.specs.Time.{IsMoment, IsGeneralized, IsUtc, IsClockLike, text_in_year, utc_text, generalized_text, last_of};

use crate::Moment;
use crate::digits::{read_two, two_digits};
use crate::moment::{moment_of, seconds_of};
use cmp_values::Text;
use std::alloc::{AllocError, Global};

/// The last second that a GeneralizedTime has: 9999-12-31T23:59:59.
pub const LAST_GENERALIZED: u64 = 253_402_300_799;

/// The last second that a UTCTime has: 2049-12-31T23:59:59.
pub const LAST_UTC: u64 = 2_524_607_999;

/// Both limits are the last seconds of the last years that the texts have: a UTCTime has those before 2050 (RFC 5280, 4.1.2.5.1).
pub fn limits_are_last()
    ensures utc { IsMoment LAST_UTC (last_of 2049) }
    ensures generalized { IsMoment LAST_GENERALIZED (last_of 9999) }
{}

/// The eleven octets behind a year: MMDDhhmmssZ.
fn after_year(m: &Moment) -> [u8; 11]
    requires { IsClockLike m.now }
    ensures { result ≡ text_in_year m.now }
{
    let [m1, m2] = two_digits(m.month);
    let [d1, d2] = two_digits(m.day);
    let [h1, h2] = two_digits(m.hour);
    let [n1, n2] = two_digits(m.minute);
    let [s1, s2] = two_digits(m.second);
    [m1, m2, d1, d2, h1, h2, n1, n2, s1, s2, b'Z']
}

/// The moment of a year whose text behind the year is this: MMDDhhmmssZ, each pair of digits any number.
fn read_after_year(year: u16, text: &[u8]) -> Option<Moment>
    ensures found { IfSome result (λ m. IsClockLike m × (m.year ≡ year) × (text.now ≡ text_in_year m)) }
    ensures none { IfNone result ((m : Moment) → IsClockLike m → text.now ≡ text_in_year m → ⊥) }
{
    let [m1, m2, d1, d2, h1, h2, n1, n2, s1, s2, b'Z'] = text else {
        return None;
    };
    Some(Moment {
        year,
        month: read_two(*m1, *m2)?,
        day: read_two(*d1, *d2)?,
        hour: read_two(*h1, *h2)?,
        minute: read_two(*n1, *n2)?,
        second: read_two(*s1, *s2)?,
    })
}

/// The GeneralizedTime of a second: YYYYMMDDhhmmssZ. `AllocError` where memory runs out.
pub fn generalized(alloc: Global, t: u64) -> Result<Text, AllocError>
    requires { t ≤ LAST_GENERALIZED }
    ensures { IfOk result (λ text. IsGeneralized text t) }
{
    let m = moment_of(t);
    let mut text = Text::copy_of(alloc, &two_digits((m.year / 100) as u8))?;
    text.append(&two_digits((m.year % 100) as u8))?;
    text.append(&after_year(&m))?;
    Ok(text)
}

/// The UTCTime of a second: YYMMDDhhmmssZ. `AllocError` where memory runs out.
pub fn utc(alloc: Global, t: u64) -> Result<Text, AllocError>
    requires { t ≤ LAST_UTC }
    ensures { IfOk result (λ text. IsUtc text t) }
{
    let m = moment_of(t);
    let mut text = Text::copy_of(alloc, &two_digits((m.year % 100) as u8))?;
    text.append(&after_year(&m))?;
    Ok(text)
}

/// The second of a GeneralizedTime. `None` where the text isn't YYYYMMDDhhmmssZ, or the calendar has no such time from 1970
/// on.
pub fn read_generalized(text: &[u8]) -> Option<u64>
    ensures found { IfSome result (IsGeneralized text.now) }
    ensures only { (t : ℕ) → IsGeneralized text.now t → result ≡ Some t }
{
    let [c1, c2, y1, y2, rest @ ..] = text else {
        return None;
    };
    let year = u16::from(read_two(*c1, *c2)?) * 100 + u16::from(read_two(*y1, *y2)?);
    seconds_of(&read_after_year(year, rest)?)
}

/// The second of a UTCTime, whose year below 50 is 20YY, and 19YY from 50 on. `None` where the text isn't YYMMDDhhmmssZ, or
/// the calendar has no such time from 1970 on.
pub fn read_utc(text: &[u8]) -> Option<u64>
    ensures found { IfSome result (IsUtc text.now) }
    ensures only { (t : ℕ) → IsUtc text.now t → result ≡ Some t }
{
    let [y1, y2, rest @ ..] = text else {
        return None;
    };
    let two = u16::from(read_two(*y1, *y2)?);
    let year = if two < 50 { 2000 + two } else { 1900 + two };
    seconds_of(&read_after_year(year, rest)?)
}
