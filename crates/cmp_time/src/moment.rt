//! A second, as a date and a time of day.
ghost use Rattle.std.specs.Prelude.{◌≡◌, ℕ, ◌+◌, ◌*◌, ◌≤◌, ◌<◌, ◌≤ℤ◌, ◌*ℤ◌, pos, IfSome, IfNone};
ghost use Rattle.jiff_core.specs.Calendar.{IsCivilDate};
ghost use Rattle.jiff.specs.Words.{epoch_day, IsEpochDay};
ghost use Rattle.cmp_time.specs.Time.{IsMoment};

use jiff::ToSpan;
use jiff::civil::{Date, date};

/// A date of the Gregorian calendar and a time of day in UTC, to the second.
#[derive(Clone, Copy, Debug, PartialEq, Eq)]
pub struct Moment {
    pub year: u16,
    pub month: u8,
    pub day: u8,
    pub hour: u8,
    pub minute: u8,
    pub second: u8,
}

/// Seconds of a day.
const DAY: u64 = 86_400;

/// The first day of 1970, from which days are counted.
fn epoch() -> Date
    ensures { epoch_day result ≡ pos 0 }
{
    date(1970, 1, 1)
}

/// The days from the first of 1970 to a date, less than none where it is before.
fn days_to(date: Date) -> i64
    ensures { result ≡ epoch_day date }
{
    date.duration_since(epoch()).as_secs() / 86_400
}

/// The number of a date's day, of those that the calendar has.
fn day_number(date: Date) -> i64
    ensures value { result ≡ epoch_day date }
    ensures bound { IsEpochDay result }
{
    days_to(date)
}

/// The date so many days after the first of 1970.
fn day_after(days: u64) -> Date
    requires { days ≤ 2_932_896 }
    ensures { epoch_day result ≡ pos days }
{
    let Ok(date) = epoch().checked_add((days as i64).days()) else {
        unreachable!()
    };
    date
}

/// The date, where the calendar has it.
fn date_of(m: &Moment) -> Option<Date>
    ensures found { IfSome result (λ d. (d.year ≡ pos m.now.year) × (d.month ≡ m.now.month) × (d.day ≡ m.now.day)) }
    ensures none { IfNone result (IsCivilDate (pos m.now.year) m.now.month m.now.day → ⊥) }
{
    if m.year > 9999 || m.month > 12 || m.day > 31 {
        return None;
    }
    Date::new(m.year as i16, m.month as i8, m.day as i8).ok()
}

/// The seconds from 1970 to the moment. `None` where the calendar has no such day, no clock shows such a time, or the day is
/// before 1970.
pub(crate) fn seconds_of(m: &Moment) -> Option<u64>
    ensures found { IfSome result (λ t. IsMoment t m.now) }
    ensures only { (t : ℕ) → IsMoment t m.now → result ≡ Some t }
{
    let days = day_number(date_of(m)?);
    if days < 0 || m.hour > 23 || m.minute > 59 || m.second > 59 {
        return None;
    }
    let in_day = u64::from(m.hour) * 3600 + u64::from(m.minute) * 60 + u64::from(m.second);
    Some(days as u64 * DAY + in_day)
}

/// The moment so many seconds after 1970 began.
pub(crate) fn moment_of(t: u64) -> Moment
    requires { t ≤ 253_402_300_799 }
    ensures { IsMoment t result }
{
    let in_day = t % DAY;
    let date = day_after(t / DAY);
    Moment {
        year: date.year().unsigned_abs(),
        month: date.month() as u8,
        day: date.day() as u8,
        hour: (in_day / 3600) as u8,
        minute: (in_day / 60 % 60) as u8,
        second: (in_day % 60) as u8,
    }
}
