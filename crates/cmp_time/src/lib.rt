//! Times of certificates and messages, between seconds since 1970 and the texts of UTCTime and GeneralizedTime
//! (RFC 5280, 4.1.2.5), by the calendar of the `jiff` crates.
#![tactic(auto)]

mod digits;
mod moment;
mod text;

pub use moment::Moment;
pub use text::{
    LAST_GENERALIZED, LAST_UTC, generalized, limits_are_last, read_generalized, read_utc, utc,
};

#[cfg(test)]
mod tests;
