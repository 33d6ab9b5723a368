//! The limits of a history.

/// The changes that a history may have.
pub const MOST_CHANGES: usize = 262_144;

/// The latest time that a clock may say, in seconds since 1970.
pub const LATEST_TIME: u64 = 250_000_000_000;
