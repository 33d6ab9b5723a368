//! Tests of the table of a device, row by row. The crate has no code of its own.
#![tactic(auto)]

#[cfg(test)]
mod given;
#[cfg(test)]
mod rows;
#[cfg(test)]
mod seen;
