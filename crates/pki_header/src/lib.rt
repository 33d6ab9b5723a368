//! The header of a CMP message (RFC 9810, 5.1.1), read from octets that it borrows, and written.
#![tactic(auto)]

mod header;
mod plan;

pub use header::{Header, are_infos, read_header};
pub use plan::{HeaderPlan, write_header};

#[cfg(test)]
mod tests;
