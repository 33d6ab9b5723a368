//! Fields of ASN.1 structures in DER: a field with its tag, one that stands alone, one that may be left out,
//! and rows of entries.
//!
//! Each call answers exactly what the function on lists of the same name in `specs/` gives.
#![tactic(auto)]

mod fault;
mod fields;
mod rows;

pub use fault::BadForm;
pub use fields::{explicit, field, optional, sole};
pub use rows::{Entry, Row, read_row};

#[cfg(test)]
mod tests;
