//! Elements of DER (X.690), read from the front of a slice, which they borrow, and written.
#![tactic(auto)]

mod bit_string;
mod element;
mod fault;
mod items;
mod laws;
#[cfg(test)]
mod tests;
mod values;
mod writer;

pub use bit_string::Bits;
pub use element::{Element, read_element, whole};
pub use fault::DerFault;
pub use items::Items;
pub use laws::{begins_no_other, one_spelling, row_is_read};
pub use values::{bits, boolean, integer, null, octets, oid, utf8};
pub use writer::Writer;
