//! A leaf book: a key of one level whose leaves are given to texts, each to one, across stops.
#![tactic(auto)]

mod book;
mod fault;
mod laws;
mod mounting;
mod payloads;
mod reading;
mod reserving;
mod signing;
mod warrant;

pub use book::LeafBook;
pub use fault::{BookFault, ReserveFault};
pub use laws::{one_text_per_leaf, stops_keep_leaves};
pub use lms_tree::Set;
pub use warrant::Warrant;
