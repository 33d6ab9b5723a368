//! How a history stands, told in lines of text for an operator.
#![tactic(auto)]

mod lines;
mod put;
#[cfg(test)]
mod tests;

pub use lines::show_lines;
