//! Fields that must be there, values that stand alone in a tag, rows of texts, and numbers, for the structures of certificates and messages.
#![tactic(auto)]

mod fields;
mod numbers;
mod texts;

pub use fields::{algorithm_field, general_field, integer_field, integer_inside, name_field};
pub use numbers::number;
pub use texts::are_texts;

#[cfg(test)]
mod tests;
