//! The requests of a stream: what its octets hold by httparse's grammar, why a request isn't served, that there is one reading, and the
//! call that takes the next.
#![tactic(auto)]

mod fields;
mod look;
mod next;
mod number;
mod one_reading;
mod read;
mod rows;
#[cfg(test)]
mod tests;

pub use fields::{Values, is_same, values_of};
pub use next::{Next, next_request};
pub use one_reading::a_stream_has_one_reading;
