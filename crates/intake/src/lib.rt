//! What octets that a sender sent are, as the table of decisions asks, what they ask of the history, and their check by what a look
//! at the history tells.
#![tactic(auto)]

mod about;
mod asking;
mod bodies;
mod checks;
mod extensions;
mod header;
mod info;
mod job;
mod keys;
mod laws;
mod others;
mod possession;
mod request;
mod requests;
mod rows;
mod sender;
mod subject;
mod unfit;
mod values;
mod wish;

pub use asking::{Intake, ask_of};
pub use checks::check;
pub use laws::letters_fit;
pub use possession::is_possessed;
pub use request::Request;
pub use sender::{Sender, proven};
pub use unfit::Unfit;

#[cfg(test)]
mod tests;
#[cfg(test)]
mod wish_tests;
