//! The small values that every layer speaks of: lists of octets of any length and of at most 64, texts, and why a request is
//! refused.
#![tactic(auto)]

mod fail_info;
mod octets;
mod short;
#[cfg(test)]
mod tests;
mod text;

pub use fail_info::FailInfo;
pub use octets::Octets;
pub use short::{SHORT_LIMIT, Short};
pub use text::Text;
