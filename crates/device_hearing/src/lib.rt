//! What the octets of a reply say to a device: whether they are a message, whether the device trusts it, and what the body says.
#![tactic(auto)]

mod asked;
mod certificates;
mod hearing;
mod implicit;
mod listener;
mod numbers;
mod status;
mod trust;
mod words;

pub use deal_changes::Body4;
pub use hearing::hear;
pub use listener::{Listener, ReplyGuard};
pub use trust::is_trusted;
