//! What a device asks for, and what it says for it: its requests, polls and confirmations (RFC 9810, 5.3), as functions of its plan.
#![tactic(auto)]

mod bodies;
mod fields;
mod headers;
mod holder;
mod messages;
mod plan;
mod serial;
mod wish;

pub use bodies::body;
pub use deal_changes::Body4;
pub use fields::{deal, nonce};
pub use headers::header;
pub use messages::{Draft, prepare, say_by_mac, say_signed};
pub use plan::{Claim, DeviceGuard, DevicePlan, Target, Turn};
pub use wish::proof_text;
