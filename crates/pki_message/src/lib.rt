//! CMP messages (RFC 9810, 5.1 and 5.3), read from octets that they borrow, and written.
#![tactic(auto)]

mod body;
mod frame;
mod laws;
mod message;
mod writer;

pub use asn_fields::BadForm;
pub use body::Body;
pub use frame::{Frame, MESSAGE_LIMIT, read_frame};
pub use laws::{frame_begins_no_other, message_begins_no_other};
pub use message::{Message, read_message};
pub use writer::{protected_part, write_message};
