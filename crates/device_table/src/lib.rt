//! The table by which a device that asks for a certificate goes on: what it does next, after what it is told.
//!
//! It knows no octets of a message but those that are sent again and the certificate: what a reply says, as far as it is asked, is
//! a `Heard`. The crate's laws are the contracts of functions that do nothing.
#![tactic(auto)]

mod deeds;
mod event;
mod laws;
mod stage;
mod table;

pub use deeds::{Cause, Deed, Speech, Verdict};
pub use event::{Event, Heard, Word};
pub use laws::{how_a_run_goes, what_is_won};
pub use stage::{Deal, Out, Phase, Stage};
pub use table::{SEND_LIMIT, deed};
