//! The table by which a message is decided, and what the parts of a decision hand to each other.
//!
//! A decision is made in three parts: a look at the history, a check of the message, and the decision itself, at a later
//! history. The table is one list of rows over the facts of a message and a history, and the first row that applies gives the
//! answer. What was checked at the look is a message again, of which less is left to be asked, so the same table decides it.
#![tactic(auto)]

mod laws;
mod look;
mod shared;

pub use laws::{
    what_a_look_tells, what_is_left_decides, what_is_made_is_allowed, what_is_settled_stays,
    what_legal_histories_say,
};
pub use look::Look;
pub use shared::{is_apart, is_deal, is_unused, may};
