//! The desk of the enrolment service: one history on a disk, whose every answer is a walk over the whole list.
#![tactic(auto)]

mod adding;
mod answers;
mod chronicle;
mod clerk;
mod deciding;
mod desk;
mod due;
mod founding;
mod lapsing;
mod listing;
mod looking;
mod mark;
mod mounting;
mod ordering;
mod receipt;
mod sole_clerk;
mod verdict;

pub use answers::{FoundFault, Lapsed, Listing, Ordered};
pub use clerk::Clerk;
pub use desk::Desk;
pub use journal_core::MountFault;
pub use looking::brief_of;
pub use mark::{FaultMark, FaultMarks};
pub use mounting::history_on;
pub use receipt::Receipt;
pub use sole_clerk::SoleClerk;
pub use verdict::Verdict;
