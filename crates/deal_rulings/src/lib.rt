//! What is left of a checked message, decided by plain walks over the whole history. Each ruling is that of deal_table's table.
#![tactic(auto)]

mod deciding;
mod making;
mod moment;
mod places;
mod requests;
mod rows;
mod ruling;
mod senders;

pub use deciding::ruling_on;
pub use places::{event_time, is_full, place_of_digest, place_of_grant};
pub use ruling::Ruling;
