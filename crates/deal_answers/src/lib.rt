//! The answers of a history, computed by plain walks over the whole list. Each is the definition's of deal_model, and is what
//! quicker tables are held against.
#![tactic(auto)]

mod keys;
mod kinds;
mod laws;
mod nonces;
mod standings;
mod table;
#[cfg(test)]
mod tests;
mod views;

pub use keys::{is_lms_key, key_id, key_of, leaves_of, levels_of, ots_of, tree_of};
pub use kinds::{has_digest, is_grant_for};
pub use laws::owners_stay;
pub use nonces::last_nonce;
pub use standings::{is_confirmed, not_after, owner_of, standing_of, standing_of_who};
pub use table::Table;
pub use views::{
    certificate_state, founding, grant_for, grant_of, hold_for, is_dismissed, is_key_taken,
    is_known, is_listed, is_told, leaves_used, transaction_state,
};
