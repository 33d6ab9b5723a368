//! Which change may come next, decided by plain walks over the whole history. Each answer is the rule's of deal_model.
#![tactic(auto)]

mod allowed;
mod credentials;
mod forms;
mod founding;
mod requests;
mod rules;
mod senders;
mod sizes;
#[cfg(test)]
mod tests;

pub use allowed::{is_allowed, is_legal, time_of};
pub use forms::is_change;
pub use requests::is_owner;
pub use rules::{issue_leaves, reply_leaf, reply_leaves};
pub use senders::{has_right, same_who};
pub use sizes::has_room;
