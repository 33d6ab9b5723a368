//! The certification authority's program, over any streams, disk, clock and entropy: what its words ask for is done, and told.
#![tactic(auto)]

mod check;
mod dismiss;
mod ending;
mod enlist;
mod file;
mod init;
mod order;
mod reply;
mod show;
mod status;
mod take;
mod tool;
mod verdict;
mod words;

pub use ending::{disk_of, finish, no_memory};
pub use reply::{Reply, Text, unmounted};
pub use status::{Identity, Status};
pub use take::{keyless_reply, settings_at};
pub use tool::run_tool;
