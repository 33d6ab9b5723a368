//! A journal of payloads on a disk. After a stop at any moment, the disk recovers to the payloads before the call that
//! it stopped, with the new one or without it.
#![tactic(auto)]

mod begin;
mod fault;
mod image;
mod journal;
mod limit;
mod mount;
mod payloads;
mod reading;
mod record;
mod seal;

pub use fault::{AppendFault, BeginFault, DiskFault, MountFault, PrepareFault};
pub use journal::Journal;
pub use payloads::Payloads;
pub use record::Record;
