//! Logs made by hand, and what a mount finds in them.
use cmp_ports::MemDisk;
use journal_core::{Journal, MountFault};
use std::alloc::Global;

pub(crate) const MAGIC: [u8; 7] = *b"CMPLOG1";

// A gate, the magic, and for each payload a gate, its length in four octets and its octets; then a closed gate.
pub(crate) const ONE: &[u8] = b"\x01CMPLOG1\x01\0\0\0\x03one\0";

pub(crate) const TWO: &[u8] = b"\x01CMPLOG1\x01\0\0\0\x03one\x01\0\0\0\x03two\0";

/// How many payloads a mount finds, or None where the disk isn't founded.
pub(crate) fn count_of(alloc: Global, disk: &mut MemDisk) -> Result<Option<usize>, MountFault> {
    match Journal::mount(alloc, disk, &MAGIC) {
        Ok((_, payloads)) => Ok(Some(payloads.len())),
        Err(MountFault::NotFounded) => Ok(None),
        Err(fault) => Err(fault),
    }
}
