//! A book, and the next leaf of it.

use cmp_ports::MemDisk;
use cmp_values::Octets;
use leaf_book::{LeafBook, Set};
use std::alloc::Global;
use std::test::Fail;

/// The seed of the keys.
pub(crate) const SEED: &[u8; 32] =
    b"\x00\x01\x02\x03\x04\x05\x06\x07\x08\x09\x0a\x0b\x0c\x0d\x0e\x0f\x10\x11\x12\x13\x14\x15\x16\x17\x18\x19\x1a\x1b\x1c\x1d\x1e\x1f";

/// Their identifier.
pub(crate) const ID: &[u8; 16] =
    b"\x80\x81\x82\x83\x84\x85\x86\x87\x88\x89\x8a\x8b\x8c\x8d\x8e\x8f";

/// 32 leaves, whose one-time keys are grown fast.
pub(crate) const FAST: Set = Set { tree: 5, ots: 1 };

pub(crate) fn mounted(alloc: Global, disk: MemDisk) -> Result<LeafBook<MemDisk>, Fail> {
    match LeafBook::mount(alloc, disk, SEED, ID, FAST) {
        Ok(book) => Ok(book),
        Err(_) => Err("not mounted".into()),
    }
}

/// The leaf that the book reserves for the text of one octet.
pub(crate) fn reserved(alloc: Global, book: &mut LeafBook<MemDisk>, octet: u8) -> Option<u32> {
    let Ok(text) = Octets::copy_of(alloc, &[octet]) else {
        return None;
    };
    match book.reserve(text) {
        Ok(warrant) => Some(warrant.leaf()),
        Err(_) => None,
    }
}
