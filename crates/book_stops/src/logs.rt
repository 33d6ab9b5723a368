//! Logs that tests/vectors/book_vectors.py lays out. The keys and the signatures are Bouncy Castle's.

use crate::books::{ID, SEED};
use cmp_ports::MemDisk;
use cmp_values::Octets;
use hex::decode;
use hss_sig::hss_ok;
use leaf_book::{BookFault, LeafBook, ReserveFault, Set};
use sha2::{Digest, Sha256};
use std::alloc::Global;
use std::test::Fail;

/// The sets of the key.
const SET: Set = Set { tree: 5, ots: 4 };

/// The public key, with one level.
const KEY: &[u8; 60] =
    b"\x00\x00\x00\x01\x00\x00\x00\x05\x00\x00\x00\x04\x80\x81\x82\x83\x84\x85\x86\x87\x88\x89\x8a\x8b\x8c\x8d\x8e\x8f\x80\x94\x56\xa9\x3f\xfb\x32\x9c\xd3\xac\x34\x05\x1b\x37\x72\x2a\x08\xef\x8e\x5e\xe9\x86\x25\x6e\xbd\xb4\x9a\xd7\xb1\x98\x1b\xf8";

/// SHA-256 of the signature of "text number 0" by leaf 0.
const FIRST: &[u8; 32] =
    b"\xe2\x60\x54\xce\x16\xec\xab\xee\xf7\x34\x96\x62\xdd\x1e\xac\x83\xfa\xa4\x30\x9b\x42\x9e\x11\x9e\x3c\x39\x51\x28\xb4\x51\x90\xd1";

/// SHA-256 of the signature of "text number 31" by leaf 31.
const LAST: &[u8; 32] =
    b"\xb4\x04\xe7\x48\x90\xc0\xa9\x80\x94\x51\x38\x46\xee\x53\x2b\xda\xf4\x8b\xe9\x75\xdf\x57\xdf\x9e\x98\x57\xb0\x32\xaf\x43\x5f\x7a";

/// The log of a book that has given no leaf, without its closed gate.
const FRONT: &str =
    "01434d504c4541460100000039010000000500000004808182838485868788898a8b8c8d8e8f809456a93ffb329cd3ac34051b37722a08ef8e5ee986256ebdb49ad7b1981bf8";

/// The record of leaf 0, given to "text number 0".
const LEAF: &str =
    "0100000025020000000077f9c00421d39a1f1c385ec3f093e212b3e53f8d6f7e89c2707f7aed1a48978b";

fn add(alloc: Global, octets: &mut Vec<u8>, record: &str) -> Result<(), Fail> {
    let more: Vec<u8> = decode(alloc, record)?;
    octets.extend_from_slice(&more)?;
    Ok(())
}

// A log of these records.
fn log_of(alloc: Global, records: &[&str]) -> Result<Vec<u8>, Fail> {
    let mut octets = Vec::new(alloc);
    for record in records {
        add(alloc, &mut octets, record)?;
    }
    octets.push(0)?;
    Ok(octets)
}

// The log of a book that has given so many leaves, to texts of one SHA-256.
fn log_with(alloc: Global, leaves: u8) -> Result<Vec<u8>, Fail> {
    let mut octets = Vec::new(alloc);
    add(alloc, &mut octets, FRONT)?;
    for leaf in 0..leaves {
        octets.extend_from_slice(&[1, 0, 0, 0, 37, 2, 0, 0, 0, leaf])?;
        octets.extend_from_slice(&[0x11; 32])?;
    }
    octets.push(0)?;
    Ok(octets)
}

fn book_on(alloc: Global, octets: Vec<u8>) -> Result<LeafBook<MemDisk>, Fail> {
    match LeafBook::mount(alloc, MemDisk::new(octets), SEED, ID, SET) {
        Ok(book) => Ok(book),
        Err(_) => Err("not mounted".into()),
    }
}

// Whether the next leaf is this one, and signs the text with a signature of this SHA-256.
fn signs(
    alloc: Global,
    book: &mut LeafBook<MemDisk>,
    leaf: u32,
    text: &[u8],
    digest: &[u8; 32],
) -> Result<bool, Fail> {
    let Ok(warrant) = book.reserve(Octets::copy_of(alloc, text)?) else {
        return Ok(false);
    };
    if warrant.leaf() != leaf || warrant.text() != text || warrant.key() != *KEY {
        return Ok(false);
    }
    let sig = book.sign(&warrant)?;
    Ok(Sha256::digest(sig.as_slice()) == *digest && hss_ok(KEY, text, sig.as_slice()))
}

// Whether the text comes back, as no leaf is left for it.
fn is_spent(alloc: Global, book: &mut LeafBook<MemDisk>) -> Result<bool, Fail> {
    match book.reserve(Octets::copy_of(alloc, b"text number 32")?) {
        Ok(_) => Ok(false),
        Err((text, fault)) => {
            Ok(fault == ReserveFault::Spent && text.as_slice() == b"text number 32".as_slice())
        }
    }
}

fn fault_on(alloc: Global, octets: Vec<u8>, set: Set) -> Option<BookFault> {
    match LeafBook::mount(alloc, MemDisk::new(octets), SEED, ID, set) {
        Ok(_) => None,
        Err((_, fault)) => Some(fault),
    }
}

#[test]
fn the_first_leaf_signs_and_stands_on_the_disk(rt: HostRuntime) -> Result<(), Fail> {
    let mut book = book_on(rt.alloc(), Vec::new(rt.alloc()))?;
    assert!(rt; signs(rt.alloc(), &mut book, 0, b"text number 0", FIRST)?);
    let disk = book.into_disk();
    assert!(rt; disk.octets() == log_of(rt.alloc(), &[FRONT, LEAF])?.as_slice());
    Ok(())
}

#[test]
fn the_last_leaf_signs_and_no_other(rt: HostRuntime) -> Result<(), Fail> {
    let mut book = book_on(rt.alloc(), log_with(rt.alloc(), 31)?)?;
    assert!(rt; signs(rt.alloc(), &mut book, 31, b"text number 31", LAST)?);
    assert!(rt; is_spent(rt.alloc(), &mut book)?);
    let mut again = book_on(rt.alloc(), book.into_disk().octets().to_vec(rt.alloc())?)?;
    assert!(rt; is_spent(rt.alloc(), &mut again)?);
    Ok(())
}

// A typecode of a tree or of one-time keys that a book may not have.
const OTHERS: [Set; 4] = [
    Set { tree: 4, ots: 4 },
    Set { tree: 8, ots: 4 },
    Set { tree: 5, ots: 0 },
    Set { tree: 5, ots: 5 },
];

#[test]
fn other_sets_are_refused(rt: HostRuntime) -> Result<(), Fail> {
    for set in &OTHERS {
        let fault = fault_on(rt.alloc(), Vec::new(rt.alloc()), *set);
        assert!(rt; fault == Some(BookFault::BadSet), "{set:?}");
    }
    Ok(())
}

// The records of a log, and the offset of its damage.
const DAMAGED: [(&[&str], u64); 5] = [
    (&["01434d504c4f4731"], 1),
    (&["01434d504c454146"], 8),
    (&["01434d504c454146", LEAF], 8),
    (&[FRONT, LEAF, LEAF], 112),
    (&[FRONT, LEAF, "01000000010200"], 112),
];

#[test]
fn other_payloads_are_damage(rt: HostRuntime) -> Result<(), Fail> {
    for (records, at) in &DAMAGED {
        let fault = fault_on(rt.alloc(), log_of(rt.alloc(), records)?, SET);
        assert!(rt; fault == Some(BookFault::Damaged { at: *at }), "at {at}");
    }
    Ok(())
}

// Whether the fault is that the disk has a key of these sets, and the book a key of others.
fn is_mismatch(fault: Option<BookFault>) -> bool {
    match fault {
        Some(BookFault::KeyMismatch { file, journal }) => {
            file.split_at(8).0 == [0, 0, 0, 5, 0, 0, 0, 1].as_slice()
                && journal.as_slice() == KEY.split_at(4).1
        }
        _ => false,
    }
}

#[test]
fn a_book_of_another_key_is_told(rt: HostRuntime) -> Result<(), Fail> {
    let octets = log_of(rt.alloc(), &[FRONT, LEAF])?;
    assert!(rt; is_mismatch(fault_on(rt.alloc(), octets, Set { tree: 5, ots: 1 })));
    Ok(())
}
