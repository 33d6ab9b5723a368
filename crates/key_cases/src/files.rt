//! Key files of no form, and sources that fail.

use crate::settled::{BLANK_KEY, file, settings_with, source_of};
use cmp_ports::{MemSource, Source};
use reply_maker::{KeyFault, Keys};
use std::alloc::Global;
use std::process::Abort;

/// The identifier behind the first seed.
const FIRST_ID: &[u8] = b"\x80\x81\x82\x83\x84\x85\x86\x87\x88\x89\x8a\x8b\x8c\x8d\x8e\x8f";

/// Why a source gives no keys, under settings whose keys aren't made yet.
fn fault_by<K: Source>(alloc: Global, source: &mut K) -> Option<KeyFault> {
    let Some(settings) = settings_with(alloc, BLANK_KEY, BLANK_KEY) else {
        return None;
    };
    match Keys::load(alloc, source, &settings) {
        Ok(_) => None,
        Err(fault) => Some(fault),
    }
}

/// Why the first so many octets of the file, with these behind them, give no keys.
fn fault_of(alloc: Global, count: usize, back: &[u8]) -> Option<KeyFault> {
    let Some(file) = file() else {
        return None;
    };
    let octets: &[u8] = &file;
    let Some(front) = octets.get(..count) else {
        return None;
    };
    let Some(mut source) = source_of(alloc, front, back) else {
        return None;
    };
    fault_by(alloc, &mut source)
}

/// The same of the file where its first read fails.
fn fault_of_reading(alloc: Global, octets: &[u8]) -> Option<KeyFault> {
    let Ok(octets) = Vec::from_slice(alloc, octets) else {
        return None;
    };
    let Ok(fails) = Vec::from_array(alloc, [1]) else {
        return None;
    };
    let mut source = MemSource::failing(octets, fails);
    fault_by(alloc, &mut source)
}

// 95 octets, and 97.
#[test]
fn files_of_another_length_are_refused(rt: HostRuntime) {
    let alloc = rt.alloc();
    assert!(rt; fault_of(alloc, 95, &[]) == Some(KeyFault::BadKeyFile));
    assert!(rt; fault_of(alloc, 96, &[0]) == Some(KeyFault::BadKeyFile));
}

// The same identifier twice, and one of zeros.
#[test]
fn files_of_bad_identifiers_are_refused(rt: HostRuntime) {
    let alloc = rt.alloc();
    assert!(rt; fault_of(alloc, 80, FIRST_ID) == Some(KeyFault::BadKeyFile));
    assert!(rt; fault_of(alloc, 80, &[0; 16]) == Some(KeyFault::BadKeyFile));
}

#[test]
fn a_source_that_fails_is_told(rt: HostRuntime) {
    let Some(file) = file() else {
        panic!(rt; "no file");
    };
    assert!(rt; fault_of_reading(rt.alloc(), &file) == Some(KeyFault::ReadFault));
}
