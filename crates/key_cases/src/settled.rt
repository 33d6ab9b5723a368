//! Settings over the smallest trees, and a key file. The name is the subject that OpenSSL wrote for `-subj "/CN=Fleet CA" -utf8`.
ghost use Rattle.std.specs.Prelude.{IsTrue, IfSome};
ghost use Rattle.reply_maker.specs.Keys.{AreUsable, HasOwnSets};

use cmp_ports::{MemSource, Octets};
use deal_answers::{levels_of, ots_of, tree_of};
use deal_model::{Settings, is_ca_name};
use hex::decode_to_slice;
use std::alloc::Global;

/// The seeds 00 to 1f and ff to e0, each with its identifier behind it, 80 to 8f and 7f to 70.
const FILE: &str =
    "000102030405060708090a0b0c0d0e0f101112131415161718191a1b1c1d1e1f808182838485868788898a8b8c8d8e8ffffefdfcfbfaf9f8f7f6f5f4f3f2f1f0efeeedecebeae9e8e7e6e5e4e3e2e1e07f7e7d7c7b7a79787776757473727170";

/// One level, a tree of type 5, one-time signatures of type 1 (RFC 8554, 4.1, 5.1 and 6.1), and no key yet.
pub(crate) const BLANK_KEY: &str =
    "000000010000000500000001000000000000000000000000000000000000000000000000000000000000000000000000000000000000000000000000";

const NAME: [u8; 21] = *b"\x30\x13\x31\x11\x30\x0f\x06\x03\x55\x04\x03\x0c\x08Fleet CA";

/// A key in hex.
pub(crate) fn key_of(digits: &str) -> Option<[u8; 60]> {
    let mut key = [0u8; 60];
    if decode_to_slice(digits, &mut key).is_err() {
        return None;
    }
    Some(key)
}

/// Whether a key is of one level and of the smallest sets.
fn is_small(key: &[u8; 60]) -> bool
    ensures { IsTrue result → HasOwnSets key.now }
{
    levels_of(key) == 1 && tree_of(key) == 5 && ots_of(key) == 1
}

/// Such a key in hex.
fn small_key(digits: &str) -> Option<[u8; 60]>
    ensures { IfSome result HasOwnSets }
{
    let Some(key) = key_of(digits) else {
        return None;
    };
    if !is_small(&key) {
        return None;
    }
    Some(key)
}

/// Settings with these keys.
pub(crate) fn settings_with(alloc: Global, issue: &str, reply: &str) -> Option<Settings>
    ensures { IfSome result AreUsable }
{
    let Some(issue_key) = small_key(issue) else {
        return None;
    };
    let Some(reply_key) = small_key(reply) else {
        return None;
    };
    if !is_ca_name(&NAME) {
        return None;
    }
    let Ok(name) = Octets::copy_of(alloc, &NAME) else {
        return None;
    };
    Some(Settings {
        time: 1_700_000_000,
        name,
        issue_key,
        reply_key,
        wait: 300,
        skew: 300,
        rounds: 1_000,
        check_after: 60,
        days: 365,
    })
}

/// The octets of the file.
pub(crate) fn file() -> Option<[u8; 96]> {
    let mut file = [0u8; 96];
    if decode_to_slice(FILE, &mut file).is_err() {
        return None;
    }
    Some(file)
}

/// A key file of these octets, and of those behind them.
pub(crate) fn source_of(alloc: Global, front: &[u8], back: &[u8]) -> Option<MemSource> {
    let Ok(mut octets) = Vec::from_slice(alloc, front) else {
        return None;
    };
    if octets.extend_from_slice(back).is_err() {
        return None;
    }
    Some(MemSource::new(octets))
}
