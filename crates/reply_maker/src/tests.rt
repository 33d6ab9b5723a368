//! Key files that are of no form. The name is the subject that OpenSSL wrote for `-subj "/CN=Fleet CA" -utf8`.
ghost use Rattle.std.specs.Prelude.{IsTrue, IfOk};
ghost use Rattle.reply_maker.specs.Keys.{AreUsable, HasOwnSets};

use crate::{KeyFault, Keys};
use cmp_ports::{MemSource, Octets};
use deal_answers::{levels_of, ots_of, tree_of};
use deal_model::{Settings, is_ca_name};
use std::alloc::Global;
use std::test::Fail;

/// The seeds 00 to 1f and ff to e0, each with its identifier behind it, 80 to 8f and 7f to 70.
const FILE: &str =
    "000102030405060708090a0b0c0d0e0f101112131415161718191a1b1c1d1e1f808182838485868788898a8b8c8d8e8ffffefdfcfbfaf9f8f7f6f5f4f3f2f1f0efeeedecebeae9e8e7e6e5e4e3e2e1e07f7e7d7c7b7a79787776757473727170";

/// One level, a tree of type 5, one-time signatures of type 4 (RFC 8554, 4.1, 5.1 and 6.1), and no key yet.
const BLANK_KEY: &str =
    "000000010000000500000004000000000000000000000000000000000000000000000000000000000000000000000000000000000000000000000000";

const NAME: [u8; 21] = *b"\x30\x13\x31\x11\x30\x0f\x06\x03\x55\x04\x03\x0c\x08Fleet CA";

/// A key in hex, of one level and of the smallest sets.
fn key_of(digits: &str) -> Result<[u8; 60], Fail> {
    let mut key = [0u8; 60];
    hex::decode_to_slice(digits, &mut key)?;
    Ok(key)
}

/// Whether a key is of one level and of the smallest sets.
fn is_small(key: &[u8; 60]) -> bool
    ensures { IsTrue result → HasOwnSets key.now }
{
    levels_of(key) == 1 && tree_of(key) == 5 && ots_of(key) == 4
}

/// Settings with these keys.
fn settings_with(alloc: Global, issue: &str, reply: &str) -> Result<Settings, Fail>
    ensures { IfOk result AreUsable }
{
    let issue_key = key_of(issue)?;
    let reply_key = key_of(reply)?;
    if !is_small(&issue_key) || !is_small(&reply_key) || !is_ca_name(&NAME) {
        return Err(Fail::from("other sets or no name"));
    }
    let name = Octets::copy_of(alloc, &NAME)?;
    Ok(Settings {
        time: 1_700_000_000,
        name,
        issue_key,
        reply_key,
        wait: 300,
        skew: 300,
        rounds: 1_000,
        check_after: 60,
        days: 365,
    })
}

/// The octets of the file.
fn file() -> Result<[u8; 96], Fail> {
    let mut file = [0u8; 96];
    hex::decode_to_slice(FILE, &mut file)?;
    Ok(file)
}

/// A key file of these octets, and of those behind them.
fn source_of(alloc: Global, front: &[u8], back: &[u8]) -> Result<MemSource, Fail> {
    let mut octets = Vec::from_slice(alloc, front)?;
    octets.extend_from_slice(back)?;
    Ok(MemSource::new(octets))
}

/// Why such a key file gives no keys, under settings whose keys aren't made yet.
fn fault_of(alloc: Global, front: &[u8], back: &[u8]) -> Result<Option<KeyFault>, Fail> {
    let settings = settings_with(alloc, BLANK_KEY, BLANK_KEY)?;
    let mut source = source_of(alloc, front, back)?;
    match Keys::load(alloc, &mut source, &settings) {
        Ok(_) => Ok(None),
        Err(fault) => Ok(Some(fault)),
    }
}

// The same identifier twice, and one of zeros.
#[test]
fn files_of_bad_identifiers_are_refused(rt: HostRuntime) -> Result<(), Fail> {
    let alloc = rt.alloc();
    let file = file()?;
    assert!(rt; fault_of(alloc, &file[..80], &file[32..48])? == Some(KeyFault::BadKeyFile));
    assert!(rt; fault_of(alloc, &file[..80], &[0; 16])? == Some(KeyFault::BadKeyFile));
    Ok(())
}
