//! Keys that Python's `hashlib` grew by RFC 8554, 5.3 and appendix A (tests/vectors/key_vectors.py).
ghost use Rattle.reply_maker.specs.Keys.{AreUsable};

use crate::settled::{BLANK_KEY, file, key_of, settings_with, source_of};
use deal_model::Settings;
use reply_maker::{KeyFault, Keys};
use std::alloc::Global;
use std::process::Abort;

const ISSUE_KEY: &str =
    "000000010000000500000001808182838485868788898a8b8c8d8e8fe9575935c1757bd2d00100cf50af0a5c1579dbbf02a36a249ea580e486125e92";

const REPLY_KEY: &str =
    "0000000100000005000000017f7e7d7c7b7a7978777675747372717072af8775efdbe80e2974d2f11233fe9e99dc894b3b38957953af6a52ee1b1086";

/// The last octet of the root is another one.
const OTHER_KEY: &str =
    "0000000100000005000000017f7e7d7c7b7a7978777675747372717072af8775efdbe80e2974d2f11233fe9e99dc894b3b38957953af6a52ee1b1087";

/// What the file gives under these settings: its two public keys; or where it is another authority's, both identities.
#[derive(Clone, Copy, PartialEq, Eq)]
enum Told {
    Loads { issue: [u8; 60], reply: [u8; 60] },
    Differs { file: [u8; 96], journal: [u8; 96] },
}

fn told_by(alloc: Global, settings: &Settings) -> Option<Told>
    requires { AreUsable settings.now }
{
    let Some(file) = file() else {
        return None;
    };
    let Some(mut source) = source_of(alloc, &file, &[]) else {
        return None;
    };
    match Keys::load(alloc, &mut source, settings) {
        Ok(keys) => Some(Told::Loads {
            issue: keys.issue_key(),
            reply: keys.reply_key(),
        }),
        Err(KeyFault::KeyMismatch { file, journal }) => Some(Told::Differs { file, journal }),
        Err(_) => None,
    }
}

/// What the file gives under settings with these keys.
fn told_under(alloc: Global, issue: &str, reply: &str) -> Option<Told> {
    let Some(settings) = settings_with(alloc, issue, reply) else {
        return None;
    };
    told_by(alloc, &settings)
}

/// Both keys that others grew.
fn others() -> Option<Told> {
    let Some(issue) = key_of(ISSUE_KEY) else {
        return None;
    };
    let Some(reply) = key_of(REPLY_KEY) else {
        return None;
    };
    Some(Told::Loads { issue, reply })
}

/// The identifiers and the roots of these keys.
fn identity_of(issue: &str, reply: &str) -> Option<[u8; 96]> {
    let Some(issue) = key_of(issue) else {
        return None;
    };
    let Some(reply) = key_of(reply) else {
        return None;
    };
    let mut identity = [0u8; 96];
    identity[..48].copy_from_slice(&issue[12..]);
    identity[48..].copy_from_slice(&reply[12..]);
    Some(identity)
}

#[test]
fn keys_are_those_that_others_grew(rt: HostRuntime) {
    let alloc = rt.alloc();
    let others = others();
    assert!(rt; others.is_some());
    assert!(rt; told_under(alloc, BLANK_KEY, BLANK_KEY) == others);
    assert!(rt; told_under(alloc, ISSUE_KEY, REPLY_KEY) == others);
}

#[test]
fn keys_of_another_authority_are_told_with_both_identities(rt: HostRuntime) {
    let Some(file) = identity_of(ISSUE_KEY, REPLY_KEY) else {
        panic!(rt; "no keys");
    };
    let Some(journal) = identity_of(ISSUE_KEY, OTHER_KEY) else {
        panic!(rt; "no keys");
    };
    let told = told_under(rt.alloc(), ISSUE_KEY, OTHER_KEY);
    assert!(rt; told == Some(Told::Differs { file, journal }));
}
