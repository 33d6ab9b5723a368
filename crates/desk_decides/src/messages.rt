//! What was checked of messages of dev-1.
ghost use Rattle.std.specs.Prelude.{◌≡◌, ◌≤◌, length, IfSome};
ghost use Rattle.deal_changes.specs.Spelling.{IsTid, IsWish};
ghost use Rattle.deal_table.specs.Carry.{FitsJob, FitsChecked};

use cmp_ports::{FailInfo, Octets, Short};
use deal_model::{Ask, Body4, Checked, Echo, Job, Kind, Who, Wish, is_spki};
use desk::Verdict;
use hex::decode;
use std::alloc::Global;

/// A key that nobody has yet.
pub(crate) const FRESH_KEY: &str =
    "304e300d060b2a864886f70d0109100311033d0000000001000000050000000442434445464748494a4b4c4d4e4f505152535455565758595a5b5c5d5e5f606162636465666768696a6b6c6d6e6f7071";

/// The key of the log's Grant.
pub(crate) const GRANTED_KEY: &str =
    "304e300d060b2a864886f70d0109100311033d00000000010000000500000004404142434445464748494a4b4c4d4e4f505152535455565758595a5b5c5d5e5f606162636465666768696a6b6c6d6e6f";

/// The transaction of the log's Grant.
pub(crate) const GRANTED_TID: &[u8] =
    b"\x00\x01\x02\x03\x04\x05\x06\x07\x08\x09\x0a\x0b\x0c\x0d\x0e\x0f";

/// The nonce of the reply to the Grant: the first 16 octets of its words.
const GRANTED_NONCE: &[u8] = b"\x81\x82\x83\x84\x85\x86\x87\x88\x89\x8a\x8b\x8c\x8d\x8e\x8f\x90";

/// A verdict without its receipt.
#[derive(Clone, Copy, PartialEq, Eq)]
pub(crate) enum Told {
    Done { place: u64 },
    Again { place: u64 },
    Refused { fail: FailInfo, guarded: bool },
    Stale { place: u64 },
    DiskFault,
    NoMemory,
}

pub(crate) fn outcome_of(verdict: Verdict) -> Told {
    match verdict {
        Verdict::Done(receipt) => Told::Done {
            place: receipt.place(),
        },
        Verdict::Again { receipt, .. } => Told::Again {
            place: receipt.place(),
        },
        Verdict::Refused { fail, guarded, .. } => Told::Refused { fail, guarded },
        Verdict::Stale { place } => Told::Stale { place },
        Verdict::DiskFault => Told::DiskFault,
        Verdict::NoMemory => Told::NoMemory,
    }
}

/// These octets, at most 64.
pub(crate) fn short(octets: &[u8]) -> Short
    requires { length octets.now ≤ 64 }
    ensures { result ≡ octets.now }
{
    match Short::of(octets) {
        Some(octets) => octets,
        None => unreachable!(),
    }
}

// What was checked of a message with this digest, all of whose octets are the same, in this transaction.
fn checked(digest: u8, tid: Short, job: Job, hash_ok: Option<bool>) -> Checked<'static>
    requires tid { IsTid tid }
    requires job { FitsJob job }
    ensures { FitsChecked result }
{
    let kid = short(b"dev-1");
    let key = short(b"secret-1");
    let nonce = short(b"0123456789abcdef");
    let recip_nonce = short(GRANTED_NONCE);
    Checked {
        ask: Ask {
            digest: [digest; 32],
            tid,
            kind: Some(Kind::Mac),
            kid,
            outer: None,
        },
        who: Who::Listed(Kind::Mac, kid),
        key,
        message_time: None,
        job,
        echo: Echo {
            pvno: 2,
            sender: b"\xa4\x00",
            tid: Some(tid),
            nonce: Some(nonce),
        },
        recip_nonce: Some(recip_nonce),
        proven: true,
        minus_one: false,
        hash_ok,
        outer_time: None,
        outer_key: None,
    }
}

// A certificate over this key; none where memory runs out.
fn wish(alloc: Global, key: &str) -> Option<Wish>
    ensures { IfSome result IsWish }
{
    let spki: Vec<u8> = match decode(alloc, key) {
        Ok(spki) => spki,
        Err(_) => return None,
    };
    if spki.len() > 1_000 || !is_spki(&spki) {
        return None;
    }
    Some(Wish {
        subject: Octets::empty(alloc),
        spki: Octets::of(spki),
        exts: Octets::empty(alloc),
        implicit: false,
        mods: false,
    })
}

/// An ir with this digest, for this key, in the transaction T; none where memory runs out.
pub(crate) fn request(alloc: Global, digest: u8, key: &str) -> Option<Checked<'static>>
    ensures { IfSome result FitsChecked }
{
    let wish = wish(alloc, key)?;
    Some(checked(digest, short(b"T"), Job::Enrol(Body4::Ir, wish), None))
}

/// A certConf of the log's Grant, and whether its hash is the certificate's, where that was asked.
pub(crate) fn confirmation(hash_ok: Option<bool>) -> Checked<'static>
    ensures { FitsChecked result }
{
    let job = Job::Confirm {
        id_ok: true,
        hash: [9; 32],
        hash_alg_ok: true,
        count: 1,
        status: 0,
    };
    checked(200, short(GRANTED_TID), job, hash_ok)
}
