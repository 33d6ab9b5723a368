//! What was checked of two irs of dev-1.
ghost use Rattle.std.specs.Prelude.{◌≡◌, ◌≤◌, length, IfSome};
ghost use Rattle.deal_changes.specs.Spelling.{IsTid, IsWish};
ghost use Rattle.deal_table.specs.Carry.{FitsChecked};

use cmp_ports::{Octets, Short};
use deal_model::{Ask, Body4, Checked, Echo, Job, Kind, Who, Wish, is_spki};
use hex::decode;
use std::alloc::Global;

/// A request of dev-1, each in a transaction of its own and for a key of its own.
#[derive(Clone, Copy, PartialEq, Eq)]
pub(crate) enum Request {
    One,
    Another,
}

/// Keys that nobody has yet.
const KEY: &str =
    "304e300d060b2a864886f70d0109100311033d0000000001000000050000000442434445464748494a4b4c4d4e4f505152535455565758595a5b5c5d5e5f606162636465666768696a6b6c6d6e6f7071";

const OTHER_KEY: &str =
    "304e300d060b2a864886f70d0109100311033d0000000001000000050000000443434445464748494a4b4c4d4e4f505152535455565758595a5b5c5d5e5f606162636465666768696a6b6c6d6e6f7071";

// These octets, at most 64.
fn short(octets: &[u8]) -> Short
    requires { length octets.now ≤ 64 }
    ensures { result ≡ octets.now }
{
    match Short::of(octets) {
        Some(octets) => octets,
        None => unreachable!(),
    }
}

// A certificate over this key; none where memory runs out.
fn wish(alloc: Global, key: &str) -> Option<Wish>
    ensures { IfSome result IsWish }
{
    let spki: Vec<u8> = match decode(alloc, key) {
        Ok(spki) => spki,
        Err(_) => return None,
    };
    if spki.len() > 1_000 || !is_spki(&spki) {
        return None;
    }
    Some(Wish {
        subject: Octets::empty(alloc),
        spki: Octets::of(spki),
        exts: Octets::empty(alloc),
        implicit: false,
        mods: false,
    })
}

// What was checked of an ir with this wish, in this transaction, whose digest has the same octets throughout.
fn checked(digest: u8, tid: Short, wish: Wish) -> Checked<'static>
    requires tid { IsTid tid }
    requires wish { IsWish wish }
    ensures { FitsChecked result }
{
    let kid = short(b"dev-1");
    let key = short(b"secret-1");
    let nonce = short(b"0123456789abcdef");
    Checked {
        ask: Ask {
            digest: [digest; 32],
            tid,
            kind: Some(Kind::Mac),
            kid,
            outer: None,
        },
        who: Who::Listed(Kind::Mac, kid),
        key,
        message_time: None,
        job: Job::Enrol(Body4::Ir, wish),
        echo: Echo {
            pvno: 2,
            sender: b"\xa4\x00",
            tid: Some(tid),
            nonce: Some(nonce),
        },
        recip_nonce: None,
        proven: true,
        minus_one: false,
        hash_ok: None,
        outer_time: None,
        outer_key: None,
    }
}

/// What was checked of this request, the same at each call; none where memory runs out.
pub(crate) fn checked_of(alloc: Global, request: Request) -> Option<Checked<'static>>
    ensures { IfSome result FitsChecked }
{
    match request {
        Request::One => Some(checked(1, short(b"T"), wish(alloc, KEY)?)),
        Request::Another => Some(checked(2, short(b"U"), wish(alloc, OTHER_KEY)?)),
    }
}

/// The request with this transactionID, if one has it.
pub(crate) fn request_of(tid: &Short) -> Option<Request> {
    if tid.is(b"T") {
        Some(Request::One)
    } else if tid.is(b"U") {
        Some(Request::Another)
    } else {
        None
    }
}
