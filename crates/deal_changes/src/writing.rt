//! A change as octets.
ghost use Rattle.std.specs.Prelude.{◌≡◌, ◌<◌, ◌^◌, List, [], ◌++◌, ◌∷◌, length, Option, Some, None, OnOk, IfOk, IfSome};
ghost use Rattle.deal_changes.specs.Spelling.{u16, u32, u64, short, blob, optional, kind, who, body, outcome, flags, stamp, wish, settings, credential, credentials, spelling, IsBlob, IsWriteable};

use crate::change::{Body4, Change, Credential, Kind, Settings, Stamp, Who, Wish};
use cmp_values::Octets;
use std::alloc::{AllocError, Global};

#[tactic(auto, unfolding(crate::specs::Spelling::u64))]
pub(crate) fn put_u64(out: &mut Vec<u8>, n: u64) -> Result<(), AllocError>
    ensures { OnOk result (out.new.items ≡ out.old.items ++ u64 n) }
{
    out.extend_from_slice(&n.to_be_bytes())
}

#[tactic(auto, unfolding(crate::specs::Spelling::u32))]
fn put_u32(out: &mut Vec<u8>, n: u32) -> Result<(), AllocError>
    ensures { OnOk result (out.new.items ≡ out.old.items ++ u32 n) }
{
    out.extend_from_slice(&n.to_be_bytes())
}

#[tactic(auto, unfolding(crate::specs::Spelling::u16))]
fn put_u16(out: &mut Vec<u8>, n: u16) -> Result<(), AllocError>
    ensures { OnOk result (out.new.items ≡ out.old.items ++ u16 n) }
{
    out.extend_from_slice(&n.to_be_bytes())
}

fn put_octet(out: &mut Vec<u8>, n: u8) -> Result<(), AllocError>
    ensures { OnOk result (out.new.items ≡ out.old.items ++ n ∷ []) }
{
    out.push(n)?;
    Ok(())
}

pub(crate) fn put_short(out: &mut Vec<u8>, octets: &[u8]) -> Result<(), AllocError>
    requires { length octets.now < 2 ^ 8 }
    ensures { OnOk result (out.new.items ≡ out.old.items ++ short octets.now) }
{
    out.push(octets.len() as u8)?;
    out.extend_from_slice(octets)
}

pub(crate) fn put_blob(out: &mut Vec<u8>, octets: &[u8]) -> Result<(), AllocError>
    requires { IsBlob octets.now }
    ensures { OnOk result (out.new.items ≡ out.old.items ++ blob octets.now) }
{
    put_u32(out, octets.len() as u32)?;
    out.extend_from_slice(octets)
}

fn put_leaf(out: &mut Vec<u8>, leaf: Option<u32>) -> Result<(), AllocError>
    ensures { OnOk result (out.new.items ≡ out.old.items ++ optional leaf) }
{
    match leaf {
        None => put_octet(out, 0),
        Some(leaf) => {
            put_octet(out, 1)?;
            put_u32(out, leaf)
        }
    }
}

fn code_of_kind(k: Kind) -> u8
    ensures { result ≡ kind k }
{
    match k {
        Kind::Mac => 1,
        Kind::Lms => 2,
    }
}

fn code_of_body(b: Body4) -> u8
    ensures { result ≡ body b }
{
    match b {
        Body4::Ir => 0,
        Body4::Cr => 2,
        Body4::P10cr => 4,
        Body4::Kur => 7,
    }
}

fn code_of_outcome(accepted: bool) -> u8
    ensures { result ≡ outcome accepted }
{
    if accepted { 1 } else { 2 }
}

fn code_of_flags(implicit: bool, mods: bool) -> u8
    ensures { result ≡ flags implicit mods }
{
    match (implicit, mods) {
        (false, false) => 0,
        (true, false) => 1,
        (false, true) => 2,
        (true, true) => 3,
    }
}

fn put_who(out: &mut Vec<u8>, w: &Who) -> Result<(), AllocError>
    ensures { OnOk result (out.new.items ≡ out.old.items ++ who w.now) }
{
    match w {
        Who::Listed(k, id) => {
            put_octet(out, code_of_kind(*k))?;
            put_short(out, id.as_slice())
        }
        Who::Cert(serial) => {
            put_octet(out, 3)?;
            put_u64(out, *serial)
        }
    }
}

fn put_end(out: &mut Vec<u8>, s: &Stamp) -> Result<(), AllocError>
    ensures { OnOk result (out.new.items ≡ out.old.items ++ (short s.now.sender_nonce ++ (s.now.words ++ (u64 s.now.time ++ optional s.now.leaf)))) }
{
    put_short(out, s.sender_nonce.as_slice())?;
    out.extend_from_slice(&s.words)?;
    put_u64(out, s.time)?;
    put_leaf(out, s.leaf)
}

fn put_sender(out: &mut Vec<u8>, s: &Stamp) -> Result<(), AllocError>
    requires { IsBlob s.now.sender }
    ensures { OnOk result (out.new.items ≡ out.old.items ++ (blob s.now.sender ++ (s.now.pvno ∷ (short s.now.sender_nonce ++ (s.now.words ++ (u64 s.now.time ++ optional s.now.leaf)))))) }
{
    put_blob(out, s.sender.as_slice())?;
    put_octet(out, s.pvno)?;
    put_end(out, s)
}

fn put_stamp(out: &mut Vec<u8>, s: &Stamp) -> Result<(), AllocError>
    requires { IsBlob s.now.sender }
    ensures { OnOk result (out.new.items ≡ out.old.items ++ stamp s.now) }
{
    put_short(out, s.tid.as_slice())?;
    out.extend_from_slice(&s.digest)?;
    put_who(out, &s.who)?;
    put_sender(out, s)
}

fn put_wish(out: &mut Vec<u8>, w: &Wish) -> Result<(), AllocError>
    requires { IsBlob w.now.subject × IsBlob w.now.spki × IsBlob w.now.exts }
    ensures { OnOk result (out.new.items ≡ out.old.items ++ wish w.now) }
{
    put_blob(out, w.subject.as_slice())?;
    put_blob(out, w.spki.as_slice())?;
    put_blob(out, w.exts.as_slice())?;
    put_octet(out, code_of_flags(w.implicit, w.mods))
}

fn put_numbers(out: &mut Vec<u8>, s: &Settings) -> Result<(), AllocError>
    ensures { OnOk result (out.new.items ≡ out.old.items ++ (u32 s.now.rounds ++ (u32 s.now.check_after ++ u32 s.now.days))) }
{
    put_u32(out, s.rounds)?;
    put_u32(out, s.check_after)?;
    put_u32(out, s.days)
}

fn put_spans(out: &mut Vec<u8>, s: &Settings) -> Result<(), AllocError>
    ensures { OnOk result (out.new.items ≡ out.old.items ++ (s.now.reply_key ++ (u32 s.now.wait ++ (u32 s.now.skew ++ (u32 s.now.rounds ++ (u32 s.now.check_after ++ u32 s.now.days)))))) }
{
    out.extend_from_slice(&s.reply_key)?;
    put_u32(out, s.wait)?;
    put_u32(out, s.skew)?;
    put_numbers(out, s)
}

fn put_settings(out: &mut Vec<u8>, s: &Settings) -> Result<(), AllocError>
    requires { IsBlob s.now.name }
    ensures { OnOk result (out.new.items ≡ out.old.items ++ settings s.now) }
{
    put_u64(out, s.time)?;
    put_blob(out, s.name.as_slice())?;
    out.extend_from_slice(&s.issue_key)?;
    put_spans(out, s)
}

fn put_credential(out: &mut Vec<u8>, c: &Credential) -> Result<(), AllocError>
    ensures { OnOk result (out.new.items ≡ out.old.items ++ credential c.now) }
{
    put_octet(out, code_of_kind(c.kind))?;
    put_short(out, c.kid.as_slice())?;
    put_short(out, c.material.as_slice())?;
    put_octet(out, c.rights)
}

fn put_credentials(out: &mut Vec<u8>, list: &[Credential]) -> Result<(), AllocError>
    requires { length list.now < 2 ^ 16 }
    ensures { OnOk result (out.new.items ≡ out.old.items ++ credentials list.now) }
{
    put_u16(out, list.len() as u16)?;
    for c in list {
        put_credential(out, c)?;
    }
    Ok(())
}

fn put_timed(out: &mut Vec<u8>, code: u8, time: u64, tid: &[u8]) -> Result<(), AllocError>
    requires { length tid.now < 2 ^ 8 }
    ensures { OnOk result (out.new.items ≡ out.old.items ++ (code ∷ u64 time ++ short tid.now)) }
{
    put_octet(out, code)?;
    put_u64(out, time)?;
    put_short(out, tid)
}

fn put_stamped(out: &mut Vec<u8>, code: u8, s: &Stamp) -> Result<(), AllocError>
    requires { IsBlob s.now.sender }
    ensures { OnOk result (out.new.items ≡ out.old.items ++ code ∷ stamp s.now) }
{
    put_octet(out, code)?;
    put_stamp(out, s)
}

fn put_request(out: &mut Vec<u8>, code: u8, s: &Stamp, b: Body4, w: &Wish) -> Result<(), AllocError>
    requires sender { IsBlob s.now.sender }
    requires wish { IsBlob w.now.subject × IsBlob w.now.spki × IsBlob w.now.exts }
    ensures { OnOk result (out.new.items ≡ out.old.items ++ (code ∷ stamp s.now ++ (body b ∷ wish w.now))) }
{
    put_stamped(out, code, s)?;
    put_octet(out, code_of_body(b))?;
    put_wish(out, w)
}

fn put_change(out: &mut Vec<u8>, c: &Change) -> Result<(), AllocError>
    requires { IsWriteable c.now }
    ensures { OnOk result (out.new.items ≡ out.old.items ++ spelling c.now) }
{
    match c {
        Change::Found(settings) => {
            put_octet(out, 1)?;
            put_settings(out, settings)
        }
        Change::Enlist { time, list } => {
            put_octet(out, 2)?;
            put_u64(out, *time)?;
            put_credentials(out, list.as_slice())
        }
        Change::Dismiss { time, who } => {
            put_octet(out, 3)?;
            put_u64(out, *time)?;
            put_who(out, who)
        }
        Change::Grant {
            stamp,
            body,
            wish,
            serial,
            leaf,
        } => {
            put_request(out, 4, stamp, *body, wish)?;
            put_u64(out, *serial)?;
            put_u32(out, *leaf)
        }
        Change::Hold { stamp, body, wish } => put_request(out, 5, stamp, *body, wish),
        Change::Release { time, tid } => put_timed(out, 6, *time, tid.as_slice()),
        Change::Deny { time, tid } => put_timed(out, 7, *time, tid.as_slice()),
        Change::Turned(stamp) => put_stamped(out, 8, stamp),
        Change::Polled(stamp) => put_stamped(out, 9, stamp),
        Change::Settled { stamp, accepted } => {
            put_stamped(out, 10, stamp)?;
            put_octet(out, code_of_outcome(*accepted))
        }
        Change::Revoke {
            stamp,
            serial,
            reason,
        } => {
            put_stamped(out, 11, stamp)?;
            put_u64(out, *serial)?;
            put_octet(out, *reason)
        }
        Change::Lapse { time, tid } => put_timed(out, 12, *time, tid.as_slice()),
    }
}

/// The one spelling of a change. `AllocError` where memory runs out.
pub fn write_change(alloc: Global, c: &Change) -> Result<Octets, AllocError>
    requires { IsWriteable c.now }
    ensures { IfOk result (λ octets. octets ≡ spelling c.now) }
{
    let mut out = Vec::new(alloc);
    put_change(&mut out, c)?;
    Ok(Octets::of(out))
}
