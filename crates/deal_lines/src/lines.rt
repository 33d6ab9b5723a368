//! The lines, and the whole text.
ghost use Rattle.std.specs.Prelude.{◌≡◌, ◌≤◌, ◌++◌, length, codes, IfOk, OnOk, Option};
ghost use Rattle.std.specs.List.{flat_map};
ghost use Rattle.hex.specs.Hex.{encode_lower};
ghost use Rattle.deal_model.specs.Keys.{leaves_of};
ghost use Rattle.deal_model.specs.Views.{settings_of, AreTimely};
ghost use Rattle.deal_lines.specs.Lines.{line, changes_line, issue_line, reply_line, certificate_line, granted, waiting_line, waiting, lines_of};

use crate::put::{put_decimal, put_hex, put_share, put_state};
use cmp_values::Octets;
use deal_answers::{certificate_state, founding, leaves_of, leaves_used, transaction_state};
use deal_model::{CertificateState, Change, DealState, Key};
use std::alloc::{AllocError, Global};

#[tactic(auto, using(crate::proofs::Sizes::no_leaves))]
fn issue_size(h: &[Change]) -> u32
    ensures { result ≡ leaves_of (settings_of h.now).issue_key }
{
    match founding(h) {
        Some(settings) => leaves_of(&settings.issue_key),
        None => 0,
    }
}

#[tactic(auto, using(crate::proofs::Sizes::no_leaves))]
fn reply_size(h: &[Change]) -> u32
    ensures { result ≡ leaves_of (settings_of h.now).reply_key }
{
    match founding(h) {
        Some(settings) => leaves_of(&settings.reply_key),
        None => 0,
    }
}

fn put_changes(out: &mut Octets, h: &[Change]) -> Result<(), AllocError>
    ensures { OnOk result (out.new ≡ out.old ++ changes_line h.now) }
{
    out.append(b"changes ")?;
    put_decimal(out, h.len() as u64)?;
    out.append(b"\n")
}

fn put_issue(out: &mut Octets, h: &[Change]) -> Result<(), AllocError>
    requires { length h.now ≤ 262144 }
    ensures { OnOk result (out.new ≡ out.old ++ issue_line h.now) }
{
    out.append(b"issue ")?;
    put_share(out, leaves_used(h, Key::Issue), issue_size(h))?;
    out.append(b"\n")
}

fn put_reply(out: &mut Octets, h: &[Change]) -> Result<(), AllocError>
    requires { length h.now ≤ 262144 }
    ensures { OnOk result (out.new ≡ out.old ++ reply_line h.now) }
{
    out.append(b"reply ")?;
    put_share(out, leaves_used(h, Key::Reply), reply_size(h))?;
    out.append(b"\n")
}

fn put_numbers(out: &mut Octets, h: &[Change]) -> Result<(), AllocError>
    requires { length h.now ≤ 262144 }
    ensures { OnOk result (out.new ≡ out.old ++ (changes_line h.now ++ (issue_line h.now ++ reply_line h.now))) }
{
    put_changes(out, h)?;
    put_issue(out, h)?;
    put_reply(out, h)
}

/// Puts a word, the transactionID in hex and the end of the line after the text.
fn put_transaction(
    alloc: Global,
    out: &mut Octets,
    word: &[u8],
    tid: &[u8],
) -> Result<(), AllocError>
    ensures { OnOk result (out.new ≡ out.old ++ line (word.now ++ encode_lower tid.now)) }
{
    out.append(word)?;
    put_hex(alloc, out, tid)?;
    out.append(b"\n")
}

fn put_certificate(
    alloc: Global,
    out: &mut Octets,
    serial: u64,
    tid: &[u8],
    state: Option<CertificateState>,
) -> Result<(), AllocError>
    ensures { OnOk result (out.new ≡ out.old ++ certificate_line serial tid.now state) }
{
    match state {
        Some(state) => {
            out.append(b"cert ")?;
            put_decimal(out, serial)?;
            out.append(b" ")?;
            put_state(out, state)?;
            put_transaction(alloc, out, b" ", tid)
        }
        None => Ok(()),
    }
}

fn put_granted(alloc: Global, out: &mut Octets, h: &[Change], c: &Change) -> Result<(), AllocError>
    requires { AreTimely h.now }
    ensures { OnOk result (out.new ≡ out.old ++ granted h.now c.now) }
{
    match c {
        Change::Grant { stamp, serial, .. } => {
            let state = certificate_state(h, *serial);
            put_certificate(alloc, out, *serial, stamp.tid.as_slice(), state)
        }
        _ => Ok(()),
    }
}

/// Puts the line of each Grant, in the order of the history.
fn put_certificates(alloc: Global, out: &mut Octets, h: &[Change]) -> Result<(), AllocError>
    requires { AreTimely h.now }
    ensures { OnOk result (out.new ≡ out.old ++ flat_map (granted h.now) h.now) }
{
    for c in h {
        put_granted(alloc, out, h, c)?;
    }
    Ok(())
}

fn put_order(
    alloc: Global,
    out: &mut Octets,
    tid: &[u8],
    state: DealState,
) -> Result<(), AllocError>
    ensures { OnOk result (out.new ≡ out.old ++ waiting_line tid.now state) }
{
    match state {
        DealState::Held => put_transaction(alloc, out, b"held ", tid),
        DealState::Released => put_transaction(alloc, out, b"released ", tid),
        DealState::Denied => put_transaction(alloc, out, b"denied ", tid),
        _ => Ok(()),
    }
}

fn put_waiting(alloc: Global, out: &mut Octets, h: &[Change], c: &Change) -> Result<(), AllocError>
    requires { AreTimely h.now }
    ensures { OnOk result (out.new ≡ out.old ++ waiting h.now c.now) }
{
    match c {
        Change::Hold { stamp, .. } => {
            let tid = stamp.tid.as_slice();
            put_order(alloc, out, tid, transaction_state(h, tid))
        }
        _ => Ok(()),
    }
}

/// Puts the line of each Hold whose transaction has no Grant, in the order of the history.
fn put_requests(alloc: Global, out: &mut Octets, h: &[Change]) -> Result<(), AllocError>
    requires { AreTimely h.now }
    ensures { OnOk result (out.new ≡ out.old ++ flat_map (waiting h.now) h.now) }
{
    for c in h {
        put_waiting(alloc, out, h, c)?;
    }
    Ok(())
}

/// How a history stands, in lines of ASCII that each end with a newline: the number of its changes, the leaves that are used of
/// each key and how many its tree has, a line a Grant, and a line a Hold whose transaction has no Grant. `AllocError` where memory
/// runs out.
pub fn show_lines(alloc: Global, h: &[Change]) -> Result<Octets, AllocError>
    requires { AreTimely h.now × (length h.now ≤ 262144) }
    ensures { IfOk result (λ text. text ≡ lines_of h.now) }
{
    let mut out = Octets::empty(alloc);
    put_numbers(&mut out, h)?;
    put_certificates(alloc, &mut out, h)?;
    put_requests(alloc, &mut out, h)?;
    Ok(out)
}
