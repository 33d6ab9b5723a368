//! The changes that messages make.
ghost use Rattle.std.specs.Prelude.{◌≡◌, ◌+◌, ◌≤◌, false, [], length, unwrap_or, is_some, IfOk, option_copied, option_and_then};
ghost use Rattle.deal_model.specs.Rules.{reply_leaf};
ghost use Rattle.deal_model.specs.Views.{taken_leaves, leaves_used, AreTimely};
ghost use Rattle.deal_table.specs.History.{deal_in};
ghost use Rattle.deal_table.specs.Table.{Makes, unless, room_rows, made, stamp_by, grant_by, enrolled, is_on_hold, poll_made, state_now, deal_now};
ghost use Rattle.deal_table.specs.Carry.{rest_enrolment};
ghost use Rattle.deal_rulings.specs.Rulings.{ruling_of, sent_by, lacks_leaf, IsReplyLeaf, IsIssueLeaf, IsStamped};

use crate::moment::Moment;
use crate::places::is_full;
use crate::requests::request_for;
use crate::ruling::{Ruling, refused};
use cmp_values::{FailInfo, Octets, Short};
use deal_answers::{leaves_used, transaction_state};
use deal_model::{Body4, Change, Checked, DealState, HOLD, Key, Owner, Stamp, Who, Wish};
use deal_rules::{issue_leaves, reply_leaf, reply_leaves};
use deal_table::may;
use std::alloc::{AllocError, Global};

/// The leaf of the reply to a sender, where one is needed and left.
fn next_reply_leaf(h: &[Change], who: &Who) -> Result<Option<u32>, FailInfo>
    requires { length h.now ≤ 262144 }
    ensures { IsReplyLeaf h.now who.now result }
{
    match reply_leaf(h, who) {
        None => Ok(None),
        Some(leaf) => {
            if leaf < u64::from(reply_leaves(h)) {
                Ok(Some(leaf as u32))
            } else {
                Err(FailInfo::SystemUnavail)
            }
        }
    }
}

/// The leaf that signs the next certificate, where one is left.
fn next_issue_leaf(h: &[Change]) -> Result<u32, FailInfo>
    requires { length h.now ≤ 262144 }
    ensures { IsIssueLeaf h.now result }
{
    let leaf = leaves_used(h, Key::Issue);
    if leaf < u64::from(issue_leaves(h)) {
        Ok(leaf as u32)
    } else {
        Err(FailInfo::SystemUnavail)
    }
}

fn nonce_of(nonce: Option<Short>) -> Short
    ensures { result ≡ unwrap_or nonce [] }
{
    match nonce {
        Some(nonce) => nonce,
        None => Short::empty(),
    }
}

fn stamp_with(
    alloc: Global,
    m: &Moment<'_>,
    c: &Checked<'_>,
    o: &Owner,
    leaf: Option<u32>,
) -> Result<Stamp, AllocError>
    requires { leaf ≡ reply_leaf m.now.history o.now.who }
    ensures { IfOk result (λ s. s ≡ stamp_by m.now (sent_by c.now o.now)) }
{
    Ok(Stamp {
        tid: c.ask.tid,
        digest: c.ask.digest,
        who: o.who,
        sender: Octets::copy_of(alloc, c.echo.sender)?,
        pvno: c.echo.pvno,
        sender_nonce: nonce_of(c.echo.nonce),
        words: *m.words,
        time: m.time,
        leaf,
    })
}

/// The stamp that the message leaves, where a leaf is left for its reply.
fn stamp(
    alloc: Global,
    m: &Moment<'_>,
    c: &Checked<'_>,
    o: &Owner,
) -> Result<Result<Stamp, FailInfo>, AllocError>
    requires { length m.now.history ≤ 262144 }
    ensures { IfOk result (λ r. IsStamped m.now (sent_by c.now o.now) r) }
{
    match next_reply_leaf(m.history, &o.who) {
        Ok(leaf) => Ok(Ok(stamp_with(alloc, m, c, o, leaf)?)),
        Err(fail) => Ok(Err(fail)),
    }
}

/// A change that has the leaves which it needs is made where the journal has room for it.
fn with_room(h: &[Change], c: &Checked<'_>, change: Change) -> Ruling
    requires { lacks_leaf h.now (taken_leaves change) ≡ false }
    ensures { (o : Owner) → result ≡ ruling_of (unless (sent_by c.now o).to (room_rows h.now change) (Makes change)) }
{
    if is_full(h, &change) {
        refused(c, FailInfo::SystemUnavail)
    } else {
        Ruling::Makes(change)
    }
}

/// A certificate is granted.
pub(crate) fn granted(
    alloc: Global,
    m: &Moment<'_>,
    c: &Checked<'_>,
    o: &Owner,
    body: Body4,
    wish: &Wish,
) -> Result<Ruling, AllocError>
    requires { length m.now.history ≤ 262144 }
    ensures { IfOk result (λ r. r ≡ ruling_of (made m.now (sent_by c.now o.now) (Change.Grant (stamp_by m.now (sent_by c.now o.now)) body wish.now (leaves_used m.now.history Key.Issue + 1) (leaves_used m.now.history Key.Issue)))) }
{
    let leaf = match next_issue_leaf(m.history) {
        Ok(leaf) => leaf,
        Err(fail) => return Ok(refused(c, fail)),
    };
    match stamp(alloc, m, c, o)? {
        Err(fail) => Ok(refused(c, fail)),
        Ok(stamp) => {
            let grant = Change::Grant {
                stamp,
                body,
                wish: Wish::copy_of(alloc, wish)?,
                serial: u64::from(leaf) + 1,
                leaf,
            };
            Ok(with_room(m.history, c, grant))
        }
    }
}

/// A request waits for an order.
fn held(
    alloc: Global,
    m: &Moment<'_>,
    c: &Checked<'_>,
    o: &Owner,
    body: Body4,
    wish: &Wish,
) -> Result<Ruling, AllocError>
    requires { length m.now.history ≤ 262144 }
    ensures { IfOk result (λ r. r ≡ ruling_of (made m.now (sent_by c.now o.now) (Change.Hold (stamp_by m.now (sent_by c.now o.now)) body wish.now))) }
{
    match stamp(alloc, m, c, o)? {
        Err(fail) => Ok(refused(c, fail)),
        Ok(stamp) => {
            let hold = Change::Hold {
                stamp,
                body,
                wish: Wish::copy_of(alloc, wish)?,
            };
            Ok(with_room(m.history, c, hold))
        }
    }
}

/// A request is granted, or waits for an order where its sender is on hold.
pub(crate) fn enrolled(
    alloc: Global,
    m: &Moment<'_>,
    c: &Checked<'_>,
    o: &Owner,
    body: Body4,
    wish: &Wish,
) -> Result<Ruling, AllocError>
    requires { length m.now.history ≤ 262144 }
    ensures { IfOk result (λ r. r ≡ ruling_of (made m.now (sent_by c.now o.now) (enrolled m.now (sent_by c.now o.now) (rest_enrolment body wish.now c.now.proven)))) }
{
    if may(HOLD, o) {
        held(alloc, m, c, o, body, wish)
    } else {
        granted(alloc, m, c, o, body, wish)
    }
}

/// A certificate is accepted or rejected.
pub(crate) fn settled(
    alloc: Global,
    m: &Moment<'_>,
    c: &Checked<'_>,
    o: &Owner,
    accepted: bool,
) -> Result<Ruling, AllocError>
    requires { length m.now.history ≤ 262144 }
    ensures { IfOk result (λ r. r ≡ ruling_of (made m.now (sent_by c.now o.now) (Change.Settled (stamp_by m.now (sent_by c.now o.now)) accepted))) }
{
    match stamp(alloc, m, c, o)? {
        Err(fail) => Ok(refused(c, fail)),
        Ok(stamp) => Ok(with_room(m.history, c, Change::Settled { stamp, accepted })),
    }
}

/// A certificate is revoked.
pub(crate) fn revoked(
    alloc: Global,
    m: &Moment<'_>,
    c: &Checked<'_>,
    o: &Owner,
    serial: u64,
    reason: u8,
) -> Result<Ruling, AllocError>
    requires { length m.now.history ≤ 262144 }
    ensures { IfOk result (λ r. r ≡ ruling_of (made m.now (sent_by c.now o.now) (Change.Revoke (stamp_by m.now (sent_by c.now o.now)) serial reason))) }
{
    match stamp(alloc, m, c, o)? {
        Err(fail) => Ok(refused(c, fail)),
        Ok(stamp) => {
            let revoke = Change::Revoke {
                stamp,
                serial,
                reason,
            };
            Ok(with_room(m.history, c, revoke))
        }
    }
}

/// The requester of a denied request is told so.
fn turned(alloc: Global, m: &Moment<'_>, c: &Checked<'_>, o: &Owner) -> Result<Ruling, AllocError>
    requires { length m.now.history ≤ 262144 }
    ensures { IfOk result (λ r. r ≡ ruling_of (made m.now (sent_by c.now o.now) (Change.Turned (stamp_by m.now (sent_by c.now o.now))))) }
{
    match stamp(alloc, m, c, o)? {
        Err(fail) => Ok(refused(c, fail)),
        Ok(stamp) => Ok(with_room(m.history, c, Change::Turned(stamp))),
    }
}

/// The requester goes on waiting.
fn waits(alloc: Global, m: &Moment<'_>, c: &Checked<'_>, o: &Owner) -> Result<Ruling, AllocError>
    requires { length m.now.history ≤ 262144 }
    ensures { IfOk result (λ r. r ≡ ruling_of (made m.now (sent_by c.now o.now) (Change.Polled (stamp_by m.now (sent_by c.now o.now))))) }
{
    match stamp(alloc, m, c, o)? {
        Err(fail) => Ok(refused(c, fail)),
        Ok(stamp) => Ok(with_room(m.history, c, Change::Polled(stamp))),
    }
}

/// A released request is granted as it was asked for.
fn released(
    alloc: Global,
    m: &Moment<'_>,
    c: &Checked<'_>,
    o: &Owner,
    request: Option<&Change>,
) -> Result<Ruling, AllocError>
    requires { length m.now.history ≤ 262144 }
    ensures { IfOk result (λ r. r ≡ ruling_of (poll_made m.now (sent_by c.now o.now) DealState.Released (option_and_then deal_in (option_copied request.entry)))) }
{
    match request {
        Some(Change::Grant { body, wish, .. }) => granted(alloc, m, c, o, *body, wish),
        Some(Change::Hold { body, wish, .. }) => granted(alloc, m, c, o, *body, wish),
        _ => Ok(refused(c, FailInfo::BadRequest)),
    }
}

fn is_request(request: Option<&Change>) -> bool
    ensures { result ≡ is_some (option_and_then deal_in (option_copied request.entry)) }
{
    match request {
        Some(Change::Grant { .. }) => true,
        Some(Change::Hold { .. }) => true,
        _ => false,
    }
}

// A released request is granted, the requester of a denied one is told so, and else it goes on waiting.
fn polled_as(
    alloc: Global,
    m: &Moment<'_>,
    c: &Checked<'_>,
    o: &Owner,
    state: DealState,
    request: Option<&Change>,
) -> Result<Ruling, AllocError>
    requires { length m.now.history ≤ 262144 }
    ensures { IfOk result (λ r. r ≡ ruling_of (poll_made m.now (sent_by c.now o.now) state (option_and_then deal_in (option_copied request.entry)))) }
{
    if !is_request(request) {
        return Ok(refused(c, FailInfo::BadRequest));
    }
    match state {
        DealState::Released => released(alloc, m, c, o, request),
        DealState::Denied => turned(alloc, m, c, o),
        _ => waits(alloc, m, c, o),
    }
}

/// What a pollReq makes in its transaction's state.
pub(crate) fn polled(
    alloc: Global,
    m: &Moment<'_>,
    c: &Checked<'_>,
    o: &Owner,
) -> Result<Ruling, AllocError>
    requires timely { AreTimely m.now.history }
    requires room { length m.now.history ≤ 262144 }
    ensures { IfOk result (λ r. r ≡ ruling_of (poll_made m.now (sent_by c.now o.now) (state_now m.now (sent_by c.now o.now)) (deal_now m.now (sent_by c.now o.now)))) }
{
    let tid = c.ask.tid.as_slice();
    let state = transaction_state(m.history, tid);
    polled_as(alloc, m, c, o, state, request_for(m.history, tid))
}
