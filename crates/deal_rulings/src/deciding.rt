//! How what is left of a message is decided.
ghost use Rattle.std.specs.Prelude.{nat_lt, ◌≡◌, ◌≤◌, ℕ, List, true, false, length, IfOk};
ghost use Rattle.deal_model.specs.Views.{AreTimely, is_grant_for};
ghost use Rattle.deal_table.specs.History.{name_of, skew_of, place_of, grant_receipt};
ghost use Rattle.deal_table.specs.Table.{unless, bare, guarded, deal_now, status_rows, stamp_by, time_rows, served_rows, wrap_rows, enrols, settles, confirms, compared, compared_with, made, polls, withdraws, about, passed, trusted};
ghost use Rattle.deal_table.specs.Carry.{left, rest_facts, rest_body, rest_outer, rest_enrolment, rest_withdrawal};
ghost use Rattle.deal_rulings.specs.Rulings.{ruling_of, outcome, sent_by, rest_confirmation, rest_polling, enrol_rows, confirmed_rows, polled_rows, withdraw_rows, subject};

use crate::making::{enrolled, polled, revoked, settled};
use crate::moment::Moment;
use crate::places::{event_time, place_of_digest, place_of_grant};
use crate::rows::{
    Statuses, confirm_rows, entry_rows, header_rows, key_rows, new_rows, old_rows, party_rows,
    poll_rows, proof_rows, reason_rows, revoke_rows, served_rows, status_rows, wish_rows,
    wrap_rows,
};
use crate::ruling::{Ruling, refused, refused_bare, refused_outer};
use crate::senders::{sender, time_rows};
use cmp_values::{FailInfo, Short};
use deal_model::{Body4, Change, Checked, Job, Kind, Owner, Wish};
use std::alloc::{AllocError, Global};

// What a request asks of its transaction, its sender, the key and its possession.
fn enrol_rows(
    m: &Moment<'_>,
    c: &Checked<'_>,
    o: &Owner,
    body: Body4,
    wish: &Wish,
) -> Result<(), FailInfo>
    requires { AreTimely m.now.history }
    ensures { result ≡ outcome (enrol_rows m.now (sent_by c.now o.now) (rest_enrolment body wish.now c.now.proven)) }
{
    let key = key_rows(m.history, body, wish, c.proven).and(proof_rows(c.proven));
    let wished = wish_rows(o, body, wish, c.proven).and(key);
    new_rows(m.history, c).and(wished)
}

fn enrol(
    alloc: Global,
    m: &Moment<'_>,
    c: &Checked<'_>,
    o: &Owner,
    body: Body4,
    wish: &Wish,
) -> Result<Ruling, AllocError>
    requires timely { AreTimely m.now.history }
    requires room { length m.now.history ≤ 262144 }
    ensures { IfOk result (λ r. r ≡ ruling_of (enrols m.now (sent_by c.now o.now) (rest_enrolment body wish.now c.now.proven))) }
{
    match enrol_rows(m, c, o, body, wish) {
        Ok(()) => enrolled(alloc, m, c, o, body, wish),
        Err(fail) => Ok(refused(c, fail)),
    }
}

// What a certConf asks of its transaction and of the certificate.
fn confirmed_rows(m: &Moment<'_>, c: &Checked<'_>, o: &Owner) -> Result<(), FailInfo>
    requires { AreTimely m.now.history }
    ensures { result ≡ outcome (confirmed_rows m.now (sent_by c.now o.now)) }
{
    let party = party_rows(m.history, c, &o.who).and(confirm_rows(m.history, c, m.time));
    old_rows(m.history, c).and(party)
}

// The certHash of a certConf is held against the certificate of the Grant at this place.
fn compare_at(
    alloc: Global,
    m: &Moment<'_>,
    c: &Checked<'_>,
    o: &Owner,
    accepted: bool,
    place: u64,
) -> Result<Ruling, AllocError>
    requires { length m.now.history ≤ 262144 }
    ensures { IfOk result (λ r. r ≡ ruling_of (compared (sent_by c.now o.now).to place c.now.hash_ok (made m.now (sent_by c.now o.now) (Change.Settled (stamp_by m.now (sent_by c.now o.now)) accepted)))) }
{
    match c.hash_ok {
        Some(true) => settled(alloc, m, c, o, accepted),
        Some(false) => Ok(refused(c, FailInfo::BadCertId)),
        None => Ok(Ruling::Asks { place }),
    }
}

// The place of the Grant of the message's transaction.
fn granted_at(m: &Moment<'_>, c: &Checked<'_>) -> Option<u64>
    requires { length m.now.history ≤ 262144 }
    ensures { result ≡ place_of (is_grant_for c.now.ask.tid) m.now.history }
{
    place_of_grant(m.history, c.ask.tid.as_slice())
}

// The certHash of a certConf is held against the certificate of its transaction.
fn compare(
    alloc: Global,
    m: &Moment<'_>,
    c: &Checked<'_>,
    o: &Owner,
    accepted: bool,
) -> Result<Ruling, AllocError>
    requires { length m.now.history ≤ 262144 }
    ensures { IfOk result (λ r. r ≡ ruling_of (compared_with (sent_by c.now o.now).to (λ g. c.now.hash_ok) (grant_receipt m.now.history c.now.ask.tid) (made m.now (sent_by c.now o.now) (Change.Settled (stamp_by m.now (sent_by c.now o.now)) accepted)))) }
{
    match granted_at(m, c) {
        Some(place) => compare_at(alloc, m, c, o, accepted, place),
        None => Ok(refused(c, FailInfo::BadCertId)),
    }
}

// A certConf with a status.
fn settle_one(
    alloc: Global,
    m: &Moment<'_>,
    c: &Checked<'_>,
    o: &Owner,
    s: Statuses,
) -> Result<Ruling, AllocError>
    requires { length m.now.history ≤ 262144 }
    ensures { IfOk result (λ r. r ≡ ruling_of (unless (sent_by c.now o.now).to (status_rows (deal_now m.now (sent_by c.now o.now)) (rest_confirmation c.now s)) (compared_with (sent_by c.now o.now).to (λ g. c.now.hash_ok) (grant_receipt m.now.history c.now.ask.tid) (made m.now (sent_by c.now o.now) (Change.Settled (stamp_by m.now (sent_by c.now o.now)) (nat_lt s.status 2)))))) }
{
    match status_rows(m.history, c, s) {
        Ok(()) => compare(alloc, m, c, o, s.status < 2),
        Err(fail) => Ok(refused(c, fail)),
    }
}

// No status rejects the certificate.
fn settle(
    alloc: Global,
    m: &Moment<'_>,
    c: &Checked<'_>,
    o: &Owner,
    s: Statuses,
) -> Result<Ruling, AllocError>
    requires { length m.now.history ≤ 262144 }
    ensures { IfOk result (λ r. r ≡ ruling_of (settles m.now (sent_by c.now o.now) (rest_confirmation c.now s))) }
{
    if s.count == 0 {
        settled(alloc, m, c, o, false)
    } else {
        settle_one(alloc, m, c, o, s)
    }
}

fn confirm(
    alloc: Global,
    m: &Moment<'_>,
    c: &Checked<'_>,
    o: &Owner,
    s: Statuses,
) -> Result<Ruling, AllocError>
    requires timely { AreTimely m.now.history }
    requires room { length m.now.history ≤ 262144 }
    ensures { IfOk result (λ r. r ≡ ruling_of (confirms m.now (sent_by c.now o.now) (rest_confirmation c.now s))) }
{
    match confirmed_rows(m, c, o) {
        Ok(()) => settle(alloc, m, c, o, s),
        Err(fail) => Ok(refused(c, fail)),
    }
}

// What a pollReq asks of its transaction.
fn polled_rows(m: &Moment<'_>, c: &Checked<'_>, o: &Owner, ids_ok: bool) -> Result<(), FailInfo>
    requires { AreTimely m.now.history }
    ensures { result ≡ outcome (polled_rows m.now (sent_by c.now o.now) (rest_polling c.now ids_ok)) }
{
    let waiting = poll_rows(m.history, c).and(entry_rows(m.history, c, ids_ok));
    let party = party_rows(m.history, c, &o.who).and(waiting);
    old_rows(m.history, c).and(party)
}

fn poll(
    alloc: Global,
    m: &Moment<'_>,
    c: &Checked<'_>,
    o: &Owner,
    ids_ok: bool,
) -> Result<Ruling, AllocError>
    requires timely { AreTimely m.now.history }
    requires room { length m.now.history ≤ 262144 }
    ensures { IfOk result (λ r. r ≡ ruling_of (polls m.now (sent_by c.now o.now) (rest_polling c.now ids_ok))) }
{
    match polled_rows(m, c, o, ids_ok) {
        Ok(()) => polled(alloc, m, c, o),
        Err(fail) => Ok(refused(c, fail)),
    }
}

// What an rr asks of its transaction and of the certificate.
fn withdraw_rows(
    m: &Moment<'_>,
    c: &Checked<'_>,
    o: &Owner,
    serial: Option<u64>,
    reason: u8,
) -> Result<(), FailInfo>
    requires { AreTimely m.now.history }
    ensures { result ≡ outcome (withdraw_rows m.now (sent_by c.now o.now) (rest_withdrawal (name_of m.now.history) serial reason)) }
{
    let named = reason_rows(serial, reason).and(revoke_rows(m.history, o, serial));
    new_rows(m.history, c).and(named)
}

fn withdraw(
    alloc: Global,
    m: &Moment<'_>,
    c: &Checked<'_>,
    o: &Owner,
    serial: Option<u64>,
    reason: u8,
) -> Result<Ruling, AllocError>
    requires timely { AreTimely m.now.history }
    requires room { length m.now.history ≤ 262144 }
    ensures { IfOk result (λ r. r ≡ ruling_of (withdraws m.now (sent_by c.now o.now) (rest_withdrawal (name_of m.now.history) serial reason))) }
{
    match withdraw_rows(m, c, o, serial, reason) {
        Ok(()) => revoked(alloc, m, c, o, serial.unwrap_or(0), reason),
        Err(fail) => Ok(refused(c, fail)),
    }
}

// What the message is about, whose sender is known.
fn about(alloc: Global, m: &Moment<'_>, c: &Checked<'_>, o: &Owner) -> Result<Ruling, AllocError>
    requires timely { AreTimely m.now.history }
    requires room { length m.now.history ≤ 262144 }
    ensures { IfOk result (λ r. r ≡ ruling_of (about m.now (sent_by c.now o.now) (rest_body (name_of m.now.history) c.now c.now.job))) }
{
    match &c.job {
        Job::Repeat => Ok(refused(c, FailInfo::BadRequest)),
        Job::Enrol(body, wish) => enrol(alloc, m, c, o, *body, wish),
        Job::Confirm {
            id_ok,
            hash_alg_ok,
            count,
            status,
            ..
        } => {
            let statuses = Statuses {
                count: *count,
                id_ok: *id_ok,
                status: *status,
                hash_alg_ok: *hash_alg_ok,
            };
            confirm(alloc, m, c, o, statuses)
        }
        Job::Poll { ids_ok } => poll(alloc, m, c, o, *ids_ok),
        Job::Withdraw { serial, reason } => withdraw(alloc, m, c, o, *serial, *reason),
    }
}

// The time of the message, whose sender is known.
fn timely(alloc: Global, m: &Moment<'_>, c: &Checked<'_>, o: &Owner) -> Result<Ruling, AllocError>
    requires timely { AreTimely m.now.history }
    requires room { length m.now.history ≤ 262144 }
    ensures { IfOk result (λ r. r ≡ ruling_of (unless (sent_by c.now o.now).to (time_rows (rest_facts (name_of m.now.history) c.now) (skew_of m.now.history) m.now.time) (about m.now (sent_by c.now o.now) (rest_body (name_of m.now.history) c.now c.now.job)))) }
{
    match time_rows(m.history, m.time, c.message_time) {
        Ok(()) => about(alloc, m, c, o),
        Err(fail) => Ok(refused(c, fail)),
    }
}

// The sender of the message.
fn trusted(alloc: Global, m: &Moment<'_>, c: &Checked<'_>) -> Result<Ruling, AllocError>
    requires timely { AreTimely m.now.history }
    requires room { length m.now.history ≤ 262144 }
    ensures { IfOk result (λ r. r ≡ ruling_of (trusted m.now.history m.now.time false (rest_facts (name_of m.now.history) c.now) (λ o. about m.now (sent_by c.now o) (rest_body (name_of m.now.history) c.now c.now.job)))) }
{
    match sender(m.history, c.ask.kind, &c.ask.kid, m.time) {
        Ok(o) => timely(alloc, m, c, &o),
        Err(fail) => Ok(refused_bare(fail, false)),
    }
}

fn served(alloc: Global, m: &Moment<'_>, c: &Checked<'_>) -> Result<Ruling, AllocError>
    requires timely { AreTimely m.now.history }
    requires room { length m.now.history ≤ 262144 }
    ensures { IfOk result (λ r. r ≡ ruling_of (unless (bare false) (served_rows (rest_facts (name_of m.now.history) c.now)) (trusted m.now.history m.now.time false (rest_facts (name_of m.now.history) c.now) (λ o. about m.now (sent_by c.now o) (rest_body (name_of m.now.history) c.now c.now.job))))) }
{
    match served_rows(c) {
        Ok(()) => trusted(alloc, m, c),
        Err(fail) => Ok(refused_bare(fail, false)),
    }
}

// A message that stands in the history gets its reply again.
fn passed(alloc: Global, m: &Moment<'_>, c: &Checked<'_>) -> Result<Ruling, AllocError>
    requires timely { AreTimely m.now.history }
    requires room { length m.now.history ≤ 262144 }
    ensures { IfOk result (λ r. r ≡ ruling_of (passed m.now (rest_facts (name_of m.now.history) c.now))) }
{
    match place_of_digest(m.history, &c.ask.digest) {
        Some(place) => Ok(Ruling::Repeats { place }),
        None => served(alloc, m, c),
    }
}

// The message that is about something.
fn subject(alloc: Global, m: &Moment<'_>, c: &Checked<'_>) -> Result<Ruling, AllocError>
    requires timely { AreTimely m.now.history }
    requires room { length m.now.history ≤ 262144 }
    ensures { IfOk result (λ r. r ≡ ruling_of (subject m.now c.now)) }
{
    match header_rows(c) {
        Ok(()) => passed(alloc, m, c),
        Err(fail) => Ok(refused_bare(fail, false)),
    }
}

// The message inside a nested one, whose sender may wrap it.
fn unwrapped(
    alloc: Global,
    m: &Moment<'_>,
    c: &Checked<'_>,
    kind: Kind,
    o: &Owner,
) -> Result<Ruling, AllocError>
    requires timely { AreTimely m.now.history }
    requires room { length m.now.history ≤ 262144 }
    ensures { (kid : List ℕ) → IfOk result (λ r. r ≡ ruling_of (unless (guarded true (rest_outer c.now (kind, kid)) o.now) (wrap_rows (rest_outer c.now (kind, kid)) o.now) (subject m.now c.now))) }
{
    match wrap_rows(c, o) {
        Ok(()) => subject(alloc, m, c),
        Err(fail) => Ok(refused_outer(kind, fail)),
    }
}

// The time of a nested message, whose sender is known.
fn wrapped_timely(
    alloc: Global,
    m: &Moment<'_>,
    c: &Checked<'_>,
    kind: Kind,
    o: &Owner,
) -> Result<Ruling, AllocError>
    requires timely { AreTimely m.now.history }
    requires room { length m.now.history ≤ 262144 }
    ensures { (kid : List ℕ) → IfOk result (λ r. r ≡ ruling_of (unless (guarded true (rest_outer c.now (kind, kid)) o.now) (time_rows (rest_outer c.now (kind, kid)) (skew_of m.now.history) m.now.time) (unless (guarded true (rest_outer c.now (kind, kid)) o.now) (wrap_rows (rest_outer c.now (kind, kid)) o.now) (subject m.now c.now)))) }
{
    match time_rows(m.history, m.time, c.outer_time) {
        Ok(()) => unwrapped(alloc, m, c, kind, o),
        Err(fail) => Ok(refused_outer(kind, fail)),
    }
}

// The sender of a nested message.
fn wrapped(
    alloc: Global,
    m: &Moment<'_>,
    c: &Checked<'_>,
    kind: Kind,
    kid: &Short,
) -> Result<Ruling, AllocError>
    requires timely { AreTimely m.now.history }
    requires room { length m.now.history ≤ 262144 }
    ensures { IfOk result (λ r. r ≡ ruling_of (trusted m.now.history m.now.time true (rest_outer c.now (kind, kid.now)) (λ o. unless (guarded true (rest_outer c.now (kind, kid.now)) o) (wrap_rows (rest_outer c.now (kind, kid.now)) o) (subject m.now c.now)))) }
{
    match sender(m.history, Some(kind), kid, m.time) {
        Ok(o) => wrapped_timely(alloc, m, c, kind, &o),
        Err(fail) => Ok(refused_bare(fail, true)),
    }
}

/// How what is left of a message is decided, over a history none of whose times is later than any clock may say, by the clock's
/// reading in seconds since 1970 and the words drawn for a reply. Memory is taken only for the change that is made: for the
/// sender of its message, and for what was wished for.
pub fn ruling_on(
    alloc: Global,
    history: &[Change],
    checked: &Checked<'_>,
    now: u64,
    words: &[u8; 32],
) -> Result<Ruling, AllocError>
    requires timely { AreTimely history.now }
    requires room { length history.now ≤ 262144 }
    ensures { IfOk result (λ r. r ≡ ruling_of (left history.now checked.now now words.now)) }
{
    let moment = Moment {
        history,
        time: event_time(history, now),
        words,
    };
    match &checked.ask.outer {
        Some((kind, kid)) => wrapped(alloc, &moment, checked, *kind, kid),
        None => subject(alloc, &moment, checked),
    }
}
