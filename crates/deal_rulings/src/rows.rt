//! The rows of the table, a function for each group: the reason of the first row that applies, or that none does.
ghost use Rattle.deal_changes.specs.declared.change.Kind.{Kind};
ghost use Rattle.std.specs.Prelude.{◌≡◌, ◌++◌, List, ℕ, Option, option_copied, option_and_then, unwrap_or};
ghost use Rattle.deal_model.specs.Views.{AreTimely, transaction_state, certificate_state, is_told};
ghost use Rattle.deal_table.specs.History.{deal_in, deal_of, name_of};
ghost use Rattle.deal_table.specs.Table.{is_unused, is_deal, is_kur, is_lost, is_open, is_revoked, can_poll, may_withdraw, served_rows, header_rows, new_rows, old_rows, party_rows, wish_rows, key_rows, proof_rows, confirm_rows, status_rows, poll_rows, entry_rows, reason_rows, revoke_rows, wrap_rows, granted_serial, deal_certificate};
ghost use Rattle.deal_table.specs.Carry.{header_by, rest_facts, rest_enrolment, rest_withdrawal, rest_outer, id_by};
ghost use Rattle.deal_rulings.specs.Rulings.{outcome, rest_confirmation, rest_polling};

use crate::requests::{is_bad_id, is_of, request_for, same_nonce};
use crate::senders::is_certificate;
use cmp_values::FailInfo;
use deal_answers::{
    certificate_state, grant_for, grant_of, is_confirmed, is_key_taken, is_told, key_id, key_of,
    last_nonce, transaction_state,
};
use deal_model::{
    Body4, CertificateState, Change, Checked, DealState, ENROL, Job, Owner, REVOKE, WRAP, Who, Wish,
};
use deal_rules::{is_owner, same_who};
use deal_table::{is_deal, is_unused, may};

/// What a certConf says of its statuses (RFC 9810, 5.3.18).
#[derive(Clone, Copy)]
pub(crate) struct Statuses {
    /// How many there are, 2 for more.
    pub(crate) count: u8,
    /// Whether the certReqId of the first one is 0 or -1.
    pub(crate) id_ok: bool,
    /// Its status: 0 where it is absent, 0 to 2, or 3 for any other.
    pub(crate) status: u8,
    /// Whether hashAlg is absent or SHA-256.
    pub(crate) hash_alg_ok: bool,
}

/// The version and the senderNonce of the header.
pub(crate) fn header_rows(c: &Checked<'_>) -> Result<(), FailInfo>
    ensures { result ≡ outcome (header_rows (header_by c.now)) }
{
    if c.echo.pvno != 2 && c.echo.pvno != 3 {
        Err(FailInfo::UnsupportedVersion)
    } else if c.echo.nonce.is_none() {
        Err(FailInfo::BadSenderNonce)
    } else {
        Ok(())
    }
}

/// The message is about something.
pub(crate) fn served_rows(c: &Checked<'_>) -> Result<(), FailInfo>
    ensures { (name : List ℕ) → result ≡ outcome (served_rows (rest_facts name c.now)) }
{
    match &c.job {
        Job::Repeat => Err(FailInfo::BadRequest),
        Job::Enrol(..) => Ok(()),
        Job::Confirm { .. } => Ok(()),
        Job::Poll { .. } => Ok(()),
        Job::Withdraw { .. } => Ok(()),
    }
}

/// The sender of the nested message may wrap others.
pub(crate) fn wrap_rows(c: &Checked<'_>, o: &Owner) -> Result<(), FailInfo>
    ensures { (outer : Kind × List ℕ) → result ≡ outcome (wrap_rows (rest_outer c.now outer) o.now) }
{
    if may(WRAP, o) {
        Ok(())
    } else {
        Err(FailInfo::NotAuthorized)
    }
}

/// A request or a revocation begins a transaction.
pub(crate) fn new_rows(h: &[Change], c: &Checked<'_>) -> Result<(), FailInfo>
    requires { AreTimely h.now }
    ensures { result ≡ outcome (new_rows (transaction_state h.now c.now.ask.tid)) }
{
    if is_unused(transaction_state(h, c.ask.tid.as_slice())) {
        Ok(())
    } else {
        Err(FailInfo::TransactionIdInUse)
    }
}

/// A certConf or a pollReq goes on with a transaction that a request began.
pub(crate) fn old_rows(h: &[Change], c: &Checked<'_>) -> Result<(), FailInfo>
    requires { AreTimely h.now }
    ensures { result ≡ outcome (old_rows (transaction_state h.now c.now.ask.tid)) }
{
    if is_deal(transaction_state(h, c.ask.tid.as_slice())) {
        Ok(())
    } else {
        Err(FailInfo::BadRequest)
    }
}

/// By the sender who began the transaction, in answer to its last reply.
pub(crate) fn party_rows(h: &[Change], c: &Checked<'_>, who: &Who) -> Result<(), FailInfo>
    ensures { result ≡ outcome (party_rows h.now (header_by c.now) who.now) }
{
    let tid = c.ask.tid.as_slice();
    if !is_of(request_for(h, tid), who) {
        Err(FailInfo::NotAuthorized)
    } else if !same_nonce(&c.recip_nonce, &last_nonce(h, tid)) {
        Err(FailInfo::BadRecipientNonce)
    } else {
        Ok(())
    }
}

fn is_kur(body: Body4) -> bool
    ensures { result ≡ is_kur body }
{
    match body {
        Body4::Kur => true,
        Body4::Ir => false,
        Body4::Cr => false,
        Body4::P10cr => false,
    }
}

/// The sender may enrol, and a kur is the holder's of a certificate.
pub(crate) fn wish_rows(o: &Owner, body: Body4, wish: &Wish, proven: bool) -> Result<(), FailInfo>
    ensures { (name : List ℕ) → result ≡ outcome (wish_rows name o.now (rest_enrolment body wish.now proven)) }
{
    if !may(ENROL, o) || (is_kur(body) && !is_certificate(&o.who)) {
        Err(FailInfo::NotAuthorized)
    } else {
        Ok(())
    }
}

/// The key stands nowhere.
pub(crate) fn key_rows(h: &[Change], body: Body4, wish: &Wish, proven: bool) -> Result<(), FailInfo>
    ensures { result ≡ outcome (key_rows h.now (rest_enrolment body wish.now proven)) }
{
    if is_key_taken(h, &key_id(key_of(wish.spki.as_slice()))) {
        Err(FailInfo::DuplicateCertReq)
    } else {
        Ok(())
    }
}

/// The sender showed that it has the private key.
pub(crate) fn proof_rows(possessed: bool) -> Result<(), FailInfo>
    ensures { result ≡ outcome (proof_rows possessed) }
{
    if possessed {
        Ok(())
    } else {
        Err(FailInfo::BadPop)
    }
}

fn granted_serial(grant: Option<&Change>) -> Option<u64>
    ensures { result ≡ option_and_then granted_serial (option_copied grant.entry) }
{
    match grant {
        Some(Change::Grant { serial, .. }) => Some(*serial),
        _ => None,
    }
}

/// How the certificate of a transaction stands; none where it has none yet.
fn deal_certificate(h: &[Change], tid: &[u8]) -> Option<CertificateState>
    requires { AreTimely h.now }
    ensures { result ≡ deal_certificate h.now tid.now }
{
    match granted_serial(grant_for(h, tid)) {
        Some(serial) => certificate_state(h, serial),
        None => None,
    }
}

fn is_lost(t: u64, state: Option<CertificateState>) -> bool
    ensures { result ≡ is_lost t state }
{
    match state {
        Some(CertificateState::Open { deadline }) => deadline <= t,
        Some(CertificateState::Confirmed) => false,
        Some(CertificateState::Revoked { .. }) => true,
        None => false,
    }
}

/// The certificate waits for its confirmation, and its deadline isn't reached.
pub(crate) fn confirm_rows(h: &[Change], c: &Checked<'_>, t: u64) -> Result<(), FailInfo>
    requires { AreTimely h.now }
    ensures { result ≡ outcome (confirm_rows (deal_certificate h.now c.now.ask.tid) t) }
{
    let state = deal_certificate(h, c.ask.tid.as_slice());
    if is_confirmed(state) {
        Err(FailInfo::CertConfirmed)
    } else if is_lost(t, state) {
        Err(FailInfo::CertRevoked)
    } else if state.is_none() {
        Err(FailInfo::BadRequest)
    } else {
        Ok(())
    }
}

/// A certConf has at most one status, of the transaction's request, by an algorithm that is served.
pub(crate) fn status_rows(h: &[Change], c: &Checked<'_>, s: Statuses) -> Result<(), FailInfo>
    ensures { result ≡ outcome (status_rows (deal_of h.now c.now.ask.tid) (rest_confirmation c.now s)) }
{
    let request = request_for(h, c.ask.tid.as_slice());
    if 1 < s.count || is_bad_id(request, s.id_ok, c.minus_one) || 2 < s.status {
        Err(FailInfo::BadRequest)
    } else if !s.hash_alg_ok {
        Err(FailInfo::BadAlg)
    } else {
        Ok(())
    }
}

fn can_poll(state: DealState, told: bool) -> bool
    ensures { result ≡ can_poll state told }
{
    match state {
        DealState::Held => true,
        DealState::Released => true,
        DealState::Denied => !told,
        _ => false,
    }
}

/// The request waits for an order, was released, or was denied and its requester not told so yet.
pub(crate) fn poll_rows(h: &[Change], c: &Checked<'_>) -> Result<(), FailInfo>
    requires { AreTimely h.now }
    ensures { result ≡ outcome (poll_rows (transaction_state h.now c.now.ask.tid) (is_told h.now c.now.ask.tid)) }
{
    let tid = c.ask.tid.as_slice();
    if can_poll(transaction_state(h, tid), is_told(h, tid)) {
        Ok(())
    } else {
        Err(FailInfo::BadRequest)
    }
}

/// A pollReq has one entry, of the transaction's request.
pub(crate) fn entry_rows(h: &[Change], c: &Checked<'_>, ids_ok: bool) -> Result<(), FailInfo>
    ensures { result ≡ outcome (entry_rows (deal_of h.now c.now.ask.tid) (rest_polling c.now ids_ok)) }
{
    let request = request_for(h, c.ask.tid.as_slice());
    if !ids_ok || is_bad_id(request, true, c.minus_one) {
        Err(FailInfo::BadRequest)
    } else {
        Ok(())
    }
}

/// The rr names a certificate of this authority.
pub(crate) fn reason_rows(serial: Option<u64>, reason: u8) -> Result<(), FailInfo>
    ensures { (name : List ℕ) → result ≡ outcome (reason_rows name (rest_withdrawal name serial reason)) }
{
    if serial.is_none() {
        Err(FailInfo::BadCertId)
    } else {
        Ok(())
    }
}

fn is_open(state: Option<CertificateState>) -> bool
    ensures { result ≡ is_open state }
{
    match state {
        Some(CertificateState::Open { .. }) => true,
        Some(CertificateState::Confirmed) => false,
        Some(CertificateState::Revoked { .. }) => false,
        None => false,
    }
}

fn is_revoked(state: Option<CertificateState>) -> bool
    ensures { result ≡ is_revoked state }
{
    match state {
        Some(CertificateState::Open { .. }) => false,
        Some(CertificateState::Confirmed) => false,
        Some(CertificateState::Revoked { .. }) => true,
        None => false,
    }
}

fn may_withdraw(h: &[Change], o: &Owner, serial: u64) -> bool
    ensures { result ≡ may_withdraw h.now o.now serial }
{
    is_owner(h, &o.who, serial) || same_who(&o.who, &Who::Cert(serial)) || may(REVOKE, o)
}

/// The certificate was granted, the sender may revoke it, and it is in force.
pub(crate) fn revoke_rows(h: &[Change], o: &Owner, serial: Option<u64>) -> Result<(), FailInfo>
    requires { AreTimely h.now }
    ensures { result ≡ outcome (revoke_rows h.now o.now (unwrap_or serial 0)) }
{
    let serial = serial.unwrap_or(0);
    let state = certificate_state(h, serial);
    if grant_of(h, serial).is_none() {
        Err(FailInfo::BadCertId)
    } else if !may_withdraw(h, o, serial) {
        Err(FailInfo::NotAuthorized)
    } else if is_open(state) {
        Err(FailInfo::BadRequest)
    } else if is_revoked(state) {
        Err(FailInfo::CertRevoked)
    } else {
        Ok(())
    }
}
