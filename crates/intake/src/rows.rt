//! Rows of the table that ask a look and a body alone.
ghost use Rattle.std.specs.Prelude.{◌≡◌, ◌≤◌, ◌&&◌, ◌||◌, Bool, not, is_some};
ghost use Rattle.std.specs.Option.{option_copied};
ghost use Rattle.deal_table.specs.Table.{may_enrol, is_certificate, is_kur, is_other_name, is_named, is_serial_of, is_other_old, wish_rows, reason_rows, new_rows, old_rows};
ghost use Rattle.intake.specs.Made.{FirstApplies};
ghost use Rattle.intake.specs.Told.{named_told, enrolling_told, withdrawing_told};
ghost use Rattle.std.specs.Prelude.{option_map};

use crate::bodies::{CertName, Enrolling, Withdrawing};
use cmp_values::FailInfo;
use deal_changes::{Body4, Who};
use deal_model::{DealState, ENROL, Owner};
use deal_table::{is_deal, is_unused, may};

/// A request or a revocation begins a transaction.
pub(crate) fn new_fault(state: DealState) -> Option<FailInfo>
    ensures { FirstApplies (new_rows state) result }
{
    if is_unused(state) {
        None
    } else {
        Some(FailInfo::TransactionIdInUse)
    }
}

/// A certConf or a pollReq goes on with one.
pub(crate) fn old_fault(state: DealState) -> Option<FailInfo>
    ensures { FirstApplies (old_rows state) result }
{
    if is_deal(state) {
        None
    } else {
        Some(FailInfo::BadRequest)
    }
}

/// Whether an issuer stands and is another one than the authority.
fn is_other_name(name: &[u8], issuer: Option<&[u8]>) -> bool
    ensures { result ≡ is_other_name name.now (option_copied issuer.entry) }
{
    match issuer {
        Some(issuer) => issuer != name,
        None => false,
    }
}

/// Whether an issuer is the authority.
fn is_named(name: &[u8], issuer: Option<&[u8]>) -> bool
    ensures { result ≡ is_named name.now (option_copied issuer.entry) }
{
    match issuer {
        Some(issuer) => issuer == name,
        None => false,
    }
}

fn is_serial_of(who: &Who, serial: Option<u64>) -> bool
    ensures { result ≡ is_serial_of who.now serial }
{
    match (who, serial) {
        (Who::Cert(own), Some(n)) => n == *own,
        _ => false,
    }
}

/// Whether oldCertID names another certificate than the sender's.
fn is_other_old(name: &[u8], owner: &Owner, old: &Option<CertName>) -> bool
    ensures { result ≡ is_other_old name.now owner.now (option_map named_told old.now) }
{
    match old {
        Some(old) => !(is_named(name, old.issuer) && is_serial_of(&owner.who, old.serial)),
        None => false,
    }
}

/// Whether the sender may not ask for a certificate by this body.
fn is_unauthorized(owner: &Owner, body: Body4) -> bool
    ensures { result ≡ (not (may_enrol owner.now) || (is_kur body && not (is_certificate owner.now.who))) }
{
    !may(ENROL, owner) || (body == Body4::Kur && !matches!(owner.who, Who::Cert(_)))
}

/// Whether a certificate can't be given so.
fn is_bad_template(name: &[u8], e: &Enrolling) -> bool
    ensures { result ≡ (not e.now.has_subject || not (is_some e.now.asked.key) || e.now.has_bad_field || is_other_name name.now (option_copied e.now.issuer) || e.now.has_bad_extension) }
{
    !e.has_subject
        || e.asked.key.is_none()
        || e.has_bad_field
        || is_other_name(name, e.issuer)
        || e.has_bad_extension
}

/// What is wrong with a request for a certificate, by its sender and the name of the authority.
pub(crate) fn wish_fault(name: &[u8], owner: &Owner, e: &Enrolling) -> Option<FailInfo>
    ensures { (proven : Bool) → FirstApplies (wish_rows name.now owner.now (enrolling_told proven e.now)) result }
{
    if !e.is_one {
        return Some(FailInfo::BadRequest);
    }
    if is_unauthorized(owner, e.body) {
        return Some(FailInfo::NotAuthorized);
    }
    if is_bad_template(name, e) {
        return Some(FailInfo::BadCertTemplate);
    }
    if e.has_bad_alg {
        return Some(FailInfo::BadAlg);
    }
    if e.body == Body4::Kur && is_other_old(name, owner, &e.old) {
        return Some(FailInfo::BadCertId);
    }
    None
}

/// What is wrong with an rr, by the name of the authority.
pub(crate) fn reason_fault(name: &[u8], w: &Withdrawing) -> Option<FailInfo>
    ensures { FirstApplies (reason_rows name.now (withdrawing_told w.now)) result }
{
    if !w.is_one || w.reason.is_none() {
        return Some(FailInfo::BadRequest);
    }
    if !is_named(name, w.certificate.issuer) || w.certificate.serial.is_none() {
        return Some(FailInfo::BadCertId);
    }
    None
}
