//! What is left of a message that is about something.
ghost use Rattle.std.specs.Prelude.{◌≡◌, ℕ, List, Bool, ◌↔◌, IfOk, IfErr, IsTrue, false};
ghost use Rattle.std.specs.Option.{option_copied};
ghost use Rattle.deal_changes.specs.Spelling.{IsWish};
ghost use Rattle.deal_table.specs.Carry.{FitsJob, id_by};
ghost use Rattle.deal_table.specs.History.{Receipted};
ghost use Rattle.deal_table.specs.Message.{Enrols, Confirms, Polls, Withdraws};
ghost use Rattle.pki_message.specs.Message.{message_of};
ghost use Rattle.pki_message.specs.Body.{body_of};
ghost use Rattle.intake.specs.Checking.{IsTask, IsRefused, IsDigestIn, name_for};
ghost use Rattle.intake.specs.Fit.{is_minus_one};
ghost use Rattle.intake.specs.Holds.{IsProven};
ghost use Rattle.intake.specs.Told.{id_told, about_told, enrolling_told, confirming_told, polling_told, withdrawing_told, FitsAsked, FitsAbout};

use crate::bodies::{About, Confirming, Enrolling, Polling, ReqId, Withdrawing};
use crate::possession::shows_possession;
use crate::rows::{new_fault, old_fault, reason_fault, wish_fault};
use crate::sender::Sender;
use crate::unfit::Unfit;
use crate::wish::wish;
use asn_types::write_cn;
use cmp_values::{FailInfo, Octets};
use deal_model::Job;
use deal_table::Look;
use pki_message::Message;
use std::alloc::{AllocError, Global};

/// What is left of a message: what it is about; whether its sender showed that it has the private key; whether its certReqId is -1;
/// and whether its certHash is that of the certificate, where that is settled.
#[derive(Debug, Drop)]
pub(crate) struct Task {
    pub job: Job,
    pub proven: bool,
    pub minus_one: bool,
    pub hash_ok: Option<bool>,
}

/// A refusal of a message whose sender is known.
fn refusal(fail: FailInfo, sender: &Sender) -> Unfit
    ensures { result ≡ Unfit.Refused fail sender.now.guarded false }
{
    Unfit::Refused {
        fail,
        guarded: sender.guarded,
        to_outer: false,
    }
}

/// The authority's name.
#[tactic(auto, using(asn_types::proofs::LengthLemmas::short))]
fn authority(alloc: Global, look: &Look) -> Result<Octets, AllocError>
    ensures { IfOk result (λ name. name ≡ name_for look.now) }
{
    write_cn(alloc, look.settings.name.as_slice())
}

/// What is left of a request for a certificate.
fn enrolment(
    alloc: Global,
    m: &Message,
    e: &Enrolling,
    sender: &Sender,
    look: &Look,
) -> Result<Task, Unfit>
    requires { FitsAsked e.now.asked }
    ensures ok { IfOk result (λ t. (hashes : Receipted → List ℕ) (proven : Bool) → (IsTrue proven ↔ IsProven (body_of m.now.body)) → IsTask look.now (name_for look.now) sender.now.owner hashes (Enrols (enrolling_told proven e.now)) t) }
    ensures fits { IfOk result (λ t. FitsJob t.job) }
    ensures err { IfErr result (λ u. (hashes : Receipted → List ℕ) (proven : Bool) → IsRefused look.now (name_for look.now) sender.now.guarded sender.now.owner (Enrols (enrolling_told proven e.now)) u) }
{
    if let Some(fail) = new_fault(look.tid_state) {
        return Err(refusal(fail, sender));
    }
    let Ok(name) = authority(alloc, look) else {
        return Err(Unfit::NoMemory);
    };
    if let Some(fail) = wish_fault(name.as_slice(), &sender.owner, e) {
        return Err(refusal(fail, sender));
    }
    let Ok(wish) = wish(alloc, &e.asked) else {
        return Err(Unfit::NoMemory);
    };
    Ok(Task {
        job: Job::Enrol(e.body, wish),
        proven: shows_possession(&sender.owner, e, m),
        minus_one: false,
        hash_ok: None,
    })
}

/// Whether a certReqId is 0 or -1, and whether it is -1.
fn id_flags(id: ReqId) -> (bool, bool)
    ensures id { id_by result.0 result.1 ≡ id_told id }
    ensures minus_one { result.1 ≡ is_minus_one (id_told id) }
{
    match id {
        ReqId::Zero => (true, false),
        ReqId::MinusOne => (true, true),
        ReqId::Other => (false, false),
    }
}

/// A certHash of 32 octets.
fn digest_in(hash: Option<&[u8]>) -> Option<[u8; 32]>
    ensures { IsDigestIn (option_copied hash.entry) result }
{
    let octets = hash?;
    if octets.len() != 32 {
        return None;
    }
    let mut digest = [0u8; 32];
    digest.copy_from_slice(octets);
    Some(digest)
}

/// What is left of a certConf.
fn confirmation(c: &Confirming, sender: &Sender, look: &Look) -> Result<Task, Unfit>
    ensures ok { IfOk result (λ t. (hashes : Receipted → List ℕ) → IsTask look.now (name_for look.now) sender.now.owner hashes (Confirms (confirming_told hashes c.now)) t) }
    ensures fits { IfOk result (λ t. FitsJob t.job) }
    ensures err { IfErr result (λ u. (hashes : Receipted → List ℕ) → IsRefused look.now (name_for look.now) sender.now.guarded sender.now.owner (Confirms (confirming_told hashes c.now)) u) }
{
    if let Some(fail) = old_fault(look.tid_state) {
        return Err(refusal(fail, sender));
    }
    let (id_ok, minus_one) = id_flags(c.id);
    let (hash, hash_ok) = match digest_in(c.hash) {
        Some(digest) => (digest, None),
        None => ([0; 32], Some(false)),
    };
    Ok(Task {
        job: Job::Confirm {
            id_ok,
            hash,
            hash_alg_ok: c.has_known_hash,
            count: c.count,
            status: c.status,
        },
        proven: false,
        minus_one,
        hash_ok,
    })
}

/// What is left of a pollReq.
fn poll(p: &Polling, sender: &Sender, look: &Look) -> Result<Task, Unfit>
    ensures ok { IfOk result (λ t. (hashes : Receipted → List ℕ) → IsTask look.now (name_for look.now) sender.now.owner hashes (Polls (polling_told p.now)) t) }
    ensures fits { IfOk result (λ t. FitsJob t.job) }
    ensures err { IfErr result (λ u. IsRefused look.now (name_for look.now) sender.now.guarded sender.now.owner (Polls (polling_told p.now)) u) }
{
    if let Some(fail) = old_fault(look.tid_state) {
        return Err(refusal(fail, sender));
    }
    let (id_ok, minus_one) = id_flags(p.id);
    Ok(Task {
        job: Job::Poll {
            ids_ok: p.is_one && id_ok,
        },
        proven: false,
        minus_one,
        hash_ok: None,
    })
}

/// What is left of an rr.
fn withdrawal(alloc: Global, w: &Withdrawing, sender: &Sender, look: &Look) -> Result<Task, Unfit>
    ensures ok { IfOk result (λ t. (hashes : Receipted → List ℕ) → IsTask look.now (name_for look.now) sender.now.owner hashes (Withdraws (withdrawing_told w.now)) t) }
    ensures fits { IfOk result (λ t. FitsJob t.job) }
    ensures err { IfErr result (λ u. IsRefused look.now (name_for look.now) sender.now.guarded sender.now.owner (Withdraws (withdrawing_told w.now)) u) }
{
    if let Some(fail) = new_fault(look.tid_state) {
        return Err(refusal(fail, sender));
    }
    let Ok(name) = authority(alloc, look) else {
        return Err(Unfit::NoMemory);
    };
    if let Some(fail) = reason_fault(name.as_slice(), w) {
        return Err(refusal(fail, sender));
    }
    Ok(Task {
        job: Job::Withdraw {
            serial: w.certificate.serial,
            reason: w.reason.unwrap_or(0),
        },
        proven: false,
        minus_one: false,
        hash_ok: None,
    })
}

/// What is left of what a message is about.
pub(crate) fn task_of(
    alloc: Global,
    m: &Message,
    about: &About,
    sender: &Sender,
    look: &Look,
) -> Result<Task, Unfit>
    requires { FitsAbout about.now }
    ensures ok { IfOk result (λ t. (hashes : Receipted → List ℕ) (proven : Bool) → (IsTrue proven ↔ IsProven (body_of m.now.body)) → IsTask look.now (name_for look.now) sender.now.owner hashes (about_told hashes proven about.now) t) }
    ensures fits { IfOk result (λ t. FitsJob t.job) }
    ensures err { IfErr result (λ u. (hashes : Receipted → List ℕ) (proven : Bool) → IsRefused look.now (name_for look.now) sender.now.guarded sender.now.owner (about_told hashes proven about.now) u) }
{
    match about {
        About::Enrols(e) => enrolment(alloc, m, e, sender, look),
        About::Confirms(c) => confirmation(c, sender, look),
        About::Polls(p) => poll(p, sender, look),
        About::Withdraws(w) => withdrawal(alloc, w, sender, look),
        About::Nests(_) | About::Other => Err(refusal(FailInfo::BadRequest, sender)),
    }
}
