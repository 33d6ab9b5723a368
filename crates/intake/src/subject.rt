//! A message that is about something, checked by a look.
ghost use Rattle.std.specs.Prelude.{◌≡◌, ℕ, List, [], Bool, false, None, IfOk, IfErr};
ghost use Rattle.deal_table.specs.Carry.{FitsJob};
ghost use Rattle.deal_table.specs.Message.{Facts};
ghost use Rattle.deal_table.specs.Table.{Decision, is_served};
ghost use Rattle.deal_table.specs.Looked.{looked_passed};
ghost use Rattle.deal_table.specs.History.{Receipted};
ghost use Rattle.pki_message.specs.Body.{body_of};
ghost use Rattle.pki_message.specs.Message.{message_of};
ghost use Rattle.intake.specs.Checking.{ForFacts, IsOfOctets, IsBack, IsSubject, name_for};
ghost use Rattle.intake.specs.Bodies.{body_facts};

use crate::about::about;
use crate::job::{Task, task_of};
use crate::sender::trusted;
use crate::unfit::Unfit;
use cmp_values::{FailInfo, Short};
use deal_changes::Who;
use deal_model::{Job, Key60};
use deal_table::Look;
use pki_message::{Body, Message};
use std::alloc::Global;

/// What was checked of a message: who sent it, under which secret or key, and what is left of it.
#[derive(Debug, Drop)]
pub(crate) struct Subject {
    pub who: Who,
    pub key: Key60,
    pub task: Task,
}

/// Of a message that stands in the history nothing is left.
fn repeated() -> Subject
    ensures { result ≡ record { who = Who.Cert 0; key = []; task = record { job = Job.Repeat; proven = false; minus_one = false; hash_ok = None } } }
{
    Subject {
        who: Who::Cert(0),
        key: Short::empty(),
        task: Task {
            job: Job::Repeat,
            proven: false,
            minus_one: false,
            hash_ok: None,
        },
    }
}

/// Whether a body is about something.
fn is_served(body: &Body) -> bool
    ensures { (hashes : Receipted → List ℕ) (implicit proven : Bool) → is_served (body_facts hashes implicit proven (body_of body.now)) ≡ result }
{
    match body {
        Body::Ir(_) | Body::Cr(_) | Body::Kur(_) | Body::P10cr(_) => true,
        Body::CertConf(_) | Body::PollReq(_) | Body::Rr(_) => true,
        _ => false,
    }
}

/// Checks a message that is about something, or tells that it stands in the history.
pub(crate) fn check_subject(alloc: Global, m: &Message, look: &Look) -> Result<Subject, Unfit>
    requires { IsOfOctets (message_of m.now) }
    ensures ok { IfOk result (λ s. ForFacts (message_of m.now) (λ hashes f. IsSubject look.now hashes f s)) }
    ensures fits { IfOk result (λ s. FitsJob s.task.job) }
    ensures err { IfErr result (λ u. ForFacts (message_of m.now) (λ hashes f. IsBack Decision (looked_passed look.now (name_for look.now) f) u)) }
{
    if look.repeat.is_some() {
        return Ok(repeated());
    }
    if !is_served(&m.body) {
        return Err(Unfit::Refused {
            fail: FailInfo::BadRequest,
            guarded: false,
            to_outer: false,
        });
    }
    let sender = match trusted(alloc, m, &look.cred, look.settings.skew, look.time, false) {
        Ok(sender) => sender,
        Err(unfit) => return Err(unfit),
    };
    let about = about(m);
    let task = match task_of(alloc, m, &about, &sender, look) {
        Ok(task) => task,
        Err(unfit) => return Err(unfit),
    };
    Ok(Subject {
        who: sender.owner.who,
        key: sender.owner.key,
        task,
    })
}
