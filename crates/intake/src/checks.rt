//! The check of a request.
ghost use Rattle.std.specs.Prelude.{◌≡◌, ◌==◌, ℕ, Bool, true, IsTrue, List, length, Option, Some, None, IfOk, IfErr};
ghost use Rattle.deal_table.specs.Carry.{FitsChecked};
ghost use Rattle.deal_table.specs.Table.{pass, header_rows, wrap_rows, nested_count};
ghost use Rattle.pki_message.specs.Message.{MessageForm, IsMessage, message_of};
ghost use Rattle.pki_message.specs.Body.{body_of};
ghost use Rattle.intake.specs.Bodies.{nested_inside, body_facts};
ghost use Rattle.intake.specs.Headers.{asks_implicit};
ghost use Rattle.deal_table.specs.History.{Receipted};
ghost use Rattle.intake.specs.Holds.{IsProven};
ghost use Rattle.intake.specs.Letter.{IsReading};
ghost use Rattle.intake.specs.Made.{heading_of};
ghost use Rattle.intake.specs.Fit.{AtLook, IsUnfit, IsCarried, PassesLook, IsHashTold, ComparesHash, IsExact};
ghost use Rattle.intake.specs.Checking.{ForFacts, IsOfOctets, IsTrusted, IsBackAround, IsInner, IsBadInner, checked_by, IsWhole};

use crate::about::about;
use crate::asking::{message_in, nested_in};
use crate::bodies::About;
use crate::header::{fault, recipient_nonce};
use crate::job::Task;
use crate::request::Request;
use crate::sender::{Sender, trusted};
use crate::subject::{Subject, check_subject};
use crate::unfit::Unfit;
use cmp_values::FailInfo;
use deal_model::{Checked, Echo, Key60, WRAP};
use deal_table::{Look, may, what_a_look_tells};
use pki_message::Message;
use std::alloc::Global;

/// A copy of what is repeated.
fn repeated<'a>(echo: &Echo<'a>) -> Echo<'a>
    ensures { result ≡ echo.now }
{
    Echo {
        pvno: echo.pvno,
        sender: echo.sender,
        tid: echo.tid,
        nonce: echo.nonce,
    }
}

/// What was checked, of what was asked and is repeated, the header of a message and what is left of it.
fn assembled<'a>(
    r: &Request<'a>,
    m: &Message<'a>,
    subject: Subject,
    outer_time: Option<u64>,
    outer_key: Option<Key60>,
) -> Checked<'a>
    ensures { result ≡ checked_by r.now.ask r.now.echo (heading_of (Some (message_of m.now))) subject outer_time outer_key }
{
    let Subject { who, key, task } = subject;
    let Task {
        job,
        proven,
        minus_one,
        hash_ok,
    } = task;
    Checked {
        ask: r.ask,
        who,
        key,
        message_time: m.header.time,
        job,
        echo: repeated(&r.echo),
        recip_nonce: recipient_nonce(&m.header),
        proven,
        minus_one,
        hash_ok,
        outer_time,
        outer_key,
    }
}

/// A refusal of the nested message.
fn refused(fail: FailInfo, guarded: bool, to_outer: bool) -> Unfit
    ensures { result ≡ Unfit.Refused fail guarded to_outer }
{
    Unfit::Refused {
        fail,
        guarded,
        to_outer,
    }
}

/// Checks a message that nests no other one.
fn plain<'a>(
    alloc: Global,
    r: &Request<'a>,
    m: &Message<'a>,
    look: &Look,
) -> Result<Checked<'a>, Unfit>
    requires one { (o : Option MessageForm) → IsReading r.now.bytes.now o → o ≡ Some (message_of m.now) }
    requires found { IsMessage r.now.bytes.now (message_of m.now) }
    requires header { pass (header_rows (heading_of (Some (message_of m.now)))) ≡ true }
    requires alone { nested_inside (body_of m.now.body) ≡ None }
    ensures ok { IfOk result (IsWhole r.now.bytes.now r.now.ask r.now.echo look.now) }
    ensures err { IfErr result (IsUnfit r.now.bytes.now r.now.ask look.now) }
{
    what_a_look_tells();
    let subject = match check_subject(alloc, m, look) {
        Ok(subject) => subject,
        Err(unfit) => return Err(unfit),
    };
    Ok(assembled(r, m, subject, None, None))
}

/// Whether a message nests exactly one.
fn nests_one(m: &Message) -> bool
    ensures { (hashes : Receipted → List ℕ) (proven : Bool) → (IsTrue proven → IsProven (message_of m.now).body) → (nested_count (body_facts hashes (asks_implicit (message_of m.now).head.info) proven (message_of m.now).body) == 1) ≡ result }
{
    match about(m) {
        About::Nests(count) => count == 1,
        _ => false,
    }
}

/// The sender of a nested message, who may wrap; and one message is inside.
fn wrapper(alloc: Global, m: &Message, look: &Look) -> Result<Sender, Unfit>
    requires { IsOfOctets (message_of m.now) }
    ensures ok { IfOk result (λ s. ForFacts (message_of m.now) (λ hashes f. IsTrusted look.now.outer look.now.settings.skew look.now.time true f s × (pass (wrap_rows f s.owner) ≡ true))) }
    ensures err { IfErr result (λ u. ForFacts (message_of m.now) (λ hashes f. IsBackAround look.now f u)) }
{
    let sender = match trusted(alloc, m, &look.outer, look.settings.skew, look.time, true) {
        Ok(sender) => sender,
        Err(unfit) => return Err(unfit),
    };
    if !may(WRAP, &sender.owner) {
        return Err(refused(FailInfo::NotAuthorized, sender.guarded, true));
    }
    if !nests_one(m) {
        return Err(refused(FailInfo::BadRequest, sender.guarded, true));
    }
    Ok(sender)
}

/// The message inside a nested one, in form.
fn inner<'a>(inside: &'a [u8], sender: &Sender) -> Result<Message<'a>, Unfit>
    ensures ok { IfOk result (λ m. IsInner inside.now (message_of m)) }
    ensures err { IfErr result (λ u. (o : Option MessageForm) → IsReading inside.now o → IsBadInner sender.now.guarded o u) }
{
    let Some(message) = message_in(inside) else {
        return Err(refused(FailInfo::BadDataFormat, sender.guarded, true));
    };
    if let Some(fail) = fault(&message.header) {
        return Err(refused(fail, false, false));
    }
    Ok(message)
}

/// Checks a message that nests another one.
fn nested<'a>(
    alloc: Global,
    r: &Request<'a>,
    m: &Message<'a>,
    inside: &'a [u8],
    look: &Look,
) -> Result<Checked<'a>, Unfit>
    requires one { (o : Option MessageForm) → IsReading r.now.bytes.now o → o ≡ Some (message_of m.now) }
    requires found { IsMessage r.now.bytes.now (message_of m.now) }
    requires header { pass (header_rows (heading_of (Some (message_of m.now)))) ≡ true }
    requires nested { nested_inside (body_of m.now.body) ≡ Some inside.now }
    ensures ok { IfOk result (IsWhole r.now.bytes.now r.now.ask r.now.echo look.now) }
    ensures err { IfErr result (IsUnfit r.now.bytes.now r.now.ask look.now) }
{
    what_a_look_tells();
    let sender = match wrapper(alloc, m, look) {
        Ok(sender) => sender,
        Err(unfit) => return Err(unfit),
    };
    let message = match inner(inside, &sender) {
        Ok(message) => message,
        Err(unfit) => return Err(unfit),
    };
    let subject = match check_subject(alloc, &message, look) {
        Ok(subject) => subject,
        Err(unfit) => return Err(unfit),
    };
    Ok(assembled(r, &message, subject, m.header.time, Some(sender.owner.key)))
}

/// Checks a request: the message itself, or the one inside.
fn whole<'a>(alloc: Global, r: &Request<'a>, look: &Look) -> Result<Checked<'a>, Unfit>
    ensures ok { IfOk result (IsWhole r.now.bytes.now r.now.ask r.now.echo look.now) }
    ensures err { IfErr result (IsUnfit r.now.bytes.now r.now.ask look.now) }
{
    let Some(message) = message_in(r.bytes) else {
        unreachable!()
    };
    match nested_in(&message.body) {
        Some(inside) => nested(alloc, r, &message, inside, look),
        None => plain(alloc, r, &message, look),
    }
}

/// Checks a request by what a look at the history told of it: the table's rows, as far as the look and the octets settle them
/// (RFC 9810, 5.1 to 5.3). Of what is left the history is asked again when the request is decided. `Refused` where a row applies,
/// at each history that has the look; `NoMemory` where memory runs out.
pub fn check<'a>(alloc: Global, r: &Request<'a>, look: &Look) -> Result<Checked<'a>, Unfit>
    // What was checked carries the message, whichever letter its octets are.
    ensures carries { IfOk result (IsCarried r.now.bytes.now r.now.ask look.now) }
    // What is told of a certConf's hash is true; where nothing is told the hash is there to be compared.
    ensures hash { IfOk result (IsHashTold r.now.bytes.now) }
    ensures compares { IfOk result (ComparesHash r.now.bytes.now) }
    // Each field of what is checked is told by the message, or says nothing.
    ensures exact { IfOk result (IsExact r.now.bytes.now) }
    // No row that the look tells refuses the message.
    ensures told { IfOk result (λ c. AtLook r.now.bytes.now r.now.ask look.now (λ l h now. PassesLook look.now l h)) }
    ensures fits { IfOk result FitsChecked }
    // What is asked and repeated is the request's.
    ensures asks { IfOk result (λ c. c.ask ≡ r.now.ask) }
    ensures echoes { IfOk result (λ c. c.echo ≡ r.now.echo) }
    ensures unfit { IfErr result (IsUnfit r.now.bytes.now r.now.ask look.now) }
{
    whole(alloc, r, look)
}
