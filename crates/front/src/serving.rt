//! How a message is served.
ghost use Rattle.std.specs.Prelude.{◌≡◌, ◌≤◌, length, false, None, Some, IfSome, replicate};
ghost use Rattle.deal_model.specs.Views.{settings_of};
ghost use Rattle.desk.specs.Verdicts.{IsInTime};
ghost use Rattle.intake.specs.Intake.{IsRequest};
ghost use Rattle.reply_maker.specs.Keys.{are_blank};
ghost use Rattle.front.specs.Answers.{IsOwn};
ghost use Rattle.front.specs.Clerks.{clerked, Goes};
ghost use Rattle.front.specs.Courses.{AreShort, HasReason, IsReasoned, IsSealable, IsFailed, IsFinished, IsTurned, IsResponse, is_stale};
ghost use Rattle.front.specs.Fronts.{replier_by, HasSettings, Own};

use crate::asking::{look_at, nothing};
use crate::deciding::decide;
use crate::guards::{carried_guard, looked_guard};
use crate::reply::{Reply, refused, sealed};
use cmp_ports::{FailInfo, Gate, Note, Outcome, Point};
use deal_model::{Checked, Echo};
use deal_table::Look;
use desk::{Clerk, Verdict};
use intake::{Intake, Request, Unfit, ask_of, check};
use reply_maker::Keys;
use std::alloc::Global;

/// What is noted at this place and time.
fn note(place: u64, time: u64, words: &[u8; 32], outcome: Outcome) -> Note
    ensures { result ≡ record { place = place; time = time; words = words.now; outcome = outcome } }
{
    Note {
        place,
        time,
        words: *words,
        outcome,
    }
}

/// The answer that a device failed, at the place and time of a look. It has no words, and nothing protects it.
fn failure<G: Gate>(
    alloc: Global,
    keys: &Keys,
    gate: &mut G,
    echo: &Echo,
    look: &Look,
    words: &[u8; 32],
) -> Option<Reply>
    requires time { look.now.time ≤ 250_000_000_000 }
    requires sender { length echo.now.sender.now ≤ 131_072 }
    ensures { IfSome result (IsFailed (replier_by keys.now) echo.now look.now words.now) }
{
    let note = note(look.place, look.time, words, Outcome::SystemFailure);
    refused(
        alloc,
        keys,
        gate,
        echo,
        FailInfo::SystemFailure,
        None,
        None,
        note,
    )
}

/// The refusal of a message by what a look told.
fn turned<G: Gate>(
    alloc: Global,
    keys: &Keys,
    gate: &mut G,
    r: &Request<'_>,
    look: &Look,
    unfit: Unfit,
    words: &[u8; 32],
) -> Option<Reply>
    requires time { look.now.time ≤ 250_000_000_000 }
    requires senders { AreShort r.now }
    requires reason { HasReason unfit }
    ensures { IfSome result (IsTurned (replier_by keys.now) r.now look.now words.now unfit) }
{
    let Unfit::Refused {
        fail,
        guarded,
        to_outer,
    } = unfit
    else {
        return None;
    };
    let guard = looked_guard(r.ask(), look, guarded, to_outer);
    let note = note(look.place, look.time, words, Outcome::Refused(fail));
    refused(
        alloc,
        keys,
        gate,
        r.echo(to_outer),
        fail,
        guard.as_ref(),
        Some(words),
        note,
    )
}

/// The reply to what was checked, by its verdict.
fn finish<G: Gate>(
    alloc: Global,
    keys: &Keys,
    gate: &mut G,
    r: &Request<'_>,
    look: &Look,
    checked: &Checked<'_>,
    verdict: &Verdict,
    words: &[u8; 32],
) -> Option<Reply>
    requires made { are_blank keys.now.settings ≡ false }
    requires sealable { IsSealable keys.now.settings verdict.now }
    requires time { look.now.time ≤ 250_000_000_000 }
    requires timely { IsInTime verdict.now }
    requires senders { AreShort r.now }
    requires settled { is_stale verdict.now ≡ false }
    requires reason { IsReasoned verdict.now }
    ensures { IfSome result (IsFinished (replier_by keys.now) r.now checked.now look.now words.now verdict.now) }
{
    match verdict {
        Verdict::Done(receipt) => {
            let note = note(receipt.place(), receipt.time(), words, Outcome::Done);
            sealed(alloc, keys, gate, receipt, note)
        }
        Verdict::Again {
            receipt,
            place,
            time,
        } => sealed(
            alloc,
            keys,
            gate,
            receipt,
            note(*place, *time, words, Outcome::Again),
        ),
        Verdict::Refused {
            fail,
            place,
            time,
            guarded,
            to_outer,
        } => {
            let guard = carried_guard(checked, *guarded, *to_outer);
            let note = note(*place, *time, words, Outcome::Refused(*fail));
            refused(
                alloc,
                keys,
                gate,
                r.echo(*to_outer),
                *fail,
                guard.as_ref(),
                Some(words),
                note,
            )
        }
        Verdict::Stale { .. } => unreachable!(),
        Verdict::DiskFault => failure(alloc, keys, gate, r.echo(true), look, words),
        Verdict::NoMemory => None,
    }
}

/// Serves a message whose header has all its parts.
fn served<K: Clerk, G: Gate>(
    alloc: Global,
    keys: &Keys,
    clerk: &mut K,
    gate: &mut G,
    r: &Request<'_>,
    now: u64,
    words: &[u8; 32],
) -> Option<Reply>
    requires clock { now ≤ 250_000_000_000 }
    requires settings { HasSettings (K.seen clerk.old) keys.now.settings }
    requires request { IsRequest r.now.bytes.now r.now }
    ensures goes { Goes K.Clerk clerk.old clerk.new (IsOwn (replier_by keys.now) r.now.bytes.now (K.seen clerk.old) now words.now) }
    ensures response { IsResponse (replier_by keys.now) r.now.bytes.now (clerked K.Clerk clerk.old) (clerked K.Clerk clerk.new) now (Some words.now) result }
{
    let look = look_at(clerk, gate, r.ask(), now);
    let fit = check(alloc, r, &look);
    gate.pass(Point::Checked);
    let mut checked = match fit {
        Ok(checked) => checked,
        Err(unfit) => return turned(alloc, keys, gate, r, &look, unfit, words),
    };
    let verdict = decide(alloc, keys, clerk, gate, &mut checked, now, words);
    finish(alloc, keys, gate, r, &look, &checked, &verdict, words)
}

/// Answers octets, with the words that were drawn; none for want of memory.
fn respond<K: Clerk, G: Gate>(
    alloc: Global,
    keys: &Keys,
    clerk: &mut K,
    gate: &mut G,
    request: &[u8],
    now: u64,
    words: &[u8; 32],
) -> Option<Reply>
    requires clock { now ≤ 250_000_000_000 }
    requires settings { HasSettings (K.seen clerk.old) keys.now.settings }
    ensures goes { Goes K.Clerk clerk.old clerk.new (IsOwn (replier_by keys.now) request.now (K.seen clerk.old) now words.now) }
    ensures response { IsResponse (replier_by keys.now) request.now (clerked K.Clerk clerk.old) (clerked K.Clerk clerk.new) now (Some words.now) result }
{
    match ask_of(request) {
        Intake::Stop { fail, echo } => {
            let look = look_at(clerk, gate, &nothing(), now);
            let note = note(look.place, look.time, words, Outcome::Refused(fail));
            refused(alloc, keys, gate, &echo, fail, None, Some(words), note)
        }
        Intake::Go(r) => served(alloc, keys, clerk, gate, &r, now, words),
    }
}

/// Answers octets that no words could be drawn; none for want of memory.
fn go_down<K: Clerk, G: Gate>(
    alloc: Global,
    keys: &Keys,
    clerk: &mut K,
    gate: &mut G,
    request: &[u8],
    now: u64,
) -> Option<Reply>
    requires clock { now ≤ 250_000_000_000 }
    ensures goes { Goes K.Clerk clerk.old clerk.new (λ _. ⊥) }
    ensures response { IsResponse (replier_by keys.now) request.now (clerked K.Clerk clerk.old) (clerked K.Clerk clerk.new) now None result }
{
    let look = look_at(clerk, gate, &nothing(), now);
    match ask_of(request) {
        Intake::Stop { echo, .. } => failure(alloc, keys, gate, &echo, &look, &[0; 32]),
        Intake::Go(r) => failure(alloc, keys, gate, r.echo(true), &look, &[0; 32]),
    }
}

/// Answers octets, by whether words were drawn.
pub(crate) fn serve<K: Clerk, G: Gate>(
    alloc: Global,
    keys: &Keys,
    clerk: &mut K,
    gate: &mut G,
    request: &[u8],
    now: u64,
    drawn: &Option<[u8; 32]>,
) -> Option<Reply>
    requires clock { now ≤ 250_000_000_000 }
    requires settings { HasSettings (K.seen clerk.old) keys.now.settings }
    ensures goes { Goes K.Clerk clerk.old clerk.new (Own (replier_by keys.now) request.now (K.seen clerk.old) now drawn.now) }
    ensures response { IsResponse (replier_by keys.now) request.now (clerked K.Clerk clerk.old) (clerked K.Clerk clerk.new) now drawn.now result }
{
    match drawn {
        Some(words) => respond(alloc, keys, clerk, gate, request, now, words),
        None => go_down(alloc, keys, clerk, gate, request, now),
    }
}
