//! The notes that an index takes of a change.
ghost use Rattle.std.specs.Prelude.{◌≡◌, ◌+◌, ◌*◌, ◌<◌, ◌≤◌, ◌++◌, ◌∷◌, [], Some, length, OnOk, if◌then◌else◌};
ghost use Rattle.std.specs.Str.{bytes_eq};
ghost use Rattle.indexmap.specs.IndexMap.{get, spare, Updates};
ghost use Rattle.std.specs.List.{flat_map};
ghost use Rattle.deal_model.specs.Views.{History, entries_of};
ghost use Rattle.deal_index.specs.Questions.{same_question, questions_of, questions_of_listed, questions_of_entry, questions_of_dismissed, questions_of_granted};
ghost use Rattle.deal_model.specs.Keys.{key_id, key_of, is_lms_key};
ghost use Rattle.deal_index.specs.Index.{AreFirsts, AreLasts, Notes};

use crate::identifier::Identifier;
use crate::question::{CertificateDeed, CredentialDeed, DealDeed, Question};
use cmp_values::Short;
use deal_answers::{is_lms_key, key_id, key_of};
use deal_model::{Change, Credential, Kind, Settings, Stamp, Who};
use indexmap::IndexMap;
use std::alloc::AllocError;

/// The most questions that ask for a change other than an Enlist.
const MOST_QUESTIONS: usize = 5;

/// The most questions that ask for one credential of a list.
const MOST_OF_ENTRY: usize = 3;

pub(crate) fn noted_place(firsts: &IndexMap<Question, u64>, question: &Question) -> Option<u64>
    ensures { result ≡ get same_question firsts.now question.now }
{
    match firsts.get(question) {
        Some(place) => Some(*place),
        None => None,
    }
}

fn put_first(firsts: &mut IndexMap<Question, u64>, question: Question, place: u64)
    requires { 0 < spare firsts.old }
    ensures updates { Updates same_question firsts.old firsts.new question (Some place) }
    ensures spare { spare firsts.old ≤ spare firsts.new + 1 }
{
    match firsts.insert(question, place) {
        Ok(_) => (),
        Err(_) => unreachable!(),
    }
}

#[tactic(auto, using(crate::proofs::NoteLemmas::noted_new, crate::proofs::NoteLemmas::noted_old))]
fn note(firsts: &mut IndexMap<Question, u64>, question: Question, place: u64)
    requires { 0 < spare firsts.old }
    ensures notes { Notes (question ∷ []) place firsts.old firsts.new }
    ensures spare { spare firsts.old ≤ spare firsts.new + 1 }
{
    match noted_place(firsts, &question) {
        Some(_) => (),
        None => put_first(firsts, question, place),
    }
}

#[tactic(auto, using(crate::proofs::NoteLemmas::noted_more))]
fn note_message(firsts: &mut IndexMap<Question, u64>, question: Question, stamp: &Stamp, place: u64)
    requires { 2 ≤ spare firsts.old }
    ensures notes { Notes (question ∷ Question.Message stamp.now.digest ∷ []) place firsts.old firsts.new }
    ensures spare { spare firsts.old ≤ spare firsts.new + 2 }
{
    note(firsts, question, place);
    note(firsts, Question::Message(stamp.digest), place);
}

#[tactic(auto, using(crate::proofs::NoteLemmas::noted_more))]
fn note_certificate(
    firsts: &mut IndexMap<Question, u64>,
    deal: Question,
    stamp: &Stamp,
    certificate: Question,
    place: u64,
)
    requires { 3 ≤ spare firsts.old }
    ensures notes { Notes (deal ∷ Question.Message stamp.now.digest ∷ certificate ∷ []) place firsts.old firsts.new }
    ensures spare { spare firsts.old ≤ spare firsts.new + 3 }
{
    note(firsts, deal, place);
    note(firsts, Question::Message(stamp.digest), place);
    note(firsts, certificate, place);
}

fn deal(deed: DealDeed, tid: &Short) -> Question
    ensures { result ≡ Question.Deal deed tid.now }
{
    Question::Deal(deed, Identifier::of(*tid))
}

fn key_identifier(key: &[u8]) -> Identifier
    ensures { result ≡ key_id key.now }
{
    match Short::of(&key_id(key)) {
        Some(kid) => Identifier::of(kid),
        None => unreachable!(),
    }
}

fn note_key(firsts: &mut IndexMap<Question, u64>, key: &[u8], place: u64)
    requires { 0 < spare firsts.old }
    ensures notes { Notes (Question.Named CredentialDeed.TakesKey (key_id key.now) ∷ []) place firsts.old firsts.new }
    ensures spare { spare firsts.old ≤ spare firsts.new + 1 }
{
    note(
        firsts,
        Question::Named(CredentialDeed::TakesKey, key_identifier(key)),
        place,
    );
}

fn note_owner(firsts: &mut IndexMap<Question, u64>, spki: &[u8], place: u64)
    requires { 0 < spare firsts.old }
    ensures notes { Notes (if is_lms_key spki.now then Question.Named CredentialDeed.GivesLms (key_id (key_of spki.now)) ∷ [] else []) place firsts.old firsts.new }
    ensures spare { spare firsts.old ≤ spare firsts.new + 1 }
{
    if is_lms_key(spki) {
        note(
            firsts,
            Question::Named(CredentialDeed::GivesLms, key_identifier(key_of(spki))),
            place,
        );
    }
}

#[tactic(auto, using(crate::proofs::NoteLemmas::noted_more))]
fn note_granted(firsts: &mut IndexMap<Question, u64>, spki: &[u8], place: u64)
    requires { 2 ≤ spare firsts.old }
    ensures notes { Notes (questions_of_granted spki.now) place firsts.old firsts.new }
    ensures spare { spare firsts.old ≤ spare firsts.new + 2 }
{
    note_key(firsts, key_of(spki), place);
    note_owner(firsts, spki, place);
}

fn note_grant(
    firsts: &mut IndexMap<Question, u64>,
    stamp: &Stamp,
    serial: u64,
    spki: &[u8],
    place: u64,
)
    requires { 5 ≤ spare firsts.old }
    ensures { Notes (Question.Deal DealDeed.Grants stamp.now.tid ∷ Question.Message stamp.now.digest ∷ Question.Certificate CertificateDeed.Grants serial ∷ questions_of_granted spki.now) place firsts.old firsts.new }
{
    let certificate = Question::Certificate(CertificateDeed::Grants, serial);
    note_certificate(
        firsts,
        deal(DealDeed::Grants, &stamp.tid),
        stamp,
        certificate,
        place,
    );
    note_granted(firsts, spki, place);
}

fn note_revocation(firsts: &mut IndexMap<Question, u64>, stamp: &Stamp, serial: u64, place: u64)
    requires { 3 ≤ spare firsts.old }
    ensures { Notes (Question.Deal DealDeed.Revokes stamp.now.tid ∷ Question.Message stamp.now.digest ∷ Question.Certificate CertificateDeed.Revokes serial ∷ []) place firsts.old firsts.new }
{
    let certificate = Question::Certificate(CertificateDeed::Revokes, serial);
    note_certificate(
        firsts,
        deal(DealDeed::Revokes, &stamp.tid),
        stamp,
        certificate,
        place,
    )
}

fn note_hold(firsts: &mut IndexMap<Question, u64>, stamp: &Stamp, spki: &[u8], place: u64)
    requires { 3 ≤ spare firsts.old }
    ensures { Notes (Question.Deal DealDeed.Holds stamp.now.tid ∷ Question.Message stamp.now.digest ∷ Question.Named CredentialDeed.TakesKey (key_id (key_of spki.now)) ∷ []) place firsts.old firsts.new }
{
    note_message(firsts, deal(DealDeed::Holds, &stamp.tid), stamp, place);
    note_key(firsts, key_of(spki), place);
}

#[tactic(auto, using(crate::proofs::NoteLemmas::noted_more))]
fn note_founding(firsts: &mut IndexMap<Question, u64>, settings: &Settings, place: u64)
    requires { 2 ≤ spare firsts.old }
    ensures { Notes (Question.Named CredentialDeed.TakesKey (key_id settings.now.issue_key) ∷ Question.Named CredentialDeed.TakesKey (key_id settings.now.reply_key) ∷ []) place firsts.old firsts.new }
{
    note_key(firsts, &settings.issue_key, place);
    note_key(firsts, &settings.reply_key, place);
}

#[tactic(auto, using(crate::proofs::NoteLemmas::noted_none))]
fn note_dismissal(firsts: &mut IndexMap<Question, u64>, who: &Who, place: u64)
    requires { 0 < spare firsts.old }
    ensures { Notes (questions_of_dismissed who.now) place firsts.old firsts.new }
{
    match who {
        Who::Listed(Kind::Mac, kid) => note(
            firsts,
            Question::Named(CredentialDeed::DismissesMac, Identifier::of(*kid)),
            place,
        ),
        Who::Listed(Kind::Lms, kid) => note(
            firsts,
            Question::Named(CredentialDeed::DismissesLms, Identifier::of(*kid)),
            place,
        ),
        Who::Cert(_) => (),
    }
}

#[tactic(auto, using(crate::proofs::NoteLemmas::noted_more))]
fn note_lms(firsts: &mut IndexMap<Question, u64>, kid: Identifier, place: u64)
    requires { 3 ≤ spare firsts.old }
    ensures notes { Notes (questions_of_listed Kind.Lms kid) place firsts.old firsts.new }
    ensures spare { spare firsts.old ≤ spare firsts.new + 3 }
{
    note(
        firsts,
        Question::Named(CredentialDeed::ListsLms, kid),
        place,
    );
    note(
        firsts,
        Question::Named(CredentialDeed::GivesLms, kid),
        place,
    );
    note(
        firsts,
        Question::Named(CredentialDeed::TakesKey, kid),
        place,
    );
}

fn note_listed(firsts: &mut IndexMap<Question, u64>, kind: Kind, kid: Identifier, place: u64)
    requires { 3 ≤ spare firsts.old }
    ensures notes { Notes (questions_of_listed kind kid) place firsts.old firsts.new }
    ensures spare { spare firsts.old ≤ spare firsts.new + 3 }
{
    match kind {
        Kind::Mac => note(
            firsts,
            Question::Named(CredentialDeed::ListsMac, kid),
            place,
        ),
        Kind::Lms => note_lms(firsts, kid, place),
    }
}

fn note_entries(firsts: &mut IndexMap<Question, u64>, list: &[Credential], place: u64)
    requires { 3 * length list.now ≤ spare firsts.old }
    ensures { Notes (flat_map questions_of_entry list.now) place firsts.old firsts.new }
{
    for entry in list {
        note_listed(firsts, entry.kind, Identifier::of(entry.kid), place);
    }
}

#[tactic(auto, using(crate::proofs::NoteLemmas::noted_none))]
fn note_change(firsts: &mut IndexMap<Question, u64>, c: &Change, place: u64)
    requires one { 5 ≤ spare firsts.old }
    requires list { 3 * length (entries_of c.now) ≤ spare firsts.old }
    ensures { Notes (questions_of c.now) place firsts.old firsts.new }
{
    match c {
        Change::Grant {
            stamp,
            wish,
            serial,
            ..
        } => note_grant(firsts, stamp, *serial, wish.spki.as_slice(), place),
        Change::Hold { stamp, wish, .. } => note_hold(firsts, stamp, wish.spki.as_slice(), place),
        Change::Release { tid, .. } => note(firsts, deal(DealDeed::Releases, tid), place),
        Change::Deny { tid, .. } => note(firsts, deal(DealDeed::Denies, tid), place),
        Change::Turned(stamp) => note_message(
            firsts,
            deal(DealDeed::Turns, &stamp.tid),
            stamp,
            place,
        ),
        Change::Polled(stamp) => note(firsts, Question::Message(stamp.digest), place),
        Change::Settled { stamp, .. } => {
            note_message(firsts, deal(DealDeed::Settles, &stamp.tid), stamp, place)
        }
        Change::Revoke { stamp, serial, .. } => note_revocation(firsts, stamp, *serial, place),
        Change::Lapse { tid, .. } => note(firsts, deal(DealDeed::Lapses, tid), place),
        Change::Found(settings) => note_founding(firsts, settings, place),
        Change::Enlist { list, .. } => note_entries(firsts, list.as_slice(), place),
        Change::Dismiss { who, .. } => note_dismissal(firsts, who, place),
    }
}

/// Notes the place of a change for each question that asks for it and has no place yet.
pub(crate) fn note_first(firsts: &mut IndexMap<Question, u64>, c: &Change, place: u64)
    requires one { 5 ≤ spare firsts.old }
    requires list { 3 * length (entries_of c.now) ≤ spare firsts.old }
    ensures { (h : History) → place ≡ 1 + length h → AreFirsts h firsts.old → AreFirsts (h ++ c.now ∷ []) firsts.new }
{
    note_change(firsts, c, place);
}

fn entry_count(c: &Change) -> usize
    ensures { result ≡ length (entries_of c.now) }
{
    match c {
        Change::Enlist { list, .. } => list.len(),
        _ => 0,
    }
}

/// Makes room for the places of this change. Where there is no memory, all is as before.
pub(crate) fn reserve_firsts(
    firsts: &mut IndexMap<Question, u64>,
    c: &Change,
) -> Result<(), AllocError>
    ensures same { (h : History) → AreFirsts h firsts.old → AreFirsts h firsts.new }
    ensures one { OnOk result (5 ≤ spare firsts.new) }
    ensures list { OnOk result (3 * length (entries_of c.now) ≤ spare firsts.new) }
{
    match entry_count(c).checked_mul(MOST_OF_ENTRY) {
        Some(questions) => firsts.reserve(questions.max(MOST_QUESTIONS)),
        None => Err(AllocError),
    }
}

pub(crate) fn last_noted_place(lasts: &IndexMap<Identifier, u64>, tid: &Short) -> Option<u64>
    ensures { result ≡ get bytes_eq lasts.now tid.now }
{
    match lasts.get(tid.as_slice()) {
        Some(place) => Some(*place),
        None => None,
    }
}

fn put_last(lasts: &mut IndexMap<Identifier, u64>, tid: Identifier, place: u64)
    requires { 0 < spare lasts.old }
    ensures { Updates bytes_eq lasts.old lasts.new tid (Some place) }
{
    match lasts.insert(tid, place) {
        Ok(_) => (),
        Err(_) => unreachable!(),
    }
}

/// Notes the place of a change as the last of its transaction, where a message made it.
#[tactic(auto, using(crate::proofs::GrowLemmas::lasts_grown, crate::proofs::GrowLemmas::lasts_kept))]
pub(crate) fn note_last(lasts: &mut IndexMap<Identifier, u64>, c: &Change, place: u64)
    requires { 0 < spare lasts.old }
    ensures { (h : History) → place ≡ 1 + length h → AreLasts h lasts.old → AreLasts (h ++ c.now ∷ []) lasts.new }
{
    if let Some(stamp) = c.stamp() {
        put_last(lasts, Identifier::of(stamp.tid), place);
    }
}

/// Makes room for one more transaction. Where there is no memory, all is as before.
pub(crate) fn reserve_lasts(lasts: &mut IndexMap<Identifier, u64>) -> Result<(), AllocError>
    ensures same { (h : History) → AreLasts h lasts.old → AreLasts h lasts.new }
    ensures room { OnOk result (1 ≤ spare lasts.new) }
{
    lasts.reserve(1)
}
