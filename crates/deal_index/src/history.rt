//! A history with its index.
ghost use Rattle.std.specs.Prelude.{◌≡◌, ◌+◌, ◌≤◌, ◌++◌, ◌∷◌, [], length, find, option_copied, option_and_then, OnOk};
ghost use Rattle.deal_model.specs.Views.{is_stamped_for, leaves_used, time_of};
ghost use Rattle.deal_index.specs.Places.{place_of, last_place_of, change_at};
ghost use Rattle.deal_index.specs.Questions.{is_asked_for};
ghost use Rattle.deal_index.specs.Kept.{HasRoom};

use crate::counts::{count_grants, count_signed, leaves_used};
use crate::identifier::Identifier;
use crate::notes::{
    last_noted_place, note_first, note_last, noted_place, reserve_firsts, reserve_lasts,
};
use crate::question::Question;
use cmp_values::Short;
use deal_model::{Change, Key};
use indexmap::IndexMap;
use std::alloc::{AllocError, Global};
use std::marker::Model;

/// The change at a place, counted from 1.
fn change_at(changes: &[Change], place: Option<u64>) -> Option<&Change>
    ensures { option_copied result ≡ option_and_then (change_at changes.now) place }
{
    match place {
        Some(place) => changes.get(place.saturating_sub(1) as usize),
        None => None,
    }
}

#[tactic(auto, using(crate::proofs::CountLemmas::last_time))]
fn time_of(changes: &[Change]) -> u64
    ensures { result ≡ time_of changes.now }
{
    match changes {
        [] => 0,
        [.., last] => last.time(),
    }
}

/// The changes of a history, each kept once, and where each stands by what is asked. Contracts see it as the history and the room
/// that there is for one more change.
#[derive(Drop)]
pub struct IndexedHistory {
    changes: Vec<Change>,
    /// The place of the first change that each question asks for.
    firsts: IndexMap<Question, u64>,
    /// The place of the last change that a message of each transaction made.
    lasts: IndexMap<Identifier, u64>,
    /// How many certificates were granted.
    grants: u64,
    /// How many replies were signed.
    signed: u64,
}

impl Model for IndexedHistory {
    ghost use Rattle.std.specs.Prelude.{◌≡◌, ◌-◌, count_by, vec_len, vec_capacity};
    ghost use Rattle.deal_model.specs.Views.{is_grant, has_leaf};
    ghost use Rattle.indexmap.specs.IndexMap.{spare};
    ghost use Rattle.deal_index.specs.Kept.{Kept};
    ghost use Rattle.deal_index.specs.Index.{AreFirsts, AreLasts};

    ghost Value = { Kept };

    ghost view = { λ t. record { history = t.changes.items; change_room = vec_capacity t.changes - vec_len t.changes; first_room = spare t.firsts; last_room = spare t.lasts } };

    ghost invariant = { λ t. AreFirsts t.changes.items t.firsts × AreLasts t.changes.items t.lasts × (t.grants ≡ count_by is_grant t.changes.items) × (t.signed ≡ count_by has_leaf t.changes.items) };
}

impl IndexedHistory {
    /// No changes.
    pub fn new(alloc: Global) -> IndexedHistory
        ensures { result.history ≡ [] }
    {
        IndexedHistory {
            changes: Vec::new(alloc),
            firsts: IndexMap::new(alloc),
            lasts: IndexMap::new(alloc),
            grants: 0,
            signed: 0,
        }
    }

    /// Takes the memory that `add` needs for this change. Where there is none, all is as before.
    pub fn make_room(&mut self, c: &Change) -> Result<(), AllocError>
        ensures same { self.new.history ≡ self.old.history }
        ensures room { OnOk result (HasRoom self.new c.now) }
    {
        reserve_firsts(&mut self.firsts, c)?;
        reserve_lasts(&mut self.lasts)?;
        self.changes.reserve(1)
    }

    /// Adds a change, at the place behind all others. Takes no memory.
    #[tactic(auto, using(crate::proofs::CountLemmas::within))]
    pub fn add(&mut self, c: Change, place: u64)
        requires room { HasRoom self.old c }
        requires place { place ≡ 1 + length self.old.history }
        ensures { self.new.history ≡ self.old.history ++ c ∷ [] }
    {
        note_first(&mut self.firsts, &c, place);
        note_last(&mut self.lasts, &c, place);
        self.grants = count_grants(self.grants, &c);
        self.signed = count_signed(self.signed, &c);
        match self.changes.push(c) {
            Ok(()) => (),
            Err(_) => unreachable!(),
        }
    }

    /// The place of the first change that the question asks for, counted from 1; none where there is none.
    pub fn first_place(&self, question: &Question) -> Option<u64>
        ensures { result ≡ place_of (is_asked_for question.now) self.now.history }
    {
        noted_place(&self.firsts, question)
    }

    /// The first change that the question asks for; none where there is none.
    #[tactic(auto, using(crate::proofs::FindLemmas::found_at))]
    pub fn first_change(&self, question: &Question) -> Option<&Change>
        ensures { option_copied result ≡ find (is_asked_for question.now) self.now.history }
    {
        change_at(&self.changes, self.first_place(question))
    }

    /// The place of the last change that a message of the transaction made; none where there is none.
    pub fn last_place(&self, tid: &Short) -> Option<u64>
        ensures { result ≡ last_place_of (is_stamped_for tid.now) self.now.history }
    {
        last_noted_place(&self.lasts, tid)
    }

    /// How many leaves of a key are used.
    pub fn leaves_used(&self, key: Key) -> u64
        requires { length self.now.history ≤ 262144 }
        ensures { result ≡ leaves_used self.now.history key }
    {
        leaves_used(&self.changes, self.grants, self.signed, key)
    }

    /// When the last change was made; 0 where there is none.
    pub fn time(&self) -> u64
        ensures { result ≡ time_of self.now.history }
    {
        time_of(&self.changes)
    }
}
