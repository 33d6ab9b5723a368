//! What a desk tells of its history.
ghost use Rattle.std.specs.Prelude.{◌≡◌, ◌≤◌, [], length, unwrap_or, Some, IfOk};
ghost use Rattle.deal_changes.specs.Spki.{common_name};
ghost use Rattle.deal_model.specs.Views.{AreTimely, founding};
ghost use Rattle.deal_table.specs.History.{IsFounded, standing_for, outer_standing, brief_of, look_of, grant_receipt};
ghost use Rattle.desk.specs.History.{history_of};

use crate::desk::Desk;
use crate::lapsing::event_time;
use crate::receipt::{Receipt, receipt_at};
use cmp_ports::{Disk, Short};
use deal_answers::{founding, standing_of, transaction_state};
use deal_model::{Ask, Brief, Change, Kind, Settings, Standing, common_name};
use deal_rulings::{place_of_digest, place_of_grant};
use deal_table::Look;
use std::alloc::{AllocError, Global};

// How a credential stands, where a message has a kind.
fn standing_for(h: &[Change], kind: Option<Kind>, kid: &Short, t: u64) -> Standing
    requires { AreTimely h.now }
    ensures { result ≡ standing_for h.now kind kid.now t }
{
    match kind {
        Some(kind) => standing_of(h, kind, kid.as_slice(), t),
        None => Standing::Unknown,
    }
}

// How the credential of the nested message stands, where there is one.
fn outer_standing(h: &[Change], outer: &Option<(Kind, Short)>, t: u64) -> Standing
    requires { AreTimely h.now }
    ensures { result ≡ outer_standing h.now outer.now t }
{
    match outer {
        Some((kind, kid)) => standing_of(h, *kind, kid.as_slice(), t),
        None => Standing::Unknown,
    }
}

// The text of the authority's name.
#[tactic(auto, using(crate::proofs::LookLemmas::name_fits))]
fn name_text(name: &[u8]) -> Short
    ensures { result ≡ unwrap_or (common_name name.now) [] }
{
    let Some(text) = common_name(name) else {
        return Short::empty();
    };
    match Short::of(text) {
        Some(text) => text,
        None => unreachable!(),
    }
}

/// What replies and certificates need of the settings.
pub fn brief_of(s: &Settings) -> Brief
    ensures { result ≡ brief_of s.now }
{
    Brief {
        name: name_text(s.name.as_slice()),
        wait: s.wait,
        skew: s.skew,
        rounds: s.rounds,
        check_after: s.check_after,
        days: s.days,
        issue_key: s.issue_key,
        reply_key: s.reply_key,
    }
}

// What a look at a history tells that was founded with these settings.
fn look_of(h: &[Change], settings: &Settings, ask: &Ask, now: u64) -> Look
    requires timely { AreTimely h.now }
    requires room { length h.now ≤ 262144 }
    requires founded { founding h.now ≡ Some settings.now }
    ensures { result ≡ look_of h.now ask.now now }
{
    let time = event_time(h, now);
    Look {
        place: h.len() as u64,
        time,
        repeat: place_of_digest(h, &ask.digest),
        cred: standing_for(h, ask.kind, &ask.kid, time),
        outer: outer_standing(h, &ask.outer, time),
        tid_state: transaction_state(h, ask.tid.as_slice()),
        settings: brief_of(settings),
    }
}

// What the reply to a transaction's Grant needs.
#[tactic(auto, unfolding(deal_table::specs::History::grant_receipt))]
fn grant_receipt(alloc: Global, h: &[Change], tid: &[u8]) -> Result<Option<Receipt>, AllocError>
    requires { length h.now ≤ 262144 }
    ensures { IfOk result (λ r. r ≡ grant_receipt h.now tid.now) }
{
    match place_of_grant(h, tid) {
        Some(place) => receipt_at(alloc, h, place),
        None => Ok(None),
    }
}

impl<D: Disk> Desk<D> {
    /// What the service was founded with.
    fn settings(&self) -> &Settings
        ensures { founding (history_of self.now) ≡ Some result.now }
    {
        match founding(self.changes()) {
            Some(settings) => settings,
            None => unreachable!(),
        }
    }

    /// What the history tells of a message before it is checked. The time is a clock's reading in seconds since 1970.
    pub fn look(&mut self, ask: &Ask, now: u64) -> Look
        requires { now ≤ 250000000000 }
        ensures answer { result ≡ look_of (history_of self.old) ask.now now }
        ensures founded { IsFounded (history_of self.old) }
        ensures time { result.time ≤ 250000000000 }
        ensures same { self.new ≡ self.old }
    {
        look_of(self.changes(), self.settings(), ask, now)
    }

    /// What the reply to a transaction's Grant needs; none exactly where there is no Grant.
    pub fn granted(&mut self, tid: &Short) -> Result<Option<Receipt>, AllocError>
        ensures receipt { IfOk result (λ r. r ≡ grant_receipt (history_of self.old) tid.now) }
        ensures same { self.new ≡ self.old }
    {
        grant_receipt(*self.history.allocator(), self.changes(), tid.as_slice())
    }
}
