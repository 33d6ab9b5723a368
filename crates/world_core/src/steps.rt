//! The steps of the world, each taken exactly where it can be.
ghost use Rattle.std.specs.Prelude.{◌≡◌, ◌≤◌, ◌↔◌, IsTrue, IfOk, OnOk, OnErr};
ghost use Rattle.deal_model.specs.Views.{AreTimely};
ghost use Rattle.world_core.specs.Steps.{Leads};
ghost use Rattle.world_core.specs.Applying.{Applied};

use crate::first_world::is_founded;
use crate::signing::sign_place;
use crate::world::{Changes, SignedList, Step, World};
use deal_model::Change;
use deal_rules::is_allowed;
use std::alloc::{AllocError, Global};

fn found(alloc: Global, w: &mut World, c: &Change) -> Result<bool, AllocError>
    ensures applied { IfOk result (Applied w.old (Step.Found c.now) w.new) }
    ensures err { OnErr result (w.new ≡ w.old) }
{
    if !is_founded(w) || !is_allowed(&[], c) {
        return Ok(false);
    }
    let mut items = Vec::new(alloc);
    items.push(Change::copy_of(alloc, c)?)?;
    w.durable = Changes::of(items);
    Ok(true)
}

fn propose(alloc: Global, w: &mut World, c: &Change) -> Result<bool, AllocError>
    requires { AreTimely w.old.durable }
    ensures applied { IfOk result (Applied w.old (Step.Propose c.now) w.new) }
    ensures err { OnErr result (w.new ≡ w.old) }
{
    if !w.up || w.pending.is_some() || w.doubt.is_some() || !is_allowed(w.durable.as_slice(), c) {
        return Ok(false);
    }
    let copy = Change::copy_of(alloc, c)?;
    w.pending = Some(copy);
    Ok(true)
}

fn sync(w: &mut World) -> Result<bool, AllocError>
    ensures applied { IfOk result (Applied w.old Step.Sync w.new) }
    ensures err { OnErr result (w.new ≡ w.old) }
{
    if !w.up || w.pending.is_none() {
        return Ok(false);
    }
    w.durable.take(&mut w.pending)?;
    w.acked = w.durable.len() as u64;
    Ok(true)
}

fn sync_fail(w: &mut World) -> bool
    ensures { Applied w.old Step.SyncFail w.new result }
{
    if !w.up || w.pending.is_none() {
        return false;
    }
    w.doubt = w.pending.take();
    true
}

fn settle(w: &mut World) -> bool
    ensures { Applied w.old Step.Settle w.new result }
{
    w.up && w.doubt.take().is_some()
}

/// Whether the change at this place, from 1 on, is acknowledged, and the service is running.
fn may_leave(w: &World, place: u64) -> bool
    ensures { IsTrue result ↔ (IsTrue w.now.up × (1 ≤ place) × (place ≤ w.now.acked)) }
{
    w.up && place >= 1 && place <= w.acked
}

fn sign(alloc: Global, w: &mut World, place: u64) -> Result<bool, AllocError>
    ensures applied { IfOk result (Applied w.old (Step.Sign place) w.new) }
    ensures err { OnErr result (w.new ≡ w.old) }
{
    if !may_leave(w, place) {
        return Ok(false);
    }
    let mut signed = SignedList::copy_of(alloc, w.signed.as_slice())?;
    sign_place(&mut signed, w.durable.as_slice(), 1)?;
    sign_place(&mut signed, w.durable.as_slice(), place)?;
    w.signed = signed;
    Ok(true)
}

fn send(w: &mut World, place: u64) -> Result<bool, AllocError>
    ensures applied { IfOk result (Applied w.old (Step.Send place) w.new) }
    ensures err { OnErr result (w.new ≡ w.old) }
{
    if !may_leave(w, place) {
        return Ok(false);
    }
    w.sent.push(place)?;
    Ok(true)
}

fn crash(w: &mut World, keep: bool) -> Result<bool, AllocError>
    ensures applied { IfOk result (Applied w.old (Step.Crash keep) w.new) }
    ensures err { OnErr result (w.new ≡ w.old) }
{
    if !w.up {
        return Ok(false);
    }
    if keep {
        w.durable.take_both(&mut w.pending, &mut w.doubt)?;
    }
    w.pending = None;
    w.doubt = None;
    w.up = false;
    Ok(true)
}

fn reopen(w: &mut World) -> bool
    ensures { Applied w.old Step.Reopen w.new result }
{
    if w.up {
        return false;
    }
    let acked = w.durable.len() as u64;
    w.acked = acked;
    w.up = true;
    true
}

/// Takes a step where it can be taken, and tells whether it was; else nothing changes. The times of the world's history are
/// none that no clock may say, as in every world that steps leave. `AllocError` where memory runs out, and then nothing
/// changed.
pub fn apply(alloc: Global, w: &mut World, step: &Step) -> Result<bool, AllocError>
    requires { AreTimely w.old.durable }
    ensures applied { IfOk result (Applied w.old step.now w.new) }
    ensures leads { OnOk result (Leads w.old step.now w.new) }
    ensures err { OnErr result (w.new ≡ w.old) }
{
    match step {
        Step::Found(c) => found(alloc, w, c),
        Step::Propose(c) => propose(alloc, w, c),
        Step::Sync => sync(w),
        Step::SyncFail => Ok(sync_fail(w)),
        Step::Settle => Ok(settle(w)),
        Step::Sign(place) => sign(alloc, w, *place),
        Step::Send(place) => send(w, *place),
        Step::Crash(keep) => crash(w, *keep),
        Step::Reopen => Ok(reopen(w)),
    }
}
