//! The world that everything begins with.
ghost use Rattle.std.specs.Prelude.{◌≡◌, ◌↔◌, ◌∷◌, [], IsTrue, IfOk};
ghost use Rattle.world_core.specs.Steps.{first_settings, first_change, founded};

use crate::world::{Changes, Places, SignedList, World};
use cmp_values::Octets;
use deal_model::{Change, Settings};
use std::alloc::{AllocError, Global};

/// A Name of the common name "x".
const FIRST_NAME: [u8; 14] = [0x30, 12, 0x31, 10, 0x30, 8, 6, 3, 85, 4, 3, 12, 1, 120];

/// One level, a tree of type 5, one-time signatures of type 4, and octets 01 behind them.
const FIRST_KEY: [u8; 60] = [
    0, 0, 0, 1, 0, 0, 0, 5, 0, 0, 0, 4, 1, 1, 1, 1, 1, 1, 1, 1, 1, 1, 1, 1, 1, 1, 1, 1, 1, 1, 1, 1,
    1, 1, 1, 1, 1, 1, 1, 1, 1, 1, 1, 1, 1, 1, 1, 1, 1, 1, 1, 1, 1, 1, 1, 1, 1, 1, 1, 1,
];

fn first_settings(alloc: Global) -> Result<Settings, AllocError>
    ensures { IfOk result (λ s. s ≡ first_settings) }
{
    Ok(Settings {
        time: 0,
        name: Octets::copy_of(alloc, &FIRST_NAME)?,
        issue_key: FIRST_KEY,
        reply_key: FIRST_KEY,
        wait: 1,
        skew: 1,
        rounds: 1,
        check_after: 1,
        days: 1,
    })
}

#[tactic(auto, unfolding(crate::specs::Steps::first_change))]
fn first_change(alloc: Global) -> Result<Change, AllocError>
    ensures { IfOk result (λ c. c ≡ first_change) }
{
    Ok(Change::Found(first_settings(alloc)?))
}

/// The world that every list of steps begins with: a service that is running, founded at the second 0. `AllocError` where
/// memory runs out.
pub fn founded(alloc: Global) -> Result<World, AllocError>
    ensures { IfOk result (λ w. w ≡ founded) }
{
    let mut items = Vec::new(alloc);
    items.push(first_change(alloc)?)?;
    Ok(World {
        durable: Changes::of(items),
        pending: None,
        doubt: None,
        acked: 1,
        up: true,
        signed: SignedList::empty(alloc),
        sent: Places::empty(alloc),
    })
}

fn are_first(s: &Settings) -> bool
    ensures { IsTrue result ↔ (s.now ≡ first_settings) }
{
    s.time == 0
        && s.name.as_slice() == FIRST_NAME.as_slice()
        && s.issue_key == FIRST_KEY
        && s.reply_key == FIRST_KEY
        && s.wait == 1
        && s.skew == 1
        && s.rounds == 1
        && s.check_after == 1
        && s.days == 1
}

#[tactic(auto, unfolding(crate::specs::Steps::first_change))]
fn is_first(c: &Change) -> bool
    ensures { IsTrue result ↔ (c.now ≡ first_change) }
{
    match c {
        Change::Found(settings) => are_first(settings),
        _ => false,
    }
}

fn is_first_alone(h: &[Change]) -> bool
    ensures { IsTrue result ↔ (h.now ≡ first_change ∷ []) }
{
    match h {
        [only] => is_first(only),
        _ => false,
    }
}

/// Whether a world is the one that everything begins with.
pub(crate) fn is_founded(w: &World) -> bool
    ensures { IsTrue result ↔ (w.now ≡ founded) }
{
    is_first_alone(w.durable.as_slice())
        && w.pending.is_none()
        && w.doubt.is_none()
        && w.acked == 1
        && w.up
        && w.signed.as_slice().is_empty()
        && w.sent.as_slice().is_empty()
}
