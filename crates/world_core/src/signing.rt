//! Signing with the leaves of a change.
ghost use Rattle.std.specs.Prelude.{◌≡◌, ◌≤◌, Option, OnOk};
ghost use Rattle.std.specs.List.{list_any};
ghost use Rattle.deal_model.specs.Views.{signing_leaves, reply_leaves, stamp_leaves};
ghost use Rattle.deal_changes.specs.Times.{stamp_of};
ghost use Rattle.world_core.specs.Steps.{same_key, is_signed, with_leaf, with_leaves, with_place};

use crate::world::{Signed, SignedList, Source};
use deal_model::{Change, Key};
use std::alloc::AllocError;

fn same_key(a: Key, b: Key) -> bool
    ensures { result ≡ same_key a b }
{
    match (a, b) {
        (Key::Issue, Key::Issue) => true,
        (Key::Reply, Key::Reply) => true,
        (Key::Issue, Key::Reply) => false,
        (Key::Reply, Key::Issue) => false,
    }
}

fn is_leaf(key: Key, leaf: u64, e: &Signed) -> bool
    ensures { result ≡ is_signed key leaf e.now }
{
    same_key(e.key, key) && e.leaf == leaf
}

fn is_signed(key: Key, leaf: u64, signed: &[Signed]) -> bool
    ensures { result ≡ list_any (is_signed key leaf) signed.now }
{
    signed.iter().any(|e| is_leaf(key, leaf, e))
}

fn sign_leaf(signed: &mut SignedList, key: Key, leaf: u64, place: u64) -> Result<(), AllocError>
    ensures { OnOk result (signed.new ≡ with_leaf signed.old key leaf place) }
{
    if is_signed(key, leaf, signed.as_slice()) {
        return Ok(());
    }
    signed.push(Signed {
        key,
        leaf,
        source: Source::Place(place),
    })
}

fn sign_reply(signed: &mut SignedList, leaf: Option<u32>, place: u64) -> Result<(), AllocError>
    ensures { OnOk result (signed.new ≡ with_leaves signed.old (reply_leaves leaf) place) }
{
    match leaf {
        Some(leaf) => sign_leaf(signed, Key::Reply, u64::from(leaf), place),
        None => Ok(()),
    }
}

fn sign_stamp(signed: &mut SignedList, c: &Change, place: u64) -> Result<(), AllocError>
    ensures { OnOk result (signed.new ≡ with_leaves signed.old (stamp_leaves (stamp_of c.now)) place) }
{
    match c.stamp() {
        Some(stamp) => sign_reply(signed, stamp.leaf, place),
        None => Ok(()),
    }
}

fn sign_change(signed: &mut SignedList, c: &Change, place: u64) -> Result<(), AllocError>
    ensures { OnOk result (signed.new ≡ with_leaves signed.old (signing_leaves c.now) place) }
{
    match c {
        Change::Found(_) => {
            sign_leaf(signed, Key::Issue, 0, place)?;
            sign_leaf(signed, Key::Issue, 1, place)
        }
        Change::Grant { stamp, leaf, .. } => {
            sign_leaf(signed, Key::Issue, u64::from(*leaf), place)?;
            sign_reply(signed, stamp.leaf, place)
        }
        _ => sign_stamp(signed, c, place),
    }
}

/// Signs with those leaves of the change at a place, from 1 on, that weren't signed with yet. `AllocError` where memory runs
/// out; what is signed then isn't said.
pub(crate) fn sign_place(
    signed: &mut SignedList,
    h: &[Change],
    place: u64,
) -> Result<(), AllocError>
    requires { 1 ≤ place }
    ensures { OnOk result (signed.new ≡ with_place signed.old h.now place) }
{
    match h.get((place - 1) as usize) {
        Some(c) => sign_change(signed, c, place),
        None => Ok(()),
    }
}
