//! The octets of a disk in memory, and the calls that made them of the first ones.
ghost use Rattle.std.specs.Prelude.{◌≡◌, ◌+◌, ◌≤◌, [], ◌∷◌, ◌++◌, length, unwrap_or, is_ok, if◌then◌else◌, OnOk, OnErr, IsSome};
ghost use Rattle.cmp_ports.specs.Disk.{overwritten};
ghost use Rattle.cmp_ports.specs.Replay.{content_step, content_after};

use super::call::Call;
use crate::Octets;
use std::alloc::{AllocError, Global};

#[derive(Drop)]
pub(crate) struct Tape {
    octets: Vec<u8>,
    /// The octets at first, once a write has been asked for.
    first: Option<Octets>,
    calls: Vec<Call>,
    ghost replayed: { octets.items ≡ content_after (unwrap_or first octets.items) calls.items },
}

// Writes octets over those from an offset on, and past the end.
pub(super) fn put(octets: &mut Vec<u8>, at: usize, bytes: &[u8]) -> Result<(), AllocError>
    requires { at ≤ length octets.old.items }
    ensures ok { OnOk result (octets.new.items ≡ overwritten at bytes.now octets.old.items) }
    ensures err { OnErr result (octets.new.items ≡ octets.old.items) }
{
    let inside = bytes.len().min(octets.len() - at);
    let (over, behind) = bytes.split_at(inside);
    octets.extend_from_slice(behind)?;
    octets.as_mut_slice()[at..at + inside].copy_from_slice(over);
    Ok(())
}

// Keeps a copy of the octets, where none is kept.
fn keep_first(octets: &Vec<u8>, first: &mut Option<Octets>) -> Result<(), AllocError>
    ensures kept { OnOk result (IsSome first.new) }
    ensures same { unwrap_or first.new octets.now.items ≡ unwrap_or first.old octets.now.items }
{
    if first.is_none() {
        *first = Some(Octets::copy_of(*octets.allocator(), octets)?);
    }
    Ok(())
}

// Puts a write on the record, and does it where it is to be done.
fn write_parts(
    octets: &mut Vec<u8>,
    first: &mut Option<Octets>,
    calls: &mut Vec<Call>,
    at: u64,
    bytes: &[u8],
    done: bool,
) -> Result<(), AllocError>
    requires { at ≤ length octets.old.items }
    ensures octets { octets.new.items ≡ (if is_ok result then content_step octets.old.items (Call.Wrote at bytes.now done) else octets.old.items) }
    ensures calls { calls.new.items ≡ (if is_ok result then calls.old.items ++ (Call.Wrote at bytes.now done) ∷ [] else calls.old.items) }
    ensures first { unwrap_or first.new octets.new.items ≡ unwrap_or first.old octets.old.items }
{
    let copy = Octets::copy_of(*octets.allocator(), bytes)?;
    keep_first(octets, first)?;
    calls.push(Call::Wrote {
        at,
        octets: copy,
        done,
    })?;
    if done && put(octets, at as usize, bytes).is_err() {
        let _ = calls.pop();
        return Err(AllocError);
    }
    Ok(())
}

impl Tape {
    ghost use Rattle.std.specs.Prelude.{Some};
    ghost use Rattle.cmp_ports.specs.Disk.{Torn, Follows, Among, Settled, Elapses};
    ghost use Rattle.cmp_ports.specs.Tape.{tape_first, tape_images, tape_moment, tape_since};

    /// These octets, before any call.
    pub(crate) fn new(octets: Vec<u8>) -> Self
        ensures octets { result.octets.items ≡ octets.items }
        ensures first { tape_first result ≡ octets.items }
        ensures calls { result.calls.items ≡ [] }
    {
        let calls = Vec::new(*octets.allocator());
        Tape {
            octets,
            first: None,
            calls,
        }
    }

    /// Where the octets get their memory.
    pub(crate) fn allocator(&self) -> Global {
        *self.octets.allocator()
    }

    /// What reads give.
    pub(crate) fn octets(&self) -> &[u8]
        ensures { result.now ≡ self.now.octets.items }
    {
        &self.octets
    }

    /// What reads gave before the first call.
    pub(crate) fn first(&self) -> &[u8]
        ensures { result.now ≡ tape_first self.now }
    {
        match &self.first {
            Some(octets) => octets.as_slice(),
            None => &self.octets,
        }
    }

    /// The record, the first call first.
    pub(crate) fn calls(&self) -> &[Call]
        ensures { result.now ≡ self.now.calls.items }
    {
        &self.calls
    }

    /// Puts a call that moved nothing on the record.
    pub(crate) fn stand(&mut self) -> Result<(), AllocError>
        ensures calls { self.new.calls.items ≡ (if is_ok result then self.old.calls.items ++ Call.Still ∷ [] else self.old.calls.items) }
        ensures first { tape_first self.new ≡ tape_first self.old }
        ensures octets { self.new.octets.items ≡ self.old.octets.items }
        ensures crash { Among (tape_images self.old) (tape_images self.new) }
        ensures kept { Among (tape_images self.new) (tape_images self.old) }
        ensures time { Elapses (tape_moment self.old) (tape_moment self.new) (tape_since self.old) (tape_since self.new) (tape_images self.new) }
    {
        Ok(self.calls.push(Call::Still)?)
    }

    /// Puts a sync on the record.
    pub(crate) fn settle(&mut self) -> Result<(), AllocError>
        ensures durable { OnOk result (Settled (Some self.new.octets.items) (tape_images self.new)) }
        ensures calls { self.new.calls.items ≡ (if is_ok result then self.old.calls.items ++ Call.Synced ∷ [] else self.old.calls.items) }
        ensures first { tape_first self.new ≡ tape_first self.old }
        ensures octets { self.new.octets.items ≡ self.old.octets.items }
        ensures crash { Among (tape_images self.old) (tape_images self.new) }
        ensures time { Elapses (tape_moment self.old) (tape_moment self.new) (tape_since self.old) (tape_since self.new) (tape_images self.new) }
    {
        Ok(self.calls.push(Call::Synced)?)
    }

    /// Puts a write on the record, and does it where it is to be done.
    pub(crate) fn write(&mut self, at: u64, bytes: &[u8], done: bool) -> Result<(), AllocError>
        requires { at ≤ length self.old.octets.items }
        ensures calls { self.new.calls.items ≡ (if is_ok result then self.old.calls.items ++ (Call.Wrote at bytes.now done) ∷ [] else self.old.calls.items) }
        ensures first { tape_first self.new ≡ tape_first self.old }
        ensures undone { OnErr result (self.new.octets.items ≡ self.old.octets.items) }
        ensures written { OnOk result (self.new.octets.items ≡ (if done then overwritten at bytes.now self.old.octets.items else self.old.octets.items)) }
        ensures crash { Follows (Torn at (length bytes.now)) (tape_images self.old) (tape_images self.new) }
        ensures time { Elapses (tape_moment self.old) (tape_moment self.new) (tape_since self.old) (tape_since self.new) (tape_images self.new) }
    {
        write_parts(
            &mut self.octets,
            &mut self.first,
            &mut self.calls,
            at,
            bytes,
            done,
        )
    }
}
