//! A disk in memory, with a record of its calls.
ghost use Rattle.std.specs.Prelude.{◌≡◌, ◌+◌, ◌<◌, ◌≤◌, length, take, drop, Some};

mod call;
mod stop;
mod tape;
#[cfg(test)]
mod tests;

use crate::schedule::Schedule;
use crate::{Disk, Failed};
use std::alloc::AllocError;
use tape::Tape;

/// A disk in memory. It keeps a record of its calls, so that it can tell what a crash may leave, and can be stopped
/// after each of them. Where it is refused memory, the call answers `Failed`.
#[derive(Drop)]
pub struct MemDisk {
    tape: Tape,
    schedule: Schedule,
}

// Copies octets from an offset on to the front of `into`, and answers how many.
fn read_part(octets: &[u8], at: u64, into: &mut [u8]) -> usize
    ensures bound { result ≤ length into.new }
    ensures octets { take result into.new ≡ take result (drop at octets.now) }
    ensures end { result ≡ 0 → 0 < length into.new → length octets.now ≤ at }
{
    let start = (at as usize).min(octets.len());
    let part = octets.split_at(start).1;
    let count = part.len().min(into.len());
    into[..count].copy_from_slice(part.split_at(count).0);
    count
}

impl MemDisk {
    ghost use Rattle.std.specs.Prelude.{[], IfOk, OnErr};
    ghost use Rattle.cmp_ports.specs.Replay.{IsImage, left_after};
    ghost use Rattle.cmp_ports.specs.MemDisk.{memory_content, memory_first, memory_calls, memory_listed, memory_made, IsFresh};

    /// A disk that holds these octets, and of which no call fails but for want of memory.
    pub fn new(content: Vec<u8>) -> MemDisk
        ensures fresh { IsFresh «content».items result }
        ensures fails { memory_listed result ≡ [] }
        ensures made { memory_made result ≡ 0 }
    {
        MemDisk {
            tape: Tape::new(content),
            schedule: Schedule::none(),
        }
    }

    /// A disk that holds these octets, and whose calls of these numbers fail, counted from 1.
    pub fn failing(content: Vec<u8>, fails: Vec<u64>) -> MemDisk
        ensures fresh { IsFresh «content».items result }
        ensures fails { memory_listed result ≡ fails.items }
        ensures made { memory_made result ≡ 0 }
    {
        MemDisk {
            tape: Tape::new(content),
            schedule: Schedule::of(fails),
        }
    }

    /// What reads give.
    pub fn octets(&self) -> &[u8]
        ensures { result.now ≡ memory_content self.now }
    {
        self.tape.octets()
    }

    /// The number of calls on the record: all calls, but those that found no memory.
    pub fn calls(&self) -> u64
        ensures { result ≡ length (memory_calls self.now) }
    {
        self.tape.calls().len() as u64
    }

    /// The disk that a stop after so many calls of the record leaves. Its doubtful ranges hold the octets of the last
    /// sync, and its size is that of the last sync (choice 0), or they hold the written octets (1), octets 0 (2) or
    /// octets 1 (3). `AllocError` where memory runs out.
    pub fn after_stop(&self, calls: u64, choice: u8) -> Result<MemDisk, AllocError>
        requires made { calls ≤ length (memory_calls self.now) }
        requires choice { choice ≤ 3 }
        ensures left { IfOk result (IsFresh (left_after choice (memory_first self.now) (memory_first self.now) (take calls (memory_calls self.now)))) }
        ensures image { IfOk result (λ d. IsImage (memory_first self.now) (take calls (memory_calls self.now)) (memory_content d)) }
    {
        let alloc = self.tape.allocator();
        let (made, _) = self.tape.calls().split_at(calls as usize);
        Ok(MemDisk::new(stop::left(alloc, self.tape.first(), made, choice)?))
    }
}

impl Disk for MemDisk {
    ghost use Rattle.std.specs.Prelude.{ℕ, ◌^◌, List, is_ok, if◌then◌else◌, IfOk, OnOk, OnErr};
    ghost use Rattle.cmp_ports.specs.declared.mem_disk.call.Call.TheVariants.{Still, Wrote, Synced};
    ghost use Rattle.cmp_ports.specs.Disk.{Torn, Follows, Among, Settled, Elapses, overwritten};
    ghost use Rattle.cmp_ports.specs.Faults.{HasCause};
    ghost use Rattle.cmp_ports.specs.MemDisk.{memory_content, memory_images, memory_moment, memory_since, memory_faults, memory_loan, Plays, Records};
    ghost use Rattle.cmp_ports.specs.MemDiskLaws.{counts_now, only_now, is_honest};

    ghost content = { λ d. Some (memory_content d) };

    ghost images = { memory_images };

    ghost moment = { memory_moment };

    ghost left_since = { memory_since };

    ghost faults = { memory_faults };

    ghost loan = { memory_loan };

    ghost counts_now = { counts_now };

    ghost only_now = { only_now };

    ghost honest = { is_honest };

    fn size(&mut self) -> Result<u64, Failed>
        ensures length { IfOk result (λ n. (f : List ℕ) → Some (memory_content self.old) ≡ Some f → n ≡ length f) }
        ensures same { Some (memory_content self.new) ≡ Some (memory_content self.old) }
        ensures crash { Among (memory_images self.old) (memory_images self.new) }
        ensures kept { Among (memory_images self.new) (memory_images self.old) }
        ensures time { Elapses (memory_moment self.old) (memory_moment self.new) (memory_since self.old) (memory_since self.new) (memory_images self.new) }
        ensures cause { HasCause (memory_faults self.old) (memory_faults self.new) result }
        ensures loan { memory_loan self.new ≡ memory_loan self.old }
        ensures plays { Plays self.old self.new result }
        ensures on_record { Records self.old self.new result Still }
    {
        let due = self.schedule.call();
        let noted = self.tape.stand();
        due?;
        if noted.is_err() {
            return Err(self.schedule.fault());
        }
        Ok(self.tape.octets().len() as u64)
    }

    fn read_at(&mut self, at: u64, into: &mut [u8]) -> Result<usize, Failed>
        ensures bound { IfOk result (λ n. n ≤ length into.new) }
        ensures octets { IfOk result (λ n. (f : List ℕ) → Some (memory_content self.old) ≡ Some f → take n into.new ≡ take n (drop at f)) }
        ensures end { IfOk result (λ n. (f : List ℕ) → Some (memory_content self.old) ≡ Some f → n ≡ 0 → 0 < length into.new → length f ≤ at) }
        ensures same { Some (memory_content self.new) ≡ Some (memory_content self.old) }
        ensures crash { Among (memory_images self.old) (memory_images self.new) }
        ensures kept { Among (memory_images self.new) (memory_images self.old) }
        ensures time { Elapses (memory_moment self.old) (memory_moment self.new) (memory_since self.old) (memory_since self.new) (memory_images self.new) }
        ensures cause { HasCause (memory_faults self.old) (memory_faults self.new) result }
        ensures loan { memory_loan self.new ≡ memory_loan self.old }
        ensures plays { Plays self.old self.new result }
        ensures on_record { Records self.old self.new result Still }
    {
        let due = self.schedule.call();
        let noted = self.tape.stand();
        due?;
        if noted.is_err() {
            return Err(self.schedule.fault());
        }
        Ok(read_part(self.tape.octets(), at, into))
    }

    /// A write that fails is not done, and leaves its range in doubt.
    fn write_at(&mut self, at: u64, bytes: &[u8]) -> Result<(), Failed>
        requires inside { (f : List ℕ) → Some (memory_content self.old) ≡ Some f → at ≤ length f }
        requires small { at + length bytes.now ≤ 2 ^ 40 }
        ensures written { OnOk result (Some (memory_content self.new) ≡ Some (overwritten at bytes.now (memory_content self.old))) }
        ensures crash { Follows (Torn at (length bytes.now)) (memory_images self.old) (memory_images self.new) }
        ensures time { Elapses (memory_moment self.old) (memory_moment self.new) (memory_since self.old) (memory_since self.new) (memory_images self.new) }
        ensures cause { HasCause (memory_faults self.old) (memory_faults self.new) result }
        ensures loan { memory_loan self.new ≡ memory_loan self.old }
        ensures plays { Plays self.old self.new result }
        ensures on_record { Records self.old self.new result (Wrote at bytes.now (is_ok result)) }
        ensures undone { OnErr result (memory_content self.new ≡ memory_content self.old) }
    {
        let due = self.schedule.call();
        let noted = self.tape.write(at, bytes, due.is_ok());
        due?;
        if noted.is_err() {
            return Err(self.schedule.fault());
        }
        Ok(())
    }

    /// A sync that fails brings nothing to the disk.
    fn sync(&mut self) -> Result<(), Failed>
        ensures durable { OnOk result (Settled (Some (memory_content self.new)) (memory_images self.new)) }
        ensures same { Some (memory_content self.new) ≡ Some (memory_content self.old) }
        ensures crash { Among (memory_images self.old) (memory_images self.new) }
        ensures time { Elapses (memory_moment self.old) (memory_moment self.new) (memory_since self.old) (memory_since self.new) (memory_images self.new) }
        ensures cause { HasCause (memory_faults self.old) (memory_faults self.new) result }
        ensures loan { memory_loan self.new ≡ memory_loan self.old }
        ensures plays { Plays self.old self.new result }
        ensures on_record { Records self.old self.new result (if is_ok result then Synced else Still) }
    {
        if let Err(failed) = self.schedule.call() {
            let _ = self.tape.stand();
            return Err(failed);
        }
        if self.tape.settle().is_err() {
            return Err(self.schedule.fault());
        }
        Ok(())
    }
}
