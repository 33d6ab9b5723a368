//! A disk: one file of octets, what a read of it gives, and what a crash may leave of it.
ghost use Rattle.std.specs.Prelude.{◌≡◌, ◌+◌, ◌^◌, ◌<◌, ◌≤◌, ℕ, List, length, take, drop, Option, Some, option_map, IfOk, OnOk};
ghost use Rattle.cmp_ports.specs.Disk.{Torn, Follows, Among, Settled, Elapses, overwritten};
ghost use Rattle.cmp_ports.specs.Faults.{HasCause};

use crate::Failed;

/// One file, read and written at offsets in octets.
///
/// Between two syncs that succeed each written range, and the part past the old end, may hold any octets after a
/// crash; octets outside stay. After a sync that succeeds a crash leaves what a read gives. A failed write or sync
/// leaves its ranges in that state of doubt. A real file tells neither content nor images.
pub trait Disk {
    /// What reads give, where the disk tells it.
    ghost content: { Self → Option (List ℕ) };

    /// What a crash at this moment may leave.
    ghost images: { Self → List ℕ → Type 0 };

    /// The moment, as a number that doesn't fall.
    ghost moment: { Self → ℕ };

    /// What a crash at some moment from that one on might have left, during a call or between two.
    ghost left_since: { Self → ℕ → List ℕ → Type 0 };

    /// How often the disk has failed.
    ghost faults: { Self → ℕ };

    /// The loan by which a lent disk is held, by its number; that of a disk that is owned stays the same number. A call keeps it,
    /// so whoever lent the disk knows at the end that it is this one.
    ghost loan: { Self → ℕ };

    /// The number of octets.
    fn size(&mut self) -> Result<u64, Failed>
        ensures length { IfOk result (λ n. (f : List ℕ) → content self.old ≡ Some f → n ≡ length f) }
        ensures same { content self.new ≡ content self.old }
        ensures crash { Among (images self.old) (images self.new) }
        ensures kept { Among (images self.new) (images self.old) }
        ensures time { Elapses (moment self.old) (moment self.new) (left_since self.old) (left_since self.new) (images self.new) }
        ensures cause { HasCause (faults self.old) (faults self.new) result }
        ensures loan { loan self.new ≡ loan self.old };

    /// Reads octets from an offset on into the front of `into`, and answers how many: 0 for a non-empty `into` only
    /// at or past the end.
    fn read_at(&mut self, at: u64, into: &mut [u8]) -> Result<usize, Failed>
        ensures bound { IfOk result (λ n. n ≤ length into.new) }
        ensures octets { IfOk result (λ n. (f : List ℕ) → content self.old ≡ Some f → take n into.new ≡ take n (drop at f)) }
        ensures end { IfOk result (λ n. (f : List ℕ) → content self.old ≡ Some f → n ≡ 0 → 0 < length into.new → length f ≤ at) }
        ensures same { content self.new ≡ content self.old }
        ensures crash { Among (images self.old) (images self.new) }
        ensures kept { Among (images self.new) (images self.old) }
        ensures time { Elapses (moment self.old) (moment self.new) (left_since self.old) (left_since self.new) (images self.new) }
        ensures cause { HasCause (faults self.old) (faults self.new) result }
        ensures loan { loan self.new ≡ loan self.old };

    /// Writes over what is there from an offset on, and past the end.
    fn write_at(&mut self, at: u64, bytes: &[u8]) -> Result<(), Failed>
        requires inside { (f : List ℕ) → content self.old ≡ Some f → at ≤ length f }
        requires small { at + length bytes.now ≤ 2 ^ 40 }
        ensures written { OnOk result (content self.new ≡ option_map (overwritten at bytes.now) (content self.old)) }
        ensures crash { Follows (Torn at (length bytes.now)) (images self.old) (images self.new) }
        ensures time { Elapses (moment self.old) (moment self.new) (left_since self.old) (left_since self.new) (images self.new) }
        ensures cause { HasCause (faults self.old) (faults self.new) result }
        ensures loan { loan self.new ≡ loan self.old };

    /// Brings what was written to the disk.
    fn sync(&mut self) -> Result<(), Failed>
        ensures durable { OnOk result (Settled (content self.new) (images self.new)) }
        ensures same { content self.new ≡ content self.old }
        ensures crash { Among (images self.old) (images self.new) }
        ensures time { Elapses (moment self.old) (moment self.new) (left_since self.old) (left_since self.new) (images self.new) }
        ensures cause { HasCause (faults self.old) (faults self.new) result }
        ensures loan { loan self.new ≡ loan self.old };

    /// This moment is one of those since an earlier one.
    ghost counts_now: { (d : Self) (t : ℕ) (c : List ℕ) → t ≤ moment d → images d c → left_since d t c };

    /// Since this moment there is no other.
    ghost only_now: { (d : Self) (c : List ℕ) → left_since d (moment d) c → images d c };

    /// What reads give is one of the images.
    ghost honest: { (d : Self) (f : List ℕ) → content d ≡ Some f → images d f };
}

impl<D: Disk> Disk for &mut D {
    ghost content = { λ d. D.content d.now };

    ghost images = { λ d. D.images d.now };

    ghost moment = { λ d. D.moment d.now };

    ghost left_since = { λ d. D.left_since d.now };

    ghost faults = { λ d. D.faults d.now };

    ghost loan = { λ d. d.ghost_name };

    ghost counts_now = { λ d. D.counts_now d.now };

    ghost only_now = { λ d. D.only_now d.now };

    ghost honest = { λ d. D.honest d.now };

    fn size(&mut self) -> Result<u64, Failed> {
        (**self).size()
    }

    fn read_at(&mut self, at: u64, into: &mut [u8]) -> Result<usize, Failed> {
        (**self).read_at(at, into)
    }

    fn write_at(&mut self, at: u64, bytes: &[u8]) -> Result<(), Failed> {
        (**self).write_at(at, bytes)
    }

    fn sync(&mut self) -> Result<(), Failed> {
        (**self).sync()
    }
}
