//! What all workers share.
ghost use Rattle.std.specs.Prelude.{◌≡◌};

use cmp_ports::Disk;
use desk::Desk;
use reply_maker::Keys;
use std::alloc::Global;
use std::sync::atomic::AtomicU64;
use turnstile::Turnstile;

/// What all workers share: the desk behind its turnstile, the keys of the replies, and how many streams each serves.
#[derive(Drop)]
pub struct Workers<'a, D: Disk + Drop, R> {
    pub(crate) alloc: Global,
    pub(crate) rt: &'a R,
    pub(crate) keys: &'a Keys,
    pub(crate) stile: &'a Turnstile<Desk<D>>,
    /// How many streams each serves.
    pub(crate) count: u32,
    /// How many workers aren't done yet.
    pub(crate) left: &'a AtomicU64,
}

impl<'a, D: Disk + Drop, R> Workers<'a, D, R> {
    /// Workers over this desk, under these keys, who each serve so many streams. Each that is done is taken from the count of those
    /// left.
    pub fn new(
        alloc: Global,
        rt: &'a R,
        keys: &'a Keys,
        stile: &'a Turnstile<Desk<D>>,
        count: u32,
        left: &'a AtomicU64,
    ) -> Workers<'a, D, R>
        ensures keys { result.keys.now ≡ keys.now }
        ensures stile { result.stile.now ≡ stile.now }
        ensures count { result.count ≡ count }
    {
        Workers {
            alloc,
            rt,
            keys,
            stile,
            count,
            left,
        }
    }
}
