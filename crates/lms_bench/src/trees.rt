// Times the keys and signatures of trees.

use crate::{ID, SEED, TEXT};
use lms_tree::{GrowFault, Set, TreeKey, verify};
use sha_lanes::compress4;
use sha2::{Digest, Sha256};
use std::alloc::Global;
use std::io;
use std::simd::u32x4;
use std::time::{Clock, Instant};

/// A tree that is timed: how its timings are called, its sets, and how often it is grown.
#[derive(Clone, Copy)]
pub struct Timing {
    pub name: &'static str,
    pub set: Set,
    pub turns: u32,
}

/// Trees of three heights over digits of 4 bits, and one over digits of 8.
pub const TREES: [Timing; 4] = [
    Timing {
        name: "h5 w8",
        set: Set { tree: 5, ots: 4 },
        turns: 20,
    },
    Timing {
        name: "h5 w4",
        set: Set { tree: 5, ots: 3 },
        turns: 60,
    },
    Timing {
        name: "h10 w4",
        set: Set { tree: 6, ots: 3 },
        turns: 5,
    },
    Timing {
        name: "h15 w4",
        set: Set { tree: 7, ots: 3 },
        turns: 1,
    },
];

const SIGNATURES: u32 = 20;

/// How many hashes of one block a turn has, and how many turns there are.
const HASHES: u32 = 20;

/// The nanoseconds of a hash over 55 octets, which is one compression: a step of a chain hashes as much.
pub fn compression_time<C: Clock>(clock: &C, seen: &mut u8) -> io::Result<u128> {
    let mut block = [0u8; 55];
    let mut least = u128::MAX;
    for _ in 0..1000u32 {
        let start = Instant::now(clock)?;
        for _ in 0..HASHES {
            let hash = Sha256::digest(&block);
            block[0] = hash[0];
        }
        least = least.min(start.elapsed(clock)?.as_nanos() / u128::from(HASHES));
    }
    *seen ^= block[0];
    Ok(least)
}

/// The nanoseconds of four compressions side by side.
pub fn four_compressions_time<C: Clock>(clock: &C, seen: &mut u8) -> io::Result<u128> {
    let words = [u32x4::splat(1); 16];
    let mut state = [u32x4::splat(2); 8];
    let mut least = u128::MAX;
    for _ in 0..1000u32 {
        let start = Instant::now(clock)?;
        for _ in 0..HASHES {
            let next = compress4(state, &words);
            state = next;
        }
        least = least.min(start.elapsed(clock)?.as_nanos() / u128::from(HASHES));
    }
    *seen ^= state[0].as_array()[0].to_le_bytes()[0];
    Ok(least)
}

/// The nanoseconds of growing a tree, the least of the turns, and the key of the last one.
pub fn grow_time<C: Clock>(
    clock: &C,
    alloc: Global,
    set: Set,
    turns: u32,
) -> io::Result<(u128, TreeKey)> {
    let start = Instant::now(clock)?;
    let mut key = grow(alloc, set)?;
    let mut least = start.elapsed(clock)?.as_nanos();
    for _ in 1..turns {
        let start = Instant::now(clock)?;
        key = grow(alloc, set)?;
        least = least.min(start.elapsed(clock)?.as_nanos());
    }
    Ok((least, key))
}

// The key of a tree.
fn grow(alloc: Global, set: Set) -> io::Result<TreeKey> {
    match TreeKey::grow(alloc, SEED, ID, set) {
        Ok(key) => Ok(key),
        Err(GrowFault::BadSet) => Err(io::Error::from(io::ErrorKind::InvalidInput)),
        Err(GrowFault::NoMemory) => Err(io::Error::from(io::ErrorKind::OutOfMemory)),
    }
}

/// The nanoseconds of signing by the first leaf and of verifying, the least of some turns each.
pub fn signature_times<C: Clock>(
    clock: &C,
    key: &TreeKey,
    seen: &mut u8,
) -> io::Result<(u128, u128)> {
    let public = key.public();
    let mut signing = u128::MAX;
    let mut verifying = u128::MAX;
    for _ in 0..SIGNATURES {
        let start = Instant::now(clock)?;
        let Ok(sig) = key.sign(0, TEXT) else {
            return Err(io::Error::from(io::ErrorKind::OutOfMemory));
        };
        signing = signing.min(start.elapsed(clock)?.as_nanos());
        let start = Instant::now(clock)?;
        *seen ^= u8::from(verify(&public, TEXT, sig.as_slice()));
        verifying = verifying.min(start.elapsed(clock)?.as_nanos());
    }
    Ok((signing, verifying))
}
