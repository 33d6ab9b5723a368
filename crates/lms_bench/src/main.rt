//! Times one-time keys and signatures, for each LM-OTS typecode, and keys and signatures of trees. Prints a line for
//! each timing: its name, a tab, and the nanoseconds of one operation, the least of some turns. The word `quick` leaves
//! the tree of height 15 out. With any other word it prints nothing.
#![tactic(auto)]

mod trees;

use cmp_values::Octets;
use lm_ots::{KeyPart, candidate, public_hash, sign_ots};
use std::time::{Clock, Instant};
use std::{env, io};
use trees::{TREES, compression_time, four_compressions_time, grow_time, signature_times};

/// How many turns a timing has. They are short, so that some run without a pause.
const TURNS: u32 = 300;

/// The seed and the identifier of the key, and the text that is signed: those of the program beside this one.
const SEED: &[u8; 32] =
    b"\x00\x01\x02\x03\x04\x05\x06\x07\x08\x09\x0a\x0b\x0c\x0d\x0e\x0f\x10\x11\x12\x13\x14\x15\x16\x17\x18\x19\x1a\x1b\x1c\x1d\x1e\x1f";

const ID: &[u8; 16] = b"\x80\x81\x82\x83\x84\x85\x86\x87\x88\x89\x8a\x8b\x8c\x8d\x8e\x8f";

const TEXT: &[u8; 32] =
    b"\x20\x21\x22\x23\x24\x25\x26\x27\x28\x29\x2a\x2b\x2c\x2d\x2e\x2f\x30\x31\x32\x33\x34\x35\x36\x37\x38\x39\x3a\x3b\x3c\x3d\x3e\x3f";

/// The operations that are timed.
#[derive(Clone, Copy, Debug, PartialEq, Eq)]
enum Operation {
    PublicHash,
    Sign,
    Candidate,
}

/// The timings: the operation, its name, the LM-OTS typecode, and how many operations a turn has.
const TIMINGS: [(Operation, &str, u32, u32); 12] = [
    (Operation::PublicHash, "public_hash w1", 1, 5),
    (Operation::Sign, "sign_ots w1", 1, 5),
    (Operation::Candidate, "candidate w1", 1, 5),
    (Operation::PublicHash, "public_hash w2", 2, 5),
    (Operation::Sign, "sign_ots w2", 2, 5),
    (Operation::Candidate, "candidate w2", 2, 5),
    (Operation::PublicHash, "public_hash w4", 3, 3),
    (Operation::Sign, "sign_ots w4", 3, 3),
    (Operation::Candidate, "candidate w4", 3, 3),
    (Operation::PublicHash, "public_hash w8", 4, 1),
    (Operation::Sign, "sign_ots w8", 4, 1),
    (Operation::Candidate, "candidate w8", 4, 1),
];

/// One operation with the one-time key `q`; gives an octet of its result. Sign leaves its signature in `signature`,
/// and Candidate reads the one that stands there, of key 0.
fn once(operation: Operation, key: &KeyPart, q: u32, signature: &mut Octets) -> u8 {
    match operation {
        Operation::PublicHash => public_hash(key, q).map_or(0, |hash| hash[0]),
        Operation::Sign => {
            signature.clear();
            u8::from(sign_ots(key, q, TEXT, signature).is_ok())
        }
        Operation::Candidate => {
            candidate(&key.id, 0, key.ots, TEXT, signature.as_slice()).map_or(0, |hash| hash[0])
        }
    }
}

/// The nanoseconds of one operation, the least of the turns; `seen` gathers what came out.
fn least<C: Clock>(
    clock: &C,
    operation: Operation,
    key: &KeyPart,
    count: u32,
    signature: &mut Octets,
    seen: &mut u8,
) -> io::Result<u128> {
    *seen ^= once(Operation::Sign, key, 0, signature);
    let mut least = u128::MAX;
    for _ in 0..TURNS {
        let start = Instant::now(clock)?;
        for q in 0..count {
            *seen ^= once(operation, key, q, signature);
        }
        let nanos = start.elapsed(clock)?.as_nanos();
        least = least.min(nanos / u128::from(count.max(1)));
    }
    Ok(least)
}

fn main(rt: HostRuntime) -> io::Result<()> {
    let mut quick = false;
    for word in env::args(&rt)?.skip(1) {
        if word.as_str() != "quick" {
            return Ok(());
        }
        quick = true;
    }
    let mut signature = Octets::empty(rt.alloc());
    let mut seen = 0;
    let nanos = compression_time(&rt, &mut seen)?;
    println!(rt; "compression\t{nanos}")?;
    let nanos = four_compressions_time(&rt, &mut seen)?;
    println!(rt; "four compressions\t{nanos}")?;
    for (operation, name, ots, count) in TIMINGS {
        let key = KeyPart {
            seed: *SEED,
            id: *ID,
            ots,
        };
        let nanos = least(&rt, operation, &key, count, &mut signature, &mut seen)?;
        println!(rt; "{name}\t{nanos}")?;
    }
    for tree in TREES {
        if quick && tree.turns == 1 {
            continue;
        }
        let (nanos, key) = grow_time(&rt, rt.alloc(), tree.set, tree.turns)?;
        println!(rt; "grow {}\t{nanos}", tree.name)?;
        let (signed, verified) = signature_times(&rt, &key, &mut seen)?;
        println!(rt; "sign {}, first leaf\t{signed}", tree.name)?;
        println!(rt; "verify {}\t{verified}", tree.name)?;
    }
    println!(rt; "seen {seen}")?;
    Ok(())
}
