//! Runs over the changes of an enrolment, which tests/vectors/history_vectors.py laid out with Python's `struct`: founding, a
//! listed device, its certificate and its confirmation.

use crate::{Signed, Source, Step, World, apply, world_law};
use deal_model::{Change, Key, read_change};
use hex::decode;
use std::alloc::{AllocError, Global};
use std::test::Fail;

const FOUND: &str =
    "01000000006553f1000000001530133111300f06035504030c08466c656574204341000000010000000500000004808182838485868788898a8b8c8d8e8f101112131415161718191a1b1c1d1e1f202122232425262728292a2b2c2d2e2f000000010000000500000004a0a1a2a3a4a5a6a7a8a9aaabacadaeaf303132333435363738393a3b3c3d3e3f404142434445464748494a4b4c4d4e4f0000012c0000012c000003e80000003c0000016d";

const ENLIST: &str = "02000000006553f100000101056465762d31087365637265742d3101";

const GRANT: &str =
    "0410000102030405060708090a0b0c0d0e0f0102030405060708090a0b0c0d0e0f101112131415161718191a1b1c1d1e1f2001056465762d3100000017a41530133111300f06035504030c086465766963652d310210505152535455565758595a5b5c5d5e5f8182838485868788898a8b8c8d8e8f909192939495969798999a9b9c9d9e9fa0000000006553f10000000000001530133111300f06035504030c086465766963652d3100000050304e300d060b2a864886f70d0109100311033d00000000010000000500000004404142434445464748494a4b4c4d4e4f505152535455565758595a5b5c5d5e5f606162636465666768696a6b6c6d6e6f00000010300e0603551d0f0101ff04040302078000000000000000000300000002";

const SETTLED: &str =
    "0a10000102030405060708090a0b0c0d0e0f02030405060708090a0b0c0d0e0f101112131415161718191a1b1c1d1e1f202101056465762d3100000017a41530133111300f06035504030c086465766963652d310210505152535455565758595a5b5c5d5e5f82838485868788898a8b8c8d8e8f909192939495969798999a9b9c9d9e9fa0a1000000006553f1000001";

/// A step whose change is given by its octets.
#[derive(Clone, Copy)]
enum Move {
    Found(&'static str),
    Propose(&'static str),
    Sync,
    SyncFail,
    Settle,
    Sign(u64),
    Send(u64),
    Crash(bool),
    Reopen,
}

fn change(alloc: Global, text: &str) -> Result<Change, Fail> {
    let octets: Vec<u8> = decode(alloc, text)?;
    Ok(read_change(alloc, &octets)?)
}

fn step(alloc: Global, it: &Move) -> Result<Step, Fail> {
    match it {
        Move::Found(text) => Ok(Step::Found(change(alloc, text)?)),
        Move::Propose(text) => Ok(Step::Propose(change(alloc, text)?)),
        Move::Sync => Ok(Step::Sync),
        Move::SyncFail => Ok(Step::SyncFail),
        Move::Settle => Ok(Step::Settle),
        Move::Sign(place) => Ok(Step::Sign(*place)),
        Move::Send(place) => Ok(Step::Send(*place)),
        Move::Crash(keep) => Ok(Step::Crash(*keep)),
        Move::Reopen => Ok(Step::Reopen),
    }
}

fn steps(alloc: Global, run: &[Move]) -> Result<Vec<Step>, Fail> {
    let mut steps = Vec::new(alloc);
    for it in run {
        steps.push(step(alloc, it)?)?;
    }
    Ok(steps)
}

/// Founding and an enrolment; its confirmation is in doubt when the service stops, and is kept or lost.
fn doubtful_run(keep: bool) -> [Move; 11] {
    [
        Move::Found(FOUND),
        Move::Propose(ENLIST),
        Move::Sync,
        Move::Propose(GRANT),
        Move::Sync,
        Move::Sign(3),
        Move::Send(3),
        Move::Propose(SETTLED),
        Move::SyncFail,
        Move::Crash(keep),
        Move::Reopen,
    ]
}

/// A change in doubt is taken back.
const SETTLED_RUN: [Move; 3] = [Move::Propose(ENLIST), Move::SyncFail, Move::Settle];

fn is_taken(alloc: Global, before: &[Step], step: &Step) -> Result<bool, AllocError> {
    let mut w = world_law(alloc, before)?;
    apply(alloc, &mut w, step)
}

/// Whether each step can be taken after those before it.
fn are_taken(alloc: Global, run: &[Move]) -> Result<bool, Fail> {
    let steps = steps(alloc, run)?;
    for (n, step) in steps.iter().enumerate() {
        if !is_taken(alloc, &steps[..n], step)? {
            return Ok(false);
        }
    }
    Ok(true)
}

#[test]
fn each_step_is_taken(rt: HostRuntime) -> Result<(), Fail> {
    assert!(rt; are_taken(rt.alloc(), &doubtful_run(false))?);
    assert!(rt; are_taken(rt.alloc(), &SETTLED_RUN)?);
    Ok(())
}

/// Whether the leaves 0 and 1 of the issuing key were signed with for the first change, and leaf 2 for the third.
fn are_three_leaves(signed: &[Signed]) -> bool {
    let places = [(0, 1), (1, 1), (2, 3)];
    signed.len() == 3
        && signed.iter().zip(&places).all(|(e, (leaf, place))| {
            e.key == Key::Issue && e.leaf == *leaf && e.source == Source::Place(*place)
        })
}

/// Whether so many changes stand, all of them acknowledged.
fn stand(w: &World, changes: u64) -> bool {
    w.durable.len() as u64 == changes && w.acked == changes
}

/// Whether the reply of the third change alone was sent.
fn is_third_sent(w: &World) -> bool {
    w.sent.as_slice() == [3].as_slice()
}

/// Whether so many changes stand after the run, of which the third was signed with and sent.
fn leaves(alloc: Global, run: &[Move], changes: u64) -> Result<bool, Fail> {
    let steps = steps(alloc, run)?;
    let w = world_law(alloc, &steps)?;
    Ok(stand(&w, changes) && is_third_sent(&w) && are_three_leaves(w.signed.as_slice()))
}

#[test]
fn what_was_in_doubt_is_lost_or_kept(rt: HostRuntime) -> Result<(), Fail> {
    assert!(rt; leaves(rt.alloc(), &doubtful_run(false), 3)?);
    assert!(rt; leaves(rt.alloc(), &doubtful_run(true), 4)?);
    Ok(())
}

/// Whether this step isn't taken after the others, of which three changes stand and the third was sent.
fn is_refused(alloc: Global, before: &[Step], step: &Step) -> Result<bool, AllocError> {
    let mut w = world_law(alloc, before)?;
    let is_taken = apply(alloc, &mut w, step)?;
    Ok(!is_taken && stand(&w, 3) && is_third_sent(&w))
}

#[test]
fn what_was_not_acknowledged_is_not_sent(rt: HostRuntime) -> Result<(), Fail> {
    let before = steps(rt.alloc(), &doubtful_run(false))?;
    assert!(rt; is_refused(rt.alloc(), &before, &Step::Send(4))?);
    Ok(())
}

#[test]
fn what_is_taken_back_does_not_stand(rt: HostRuntime) -> Result<(), Fail> {
    let steps = steps(rt.alloc(), &SETTLED_RUN)?;
    let w = world_law(rt.alloc(), &steps)?;
    assert!(rt; w.durable.len() == 1 && w.doubt.is_none());
    Ok(())
}
