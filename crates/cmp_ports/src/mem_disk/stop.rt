//! What a stop leaves: the calls of a record, done again on two copies of the octets at first.
ghost use Rattle.std.specs.Prelude.{◌≡◌, ◌+◌, ◌<◌, ◌≤◌, length, nat_le, if◌then◌else◌, IfOk, OnOk};
ghost use Rattle.cmp_ports.specs.Replay.{put_over, content_step, filling, left_step, left_after};

use super::call::Call;
use super::tape::put;
use std::alloc::{AllocError, Global};

// Writes octets over those from an offset on, where it lies inside them or at their end.
fn write_over(octets: &mut Vec<u8>, at: u64, bytes: &[u8]) -> Result<(), AllocError>
    ensures { OnOk result (octets.new.items ≡ put_over at bytes.now octets.old.items) }
{
    if at as usize <= octets.len() {
        put(octets, at as usize, bytes)?;
    }
    Ok(())
}

// What a range in doubt holds.
fn fill(alloc: Global, choice: u8, octets: &[u8]) -> Result<Vec<u8>, AllocError>
    requires { 0 < choice }
    ensures { IfOk result (λ v. v.items ≡ filling choice octets.now) }
{
    if choice == 1 {
        octets.to_vec(alloc)
    } else {
        vec![in alloc; choice - 2; octets.len()]
    }
}

fn step(file: &mut Vec<u8>, image: &mut Vec<u8>, call: &Call, choice: u8) -> Result<(), AllocError>
    ensures file { OnOk result (file.new.items ≡ content_step file.old.items call.now) }
    ensures image { OnOk result (image.new.items ≡ left_step choice file.old.items image.old.items call.now) }
{
    match call {
        Call::Still => Ok(()),
        Call::Wrote { at, octets, done } => {
            if choice != 0 {
                let filler = fill(*image.allocator(), choice, octets.as_slice())?;
                write_over(image, *at, &filler)?;
            }
            if *done {
                write_over(file, *at, octets.as_slice())?;
            }
            Ok(())
        }
        Call::Synced => {
            *image = file.to_vec(*file.allocator())?;
            Ok(())
        }
    }
}

/// What a stop after these calls leaves.
pub(super) fn left(
    alloc: Global,
    first: &[u8],
    calls: &[Call],
    choice: u8,
) -> Result<Vec<u8>, AllocError>
    ensures { IfOk result (λ v. v.items ≡ left_after choice first.now first.now calls.now) }
{
    let mut file = first.to_vec(alloc)?;
    let mut image = first.to_vec(alloc)?;
    for call in calls {
        step(&mut file, &mut image, call, choice)?;
    }
    Ok(image)
}
