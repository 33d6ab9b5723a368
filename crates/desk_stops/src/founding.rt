ghost use Rattle.std.specs.Prelude.{◌≡◌, IfOk};
ghost use Rattle.world_core.specs.Steps.{first_settings};

use crate::logs::{lapsed, mounted, ordered};
use cmp_ports::{MemDisk, Octets, Order, Short};
use deal_model::{Change, Settings};
use desk::{Desk, FoundFault, Lapsed, Ordered};
use std::alloc::{AllocError, Global};
use std::test::Fail;

/// One level, a tree of type 5, one-time signatures of type 4, and octets 01 behind them (RFC 8554, 4.1, 5.1 and 6.1).
const KEY: [u8; 60] = [
    0, 0, 0, 1, 0, 0, 0, 5, 0, 0, 0, 4, 1, 1, 1, 1, 1, 1, 1, 1, 1, 1, 1, 1, 1, 1, 1, 1, 1, 1, 1, 1,
    1, 1, 1, 1, 1, 1, 1, 1, 1, 1, 1, 1, 1, 1, 1, 1, 1, 1, 1, 1, 1, 1, 1, 1, 1, 1, 1, 1,
];

/// The name CN=x.
const NAME: [u8; 14] = [0x30, 12, 0x31, 10, 0x30, 8, 6, 3, 85, 4, 3, 12, 1, 120];

fn settings(alloc: Global) -> Result<Settings, AllocError>
    ensures { IfOk result (λ s. s ≡ first_settings) }
{
    Ok(Settings {
        time: 0,
        name: Octets::copy_of(alloc, &NAME)?,
        issue_key: KEY,
        reply_key: KEY,
        wait: 1,
        skew: 1,
        rounds: 1,
        check_after: 1,
        days: 1,
    })
}

fn found(
    alloc: Global,
    disk: MemDisk,
) -> Result<Result<Desk<MemDisk>, (MemDisk, FoundFault)>, AllocError> {
    let settings = settings(alloc)?;
    Ok(Desk::found(alloc, disk, &settings, 0))
}

fn fault_of(found: Result<Desk<MemDisk>, (MemDisk, FoundFault)>) -> Option<FoundFault> {
    match found {
        Ok(_) => None,
        Err((_, fault)) => Some(fault),
    }
}

fn is_first(change: &Change) -> bool {
    match change {
        Change::Found(settings) => {
            settings.time == 0
                && settings.name.as_slice() == NAME.as_slice()
                && settings.issue_key == KEY
        }
        _ => false,
    }
}

fn founded(alloc: Global) -> Result<Desk<MemDisk>, Fail> {
    match found(alloc, MemDisk::new(Vec::new(alloc)))? {
        Ok(desk) => Ok(desk),
        Err(_) => Err("not founded".into()),
    }
}

// Whether the desk has one change, and neither lapses anything nor obeys an order.
fn is_idle(desk: &mut Desk<MemDisk>) -> bool {
    desk.length() == 1
        && lapsed(desk, 7) == Lapsed::Nothing
        && ordered(desk, &Order::Release(Short::empty()), 7) == Ordered::NotHeld
        && ordered(desk, &Order::Bad, 7) == Ordered::NotHeld
}

// Whether the founding is the one change of the desk.
fn is_founded(desk: &Desk<MemDisk>) -> bool {
    desk.length() == 1 && is_first(desk.change_at(1))
}

// The disk of a service that was founded and mounted again, where its desk is idle and then has its founding alone.
fn founded_disk(alloc: Global) -> Result<Option<MemDisk>, Fail> {
    let mut desk = founded(alloc)?;
    if !is_idle(&mut desk) {
        return Ok(None);
    }
    let desk = mounted(alloc, desk.into_disk())?;
    if is_founded(&desk) {
        Ok(Some(desk.into_disk()))
    } else {
        Ok(None)
    }
}

#[test]
fn a_service_is_founded_once(rt: HostRuntime) -> Result<(), Fail> {
    let Some(disk) = founded_disk(rt.alloc())? else {
        return Err("not founded".into());
    };
    // Eight octets, a gate, four octets of length, a change of 167, and a closed gate.
    assert!(rt; disk.octets().len() == 181);
    assert!(rt; fault_of(found(rt.alloc(), disk)?) == Some(FoundFault::Already));
    Ok(())
}

// Why a service isn't founded on a disk of which this call fails.
fn fault_at(alloc: Global, call: u64) -> Result<Option<FoundFault>, Fail> {
    let fails = vec![in alloc; call]?;
    Ok(fault_of(found(alloc, MemDisk::failing(Vec::new(alloc), fails))?))
}

#[test]
fn a_disk_that_fails_is_not_founded(rt: HostRuntime) -> Result<(), Fail> {
    for call in 1..=9u64 {
        assert!(rt;
            fault_at(rt.alloc(), call)? == Some(FoundFault::DiskFault),
            "call {call}"
        );
    }
    Ok(())
}
