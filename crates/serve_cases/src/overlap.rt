//! Two sessions at once.

use crate::gates::{Held, Passer, Stages};
use crate::runs::{check_lines, is_written, key_file, octets_of, serve, station_of};
use crate::vectors::{FIRST, FIRST_GRANTED, LISTED, SECOND, SECOND_GRANTED};
use cmp_links::{EndCause, MemDoor};
use cmp_ports::{ListClock, ListEntropy, ListOrders, MemDisk, MemSink};
use std::alloc::Global;
use std::process::Abort;
use std::sync::Wait;
use std::test::Fail;
use std::thread::Threads;
use workers::Station;

/// Whether the session over the last link of a door was closed, and this was written to it.
fn is_served(alloc: Global, door: &MemDoor, owed: &str) -> Result<bool, Fail> {
    match door.last() {
        Some(last) => {
            Ok(last.end().cause == EndCause::Closed && is_written(alloc, last.link(), owed)?)
        }
        None => Ok(false),
    }
}

/// Two stations, at each of which one ir is asked.
fn two_stations<'a>(
    alloc: Global,
    stages: &'a Stages,
) -> Result<Vec<Station<MemDoor, ListClock, ListEntropy, Held<'a>>>, Fail> {
    let mut stations = Vec::new(alloc);
    stations.push(station_of(alloc, FIRST, 0xb0, stages, Passer::First)?)?;
    stations.push(station_of(alloc, SECOND, 0xd0, stages, Passer::Second)?)?;
    Ok(stations)
}

/// Whether each of two stations served its session.
fn are_served(
    alloc: Global,
    stations: &[Station<MemDoor, ListClock, ListEntropy, Held<'_>>],
) -> Result<bool, Fail> {
    match stations {
        [first, second] => Ok(
            is_served(alloc, &first.door, FIRST_GRANTED)?
                && is_served(alloc, &second.door, SECOND_GRANTED)?,
        ),
        _ => Ok(false),
    }
}

/// Serves both, and looks at what is written and at how the history stands on the disk.
fn check_overlap<R: Threads + Wait + Sync + Abort>(
    rt: &R,
    alloc: Global,
    stages: &Stages,
) -> Result<(), Fail> {
    let mut stations = two_stations(alloc, stages)?;
    let mut disk = MemDisk::new(octets_of(alloc, LISTED)?);
    let mut out = MemSink::new(alloc);
    let status = serve(
        rt,
        alloc,
        &["journal", "key", "serve", "8443", "2", "1", "orders"],
        key_file(alloc)?,
        &mut disk,
        &mut stations,
        ListOrders::new(Vec::new(alloc)),
        stages,
        &mut out,
    )?;
    let text = b"connections 2\nchanges 4\norders 0 done 0 refused\n";
    assert_eq!(rt; out.written(), text.as_slice());
    assert_eq!(rt; status.number(), 0);
    assert!(rt; are_served(alloc, &stations)?);
    let lines =
        "changes 4\nissue 4 of 32\nreply 0 of 32\ncert 3 open 1700000300 101112131415161718191a1b1c1d1e1f\ncert 4 open 1700000300 000102030405060708090a0b0c0d0e0f\n";
    check_lines(rt, alloc, &mut disk, lines)
}

// The first answer has looked, and is held until the second one, which has looked behind it, has its reply: so the second one gets the
// first certificate. Workers one after the other would leave one of the two gates turning for as long as it may.
#[test]
fn two_sessions_overlap(rt: HostRuntime) -> Result<(), Fail> {
    let stages = Stages::new();
    check_overlap(&rt, rt.alloc(), &stages)?;
    assert!(rt; !stages.is_late());
    Ok(())
}
