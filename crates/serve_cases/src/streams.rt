//! One worker's sessions, one after the other.

use crate::gates::{Held, Passer, Stages};
use crate::runs::{NOW, check_lines, is_written, key_file, link_of, octets_of, serve, words_from};
use crate::vectors::{BROKEN, CONFIRM, ENROLLED, FIRST, LISTED, REJECTED};
use cmp_links::{EndCause, Finished, MemDoor, MemLink};
use cmp_ports::{ListClock, ListEntropy, ListOrders, MemDisk, MemSink, Outcome};
use std::alloc::Global;
use std::process::Abort;
use std::sync::Wait;
use std::test::Fail;
use std::thread::Threads;
use workers::Station;

/// A door with a link that holds the two requests of an enrolment, and behind it one that breaks off in a request.
fn door_of_two(alloc: Global) -> Result<MemDoor, Fail> {
    let mut both = octets_of(alloc, FIRST)?;
    let confirm = octets_of(alloc, CONFIRM)?;
    both.extend_from_slice(&confirm)?;
    let mut links = Vec::new(alloc);
    links.push(MemLink::new(both))?;
    links.push(link_of(alloc, BROKEN)?)?;
    Ok(MemDoor::new(links))
}

/// A station with that door, whose second request comes two seconds after the first.
fn station<'a>(
    alloc: Global,
    stages: &'a Stages,
) -> Result<Station<MemDoor, ListClock, ListEntropy, Held<'a>>, Fail> {
    Ok(Station {
        door: door_of_two(alloc)?,
        clock: ListClock::new(vec![in alloc; NOW, NOW + 2]?),
        entropy: ListEntropy::new(vec![in alloc; words_from(0xb0), words_from(0xd0)]?),
        gate: Held {
            stages,
            passer: Passer::Other,
        },
    })
}

/// Whether this is a session of an enrolment whose two requests each made a change.
fn is_enrolment(alloc: Global, session: &Finished) -> Result<bool, Fail> {
    let notes = session.end().notes.as_slice();
    let is_done = notes.len() == 2 && notes.iter().all(|note| note.outcome == Outcome::Done);
    let is_closed = session.end().cause == EndCause::Closed;
    Ok(is_done && is_closed && is_written(alloc, session.link(), ENROLLED)?)
}

/// Whether this is a session that broke off in a request.
fn is_broken_off(alloc: Global, session: &Finished) -> Result<bool, Fail> {
    let is_rejected = session.end().cause == EndCause::Rejected(400);
    let is_unasked = session.end().notes.as_slice().is_empty();
    Ok(is_rejected && is_unasked && is_written(alloc, session.link(), REJECTED)?)
}

/// Whether a door took back the session of an enrolment, and then one that broke off.
fn are_both(alloc: Global, door: &MemDoor) -> Result<bool, Fail> {
    let Some(last) = door.last() else {
        return Ok(false);
    };
    match last.before() {
        Some(first) => Ok(is_broken_off(alloc, last)? && is_enrolment(alloc, first)?),
        None => Ok(false),
    }
}

/// Serves both, and looks at what is written and at how the history stands on the disk.
fn check_streams<R: Threads + Wait + Sync + Abort>(
    rt: &R,
    alloc: Global,
    stages: &Stages,
) -> Result<(), Fail> {
    let mut stations = Vec::new(alloc);
    stations.push(station(alloc, stages)?)?;
    let mut disk = MemDisk::new(octets_of(alloc, LISTED)?);
    let mut out = MemSink::new(alloc);
    let status = serve(
        rt,
        alloc,
        &["journal", "key", "serve", "1", "1", "2", "orders"],
        key_file(alloc)?,
        &mut disk,
        &mut stations,
        ListOrders::new(Vec::new(alloc)),
        stages,
        &mut out,
    )?;
    let text = b"connections 2\nchanges 4\norders 0 done 0 refused\n";
    assert_eq!(rt; out.written(), text.as_slice());
    assert_eq!(rt; status.number(), 0);
    assert!(rt; are_both(alloc, &stations[0].door)?);
    let lines =
        "changes 4\nissue 3 of 32\nreply 0 of 32\ncert 3 confirmed 000102030405060708090a0b0c0d0e0f\n";
    check_lines(rt, alloc, &mut disk, lines)
}

#[test]
fn a_session_that_breaks_off_ends_no_worker(rt: HostRuntime) -> Result<(), Fail> {
    let stages = Stages::new();
    check_streams(&rt, rt.alloc(), &stages)
}
