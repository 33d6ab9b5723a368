use crate::logs::{MAGIC, ONE, TWO, count_of};
use cmp_ports::MemDisk;
use journal_core::{Journal, Record};
use std::alloc::Global;
use std::process::Abort;
use std::test::Fail;

// How many payloads each of two mounts finds after a stop, or None where the disk isn't founded.
fn count_after(
    rt: &impl Abort,
    alloc: Global,
    disk: &MemDisk,
    calls: u64,
    choice: u8,
) -> Result<Option<usize>, Fail> {
    assert!(rt; calls <= disk.calls() && choice <= 3);
    let mut stopped = disk.after_stop(calls, choice)?;
    let count = count_of(alloc, &mut stopped)?;
    assert_eq!(rt; count_of(alloc, &mut stopped)?, count, "the second mount");
    Ok(count)
}

// The same for each choice: a range in doubt holds what stood there, what was written, octets 0 or octets 1.
fn counts_after(
    rt: &impl Abort,
    alloc: Global,
    disk: &MemDisk,
    calls: u64,
) -> Result<[Option<usize>; 4], Fail> {
    Ok([
        count_after(rt, alloc, disk, calls, 0)?,
        count_after(rt, alloc, disk, calls, 1)?,
        count_after(rt, alloc, disk, calls, 2)?,
        count_after(rt, alloc, disk, calls, 3)?,
    ])
}

// After the calls up to `before`, and after each further one, the disk holds what its row says.
fn assert_rows(
    rt: &impl Abort,
    alloc: Global,
    disk: &MemDisk,
    before: u64,
    rows: &[[Option<usize>; 4]],
) -> Result<(), Fail> {
    let mut calls = before;
    for row in rows {
        assert_eq!(rt;
            counts_after(rt, alloc, disk, calls)?,
            *row,
            "after {calls} calls"
        );
        calls = calls.saturating_add(1);
    }
    assert_eq!(rt;
        calls,
        disk.calls().saturating_add(1),
        "a row for each call"
    );
    Ok(())
}

// found writes the log without its first gate, syncs, writes the gate and syncs: until the gate is written the disk
// isn't founded.
#[test]
fn a_stop_in_found_leaves_nothing_or_the_log(rt: HostRuntime) -> Result<(), Fail> {
    let alloc = rt.alloc();
    let mut disk = MemDisk::new(Vec::new(alloc));
    Journal::prepare(&mut disk)?;
    let before = disk.calls();
    let _journal = Journal::found(alloc, &mut disk, &MAGIC, b"one")?;
    assert_eq!(rt; disk.octets(), ONE);
    let rows = [
        [None; 4],
        [None; 4],
        [None; 4],
        [None, Some(1), None, Some(1)],
        [Some(1); 4],
    ];
    assert_rows(&rt, alloc, &disk, before, &rows)
}

// append writes the record, syncs, writes its gate and syncs.
#[test]
fn a_stop_in_append_leaves_before_or_after(rt: HostRuntime) -> Result<(), Fail> {
    let alloc = rt.alloc();
    let entry = Record::new(alloc, b"two")?;
    let mut disk = MemDisk::new(ONE.to_vec(alloc)?);
    let (mut journal, _) = Journal::mount(alloc, &mut disk, &MAGIC)?;
    assert!(rt; !journal.doubt());
    let before = disk.calls();
    journal.append(&mut disk, &entry)?;
    assert_eq!(rt; disk.octets(), TWO);
    let rows = [
        [Some(1); 4],
        [Some(1); 4],
        [Some(1); 4],
        [Some(1), Some(2), Some(1), Some(2)],
        [Some(2); 4],
    ];
    assert_rows(&rt, alloc, &disk, before, &rows)
}

// What stops leave of a settle after an append that failed in this call of the disk; a mount is the calls 1 to 3.
fn assert_settles(
    rt: &impl Abort,
    alloc: Global,
    fails: u64,
    rows: &[[Option<usize>; 4]],
) -> Result<(), Fail> {
    let entry = Record::new(alloc, b"two")?;
    let mut disk = MemDisk::failing(ONE.to_vec(alloc)?, [fails].to_vec(alloc)?);
    let (mut journal, _) = Journal::mount(alloc, &mut disk, &MAGIC)?;
    assert!(rt; !journal.doubt());
    assert!(rt; journal.append(&mut disk, &entry).is_err());
    assert!(rt; journal.doubt());
    let before = disk.calls();
    journal.settle(&mut disk)?;
    assert!(rt; !journal.doubt());
    assert_rows(rt, alloc, &disk, before, rows)
}

// Where the gate's sync failed, settle closes the gate and syncs; where the record's did, it only syncs.
#[test]
fn a_stop_in_settle_leaves_before_or_after(rt: HostRuntime) -> Result<(), Fail> {
    let alloc = rt.alloc();
    let rows = [
        [Some(1), Some(2), Some(1), Some(2)],
        [Some(1), Some(1), Some(1), Some(2)],
        [Some(1); 4],
    ];
    assert_settles(&rt, alloc, 7, &rows)?;
    assert_settles(&rt, alloc, 5, &[[Some(1); 4], [Some(1); 4]])
}
