use crate::logs::{Behind, FOUNDED, desk_of, enlisted, found_behind, mounted};
use cmp_ports::MemDisk;
use desk::Listing;
use std::alloc::Global;
use std::process::Abort;
use std::test::Fail;

const NONE: Behind = Behind::Nothing;

const A: Behind = Behind::Letter(b'a');

const B: Behind = Behind::Letter(b'b');

// What each of two mounts finds behind Found.
fn found_twice(alloc: Global, disk: MemDisk) -> Result<Behind, Fail> {
    let first = mounted(alloc, disk)?;
    let found = found_behind(&first);
    let second = mounted(alloc, first.into_disk())?;
    if found_behind(&second) == found {
        Ok(found)
    } else {
        Err("the second mount".into())
    }
}

fn found_after(alloc: Global, disk: &MemDisk, calls: u64, choice: u8) -> Result<Behind, Fail> {
    if calls > disk.calls() || choice > 3 {
        return Err("no such stop".into());
    }
    found_twice(alloc, disk.after_stop(calls, choice)?)
}

// The same for each choice: a range in doubt holds what stood there, what was written, octets 0 or octets 1.
fn is_row(alloc: Global, disk: &MemDisk, calls: u64, row: &[Behind; 4]) -> Result<bool, Fail> {
    Ok(
        found_after(alloc, disk, calls, 0)? == row[0]
            && found_after(alloc, disk, calls, 1)? == row[1]
            && found_after(alloc, disk, calls, 2)? == row[2]
            && found_after(alloc, disk, calls, 3)? == row[3],
    )
}

// After the calls up to `before`, and after each further one, the disk holds what its row says.
fn assert_rows(
    rt: &impl Abort,
    alloc: Global,
    disk: &MemDisk,
    before: u64,
    rows: &[[Behind; 4]],
) -> Result<(), Fail> {
    let mut calls = before;
    for row in rows {
        assert!(rt; is_row(alloc, disk, calls, row)?, "after {calls} calls");
        calls = calls.saturating_add(1);
    }
    assert!(rt;
        calls == disk.calls().saturating_add(1),
        "a row for each call"
    );
    Ok(())
}

// The disk after `a` was listed.
fn disk_with_a(alloc: Global) -> Result<MemDisk, Fail> {
    let mut desk = desk_of(alloc, &[FOUNDED], &[])?;
    if enlisted(alloc, &mut desk, b'a') == Some(Listing::Done { place: 2 }) {
        Ok(desk.into_disk())
    } else {
        Err("not listed".into())
    }
}

// mount is the calls 1 to 3. enlist writes the record, syncs, writes its gate and syncs.
#[test]
fn a_stop_in_enlist_leaves_before_or_after(rt: HostRuntime) -> Result<(), Fail> {
    let disk = disk_with_a(rt.alloc())?;
    let rows = [[NONE; 4], [NONE; 4], [NONE; 4], [NONE, A, NONE, A], [A; 4]];
    assert_rows(&rt, rt.alloc(), &disk, 3, &rows)
}

// The disk after `a` was in doubt and `b` listed.
fn disk_after_doubt(alloc: Global) -> Result<MemDisk, Fail> {
    let mut desk = desk_of(alloc, &[FOUNDED], &[7])?;
    let is_listed = enlisted(alloc, &mut desk, b'a') == Some(Listing::DiskFault)
        && enlisted(alloc, &mut desk, b'b') == Some(Listing::Done { place: 2 });
    if is_listed {
        Ok(desk.into_disk())
    } else {
        Err("not listed".into())
    }
}

// Where the gate's sync failed, the next enlist closes that gate and syncs first: the list in doubt is `a`, its own `b`.
#[test]
fn a_stop_after_a_doubt_leaves_either_list_or_none(rt: HostRuntime) -> Result<(), Fail> {
    let disk = disk_after_doubt(rt.alloc())?;
    let rows = [
        [NONE, A, NONE, A],
        [NONE, NONE, NONE, A],
        [NONE; 4],
        [NONE; 4],
        [NONE; 4],
        [NONE, B, NONE, B],
        [B; 4],
    ];
    assert_rows(&rt, rt.alloc(), &disk, 7, &rows)
}
