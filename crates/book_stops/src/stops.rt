use crate::books::{mounted, reserved};
use cmp_ports::MemDisk;
use std::alloc::Global;
use std::test::Fail;

// The disk of a book that was founded and has given leaf 0.
fn given_disk(alloc: Global) -> Result<MemDisk, Fail> {
    let mut book = mounted(alloc, MemDisk::new(Vec::new(alloc)))?;
    if reserved(alloc, &mut book, b'a') != Some(0) {
        return Err("leaf 0".into());
    }
    Ok(book.into_disk())
}

// The next leaf of the book that a stop leaves, where the one after it is the next of a second mount.
fn next_after(alloc: Global, disk: &MemDisk, calls: u64, choice: u8) -> Result<Option<u32>, Fail> {
    if calls > disk.calls() || choice > 3 {
        return Err("no such stop".into());
    }
    let mut first = mounted(alloc, disk.after_stop(calls, choice)?)?;
    let Some(leaf) = reserved(alloc, &mut first, b'b') else {
        return Ok(None);
    };
    let mut second = mounted(alloc, first.into_disk())?;
    if reserved(alloc, &mut second, b'c') == leaf.checked_add(1) {
        Ok(Some(leaf))
    } else {
        Ok(None)
    }
}

// The same for each choice: a range in doubt holds what stood there, what was written, octets 0 or octets 1.
fn is_row(alloc: Global, disk: &MemDisk, calls: u64, row: &[u32; 4]) -> Result<bool, Fail> {
    Ok(
        next_after(alloc, disk, calls, 0)? == Some(row[0])
            && next_after(alloc, disk, calls, 1)? == Some(row[1])
            && next_after(alloc, disk, calls, 2)? == Some(row[2])
            && next_after(alloc, disk, calls, 3)? == Some(row[3]),
    )
}

// After the record, its sync, the gate and its sync.
const RESERVE: [[u32; 4]; 4] = [[0; 4], [0; 4], [0, 1, 0, 1], [1; 4]];

#[test]
fn a_leaf_that_is_reserved_is_given_after_each_stop(rt: HostRuntime) -> Result<(), Fail> {
    let disk = given_disk(rt.alloc())?;
    let founding = disk.calls().saturating_sub(4);
    for calls in 0..founding {
        assert!(rt;
            is_row(rt.alloc(), &disk, calls, &[0; 4])?,
            "after {calls} calls"
        );
    }
    let mut calls = founding;
    for row in &RESERVE {
        calls = calls.saturating_add(1);
        assert!(rt;
            is_row(rt.alloc(), &disk, calls, row)?,
            "after {calls} calls"
        );
    }
    assert_eq!(rt; calls, disk.calls(), "a row for each call");
    Ok(())
}
