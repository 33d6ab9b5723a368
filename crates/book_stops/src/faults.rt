use crate::books::{FAST, ID, SEED, mounted, reserved};
use cmp_ports::MemDisk;
use leaf_book::{BookFault, LeafBook};
use std::alloc::Global;
use std::test::Fail;

// The book that the second mount gives, where the first fails at the disk; else that of the first.
fn mounted_at_last(alloc: Global, disk: MemDisk) -> Result<(LeafBook<MemDisk>, bool), Fail> {
    match LeafBook::mount(alloc, disk, SEED, ID, FAST) {
        Ok(book) => Ok((book, false)),
        Err((disk, BookFault::DiskFault)) => Ok((mounted(alloc, disk)?, true)),
        Err(_) => Err("another fault".into()),
    }
}

// Whether the leaves 0 and 1 are given one after the other, with one call failing before the first is.
fn is_given_once(alloc: Global, fails: u64) -> Result<bool, Fail> {
    let mut numbers = Vec::new(alloc);
    numbers.push(fails)?;
    let (mut book, failed) = mounted_at_last(alloc, MemDisk::failing(Vec::new(alloc), numbers))?;
    if !failed && reserved(alloc, &mut book, b'a').is_some() {
        return Ok(false);
    }
    if reserved(alloc, &mut book, b'b') != Some(0) || reserved(alloc, &mut book, b'c') != Some(1) {
        return Ok(false);
    }
    let mut again = mounted(alloc, book.into_disk())?;
    Ok(reserved(alloc, &mut again, b'd') == Some(2))
}

#[test]
fn a_fault_gives_no_leaf(rt: HostRuntime) -> Result<(), Fail> {
    let mut book = mounted(rt.alloc(), MemDisk::new(Vec::new(rt.alloc())))?;
    assert_eq!(rt; reserved(rt.alloc(), &mut book, b'a'), Some(0));
    let calls = book.into_disk().calls();
    assert!(rt; calls > 4);
    for fails in 1..=calls {
        assert!(rt; is_given_once(rt.alloc(), fails)?, "call {fails}");
    }
    Ok(())
}
