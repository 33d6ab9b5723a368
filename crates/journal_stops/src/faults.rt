ghost use Rattle.std.specs.Prelude.{IfSome};
ghost use Rattle.journal_core.specs.Journal.{IsSound};

use crate::logs::{MAGIC, ONE, TWO};
use cmp_ports::{Disk, MemDisk};
use journal_core::{AppendFault, Journal, PrepareFault, Record};
use std::alloc::Global;
use std::process::Abort;
use std::test::Fail;

// Begins a log, or mounts the one that a failed beginning left.
fn begin<D: Disk>(alloc: Global, disk: &mut D) -> Option<Journal>
    ensures { IfSome result (λ j. IsSound j (D.images disk.new)) }
{
    match Journal::prepare(disk) {
        Ok(()) => Journal::found(alloc, disk, &MAGIC, b"one").ok(),
        Err(PrepareFault::Already) => mount(alloc, disk),
        Err(PrepareFault::DiskFault) => None,
    }
}

fn mount<D: Disk>(alloc: Global, disk: &mut D) -> Option<Journal>
    ensures { IfSome result (λ j. IsSound j (D.images disk.new)) }
{
    match Journal::mount(alloc, disk, &MAGIC) {
        Ok((journal, _)) => Some(journal),
        Err(_) => None,
    }
}

// Settles, and once more where the disk fails.
fn settle_at_last<D: Disk>(rt: &impl Abort, journal: &mut Journal, disk: &mut D) -> Result<(), Fail>
    requires { IsSound journal.old (D.images disk.old) }
    ensures sound { IsSound journal.new (D.images disk.new) }
{
    if journal.settle(disk).is_err() {
        assert!(rt; journal.doubt());
        journal.settle(disk)?;
    }
    Ok(())
}

// Appends; after a fault it settles and appends again. Whether the disk failed at first.
fn append_at_last<D: Disk>(
    rt: &impl Abort,
    journal: &mut Journal,
    disk: &mut D,
    entry: &Record,
) -> Result<bool, Fail>
    requires { IsSound journal.old (D.images disk.old) }
{
    assert!(rt; !journal.doubt());
    match journal.append(disk, entry) {
        Ok(()) => Ok(false),
        Err(AppendFault::Full) => Err("full")?,
        Err(AppendFault::DiskFault) => {
            assert!(rt; journal.doubt());
            settle_at_last(rt, journal, disk)?;
            assert!(rt; !journal.doubt());
            journal.append(disk, entry)?;
            Ok(true)
        }
    }
}

// Mounts, and appends `two`, over a disk whose calls of these numbers fail. Whether the first append failed.
fn append_over(rt: &impl Abort, alloc: Global, fails: &[u64]) -> Result<bool, Fail> {
    let entry = Record::new(alloc, b"two")?;
    let mut disk = MemDisk::failing(ONE.to_vec(alloc)?, fails.to_vec(alloc)?);
    let first = mount(alloc, &mut disk);
    let mut journal = match first {
        Some(journal) => journal,
        None => mount(alloc, &mut disk).ok_or("no second mount")?,
    };
    let failed = append_at_last(rt, &mut journal, &mut disk, &entry)?;
    assert_eq!(rt; disk.octets(), TWO);
    Ok(failed)
}

// mount is the calls 1 to 3, append the next 4, and settle the next 2, or 1 where the gate wasn't written.
#[test]
fn append_goes_on_after_each_fault(rt: HostRuntime) -> Result<(), Fail> {
    let alloc = rt.alloc();
    for call in 1u64..=3 {
        assert!(rt; !append_over(&rt, alloc, &[call])?, "call {call}");
    }
    for call in 4u64..=7 {
        assert!(rt; append_over(&rt, alloc, &[call])?, "call {call}");
    }
    for call in [(5u64, 6u64), (7, 8), (7, 9)] {
        assert!(rt;
            append_over(&rt, alloc, &[call.0, call.1])?,
            "calls {call:?}"
        );
    }
    assert!(rt; !append_over(&rt, alloc, &[8])?);
    Ok(())
}

// prepare is the calls 1 to 5 on an empty disk, and found the next 4.
#[test]
fn a_log_is_begun_after_each_fault(rt: HostRuntime) -> Result<(), Fail> {
    let alloc = rt.alloc();
    for call in 1u64..=9 {
        let mut disk = MemDisk::failing(Vec::new(alloc), [call].to_vec(alloc)?);
        let first = begin(alloc, &mut disk);
        assert!(rt; first.is_none(), "call {call}");
        let mut journal = begin(alloc, &mut disk).ok_or("not begun")?;
        assert_eq!(rt; disk.octets(), ONE, "call {call}");
        let entry = Record::new(alloc, b"two")?;
        assert!(rt; !append_at_last(&rt, &mut journal, &mut disk, &entry)?);
        assert_eq!(rt; disk.octets(), TWO, "call {call}");
    }
    Ok(())
}
