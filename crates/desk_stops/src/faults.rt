use crate::logs::{Behind, FOUNDED, desk_of, enlisted, found_behind, mounted};
use cmp_ports::MemDisk;
use desk::{Desk, Listing};
use std::alloc::Global;
use std::test::Fail;

// Whether `a` isn't listed as often as calls of the disk fail, and Found stands alone after each.
fn are_faults(alloc: Global, desk: &mut Desk<MemDisk>, fails: &[u64]) -> bool {
    for _ in fails {
        if enlisted(alloc, desk, b'a') != Some(Listing::DiskFault) || desk.length() != 1 {
            return false;
        }
    }
    true
}

// Lists `a` while a call of the disk fails, as often as there are numbers of such calls, and then `b`. The disk, where each
// answer is as it should be.
fn settled_disk(alloc: Global, fails: &[u64]) -> Result<Option<MemDisk>, Fail> {
    let mut desk = desk_of(alloc, &[FOUNDED], fails)?;
    let is_settled = are_faults(alloc, &mut desk, fails)
        && enlisted(alloc, &mut desk, b'b') == Some(Listing::Done { place: 2 });
    if is_settled {
        Ok(Some(desk.into_disk()))
    } else {
        Ok(None)
    }
}

// Whether `b` then stands alone.
fn is_settled(alloc: Global, fails: &[u64]) -> Result<bool, Fail> {
    let Some(disk) = settled_disk(alloc, fails)? else {
        return Ok(false);
    };
    let desk = mounted(alloc, disk)?;
    Ok(found_behind(&desk) == Behind::Letter(b'b'))
}

// mount is the calls 1 to 3, enlist the next 4, and what settles the next 2, or 1 where the gate wasn't written.
const FAILS: [&[u64]; 7] = [&[4], &[5], &[6], &[7], &[5, 6], &[7, 8], &[7, 9]];

#[test]
fn a_doubt_is_settled_after_each_fault(rt: HostRuntime) -> Result<(), Fail> {
    for fails in &FAILS {
        assert!(rt; is_settled(rt.alloc(), fails)?, "calls {fails:?}");
    }
    Ok(())
}
