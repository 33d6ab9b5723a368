use crate::{Disk, MemDisk};
use std::test::Fail;

// One write past the end, a sync, and a write over the first octet. The images are those of the rule in the
// documentation of `after_stop`, made by hand.
#[test]
fn a_stop_leaves_what_the_choice_says(rt: HostRuntime) -> Result<(), Fail> {
    let alloc = rt.alloc();
    let mut disk = MemDisk::new(b"abc".to_vec(alloc)?);
    disk.write_at(1, b"XYZ")?;
    disk.sync()?;
    disk.write_at(0, b"Q")?;
    assert_eq!(rt; disk.octets(), b"QXYZ".as_slice());
    let table: [(u64, u8, &[u8]); 9] = [
        (0, 3, b"abc"),
        (1, 0, b"abc"),
        (1, 1, b"aXYZ"),
        (1, 2, b"a\0\0\0"),
        (1, 3, b"a\x01\x01\x01"),
        (2, 2, b"aXYZ"),
        (3, 0, b"aXYZ"),
        (3, 1, b"QXYZ"),
        (3, 3, b"\x01XYZ"),
    ];
    for (calls, choice, left) in table {
        assert!(rt; calls <= disk.calls() && choice <= 3);
        let stopped = disk.after_stop(calls, choice)?;
        assert_eq!(rt;
            stopped.octets(),
            left,
            "after {calls} calls, choice {choice}"
        );
        assert_eq!(rt; stopped.calls(), 0);
    }
    Ok(())
}

fn first_octets<D: Disk + Drop>(mut disk: D, into: &mut [u8]) -> Result<usize, crate::Failed> {
    disk.read_at(0, into)
}

#[test]
fn the_named_calls_fail(rt: HostRuntime) -> Result<(), Fail> {
    let alloc = rt.alloc();
    let mut disk = MemDisk::failing(b"abc".to_vec(alloc)?, [2u64, 4, 6, 8].to_vec(alloc)?);
    let mut octets = [0u8; 8];
    assert_eq!(rt; disk.size()?, 3);
    assert!(rt; disk.size().is_err());
    assert_eq!(rt; disk.read_at(1, &mut octets)?, 2);
    assert!(rt; disk.read_at(1, &mut octets).is_err());
    disk.write_at(0, b"A")?;
    assert!(rt; disk.write_at(0, b"B").is_err());
    disk.sync()?;
    assert!(rt; disk.sync().is_err());
    assert_eq!(rt; first_octets(&mut disk, &mut octets)?, 3);
    assert_eq!(rt; octets, *b"Abc\0\0\0\0\0");
    assert_eq!(rt; disk.read_at(3, &mut octets)?, 0);
    assert_eq!(rt; disk.calls(), 10);
    // The failed write leaves its range in doubt until the sync.
    assert!(rt; 6 <= disk.calls());
    assert_eq!(rt; disk.after_stop(6, 1)?.octets(), b"Bbc".as_slice());
    Ok(())
}
