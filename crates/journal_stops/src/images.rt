use crate::logs::{MAGIC, ONE, TWO};
use cmp_ports::MemDisk;
use journal_core::{AppendFault, Journal, MountFault, PrepareFault, Record};
use std::alloc::{AllocError, Global};
use std::test::Fail;

// The payload stands behind an open gate and its length, 11 in four octets; behind it a closed gate.
#[test]
fn a_payload_stands_behind_a_gate_and_its_length(rt: HostRuntime) -> Result<(), Fail> {
    let alloc = rt.alloc();
    let mut disk = MemDisk::new(Vec::new(alloc));
    Journal::prepare(&mut disk)?;
    let mut journal = Journal::found(alloc, &mut disk, &MAGIC, b"one")?;
    assert_eq!(rt; disk.octets(), ONE);
    assert!(rt; !journal.doubt());
    let entry = Record::new(alloc, b"\x06\0\0\0\0\x65\x53\xf1\0\x01\x41")?;
    journal.append(&mut disk, &entry)?;
    let want = b"\x01CMPLOG1\x01\0\0\0\x03one\x01\0\0\0\x0b\x06\0\0\0\0\x65\x53\xf1\0\x01\x41\0";
    assert_eq!(rt; disk.octets(), want.as_slice());
    let (_, payloads) = Journal::mount(alloc, &mut disk, &MAGIC)?;
    let [first, second] = payloads.as_slice() else {
        return Err("not two payloads")?;
    };
    assert_eq!(rt; first.as_slice(), b"one".as_slice());
    assert_eq!(rt;
        second.as_slice(),
        b"\x06\0\0\0\0\x65\x53\xf1\0\x01\x41".as_slice()
    );
    assert_eq!(rt; Journal::prepare(&mut disk), Err(PrepareFault::Already));
    assert_eq!(rt; disk.octets(), want.as_slice());
    Ok(())
}

// Offsets counted by hand: the gate behind `one` stands at 16.
#[test]
fn a_mount_tells_where_the_damage_is(rt: HostRuntime) -> Result<(), Fail> {
    let alloc = rt.alloc();
    let table: [(&[u8], MountFault); 8] = [
        (b"", MountFault::NotFounded),
        (b"\x01CMPLOG1", MountFault::NotFounded),
        (b"\0CMPLOG1\0", MountFault::NotFounded),
        (b"\x01CMPLOG2\0", MountFault::Damaged { at: 1 }),
        (b"\x01CMPLOG1\x01", MountFault::Damaged { at: 8 }),
        (
            b"\x01CMPLOG1\x01\0\0\0\x03one",
            MountFault::Damaged { at: 8 },
        ),
        (
            b"\x01CMPLOG1\x01\0\0\0\x03one\x01\xff\xff\xff\xff",
            MountFault::Damaged { at: 16 },
        ),
        (
            b"\x01CMPLOG1\x01\0\0\0\x03one\x01\0\0\0\x03two",
            MountFault::Damaged { at: 16 },
        ),
    ];
    for (octets, want) in table {
        let mut disk = MemDisk::new(octets.to_vec(alloc)?);
        match Journal::mount(alloc, &mut disk, &MAGIC) {
            Ok(_) => return Err("a journal")?,
            Err(fault) => assert_eq!(rt; fault, want),
        }
        assert_eq!(rt; disk.octets(), octets);
    }
    Ok(())
}

// What stands behind the closed gate is no payload.
#[test]
fn octets_behind_the_closed_gate_count_for_nothing(rt: HostRuntime) -> Result<(), Fail> {
    let alloc = rt.alloc();
    let mut octets = TWO.to_vec(alloc)?;
    octets.extend_from_slice(b"\0\0\0\x02xy\x01")?;
    let mut disk = MemDisk::new(octets);
    let (mut journal, payloads) = Journal::mount(alloc, &mut disk, &MAGIC)?;
    assert_eq!(rt; payloads.len(), 2);
    assert!(rt; !journal.doubt());
    let entry = Record::new(alloc, b"")?;
    journal.append(&mut disk, &entry)?;
    let (_, payloads) = Journal::mount(alloc, &mut disk, &MAGIC)?;
    assert_eq!(rt; payloads.len(), 3);
    Ok(())
}

// A log of so many payloads, each of them empty.
fn long_log(alloc: Global, count: u32) -> Result<Vec<u8>, AllocError> {
    let mut octets = b"\x01CMPLOG1".to_vec(alloc)?;
    for _ in 0..count {
        octets.extend_from_slice(b"\x01\0\0\0\0")?;
    }
    octets.push(0)?;
    Ok(octets)
}

#[test]
fn the_last_payload_goes_in_and_the_next_is_refused(rt: HostRuntime) -> Result<(), Fail> {
    let alloc = rt.alloc();
    let mut disk = MemDisk::new(long_log(alloc, 262_143)?);
    let (mut journal, payloads) = Journal::mount(alloc, &mut disk, &MAGIC)?;
    assert_eq!(rt; payloads.len(), 262_143);
    assert!(rt; !journal.doubt());
    let entry = Record::new(alloc, b"")?;
    journal.append(&mut disk, &entry)?;
    assert_eq!(rt; journal.append(&mut disk, &entry), Err(AppendFault::Full));
    assert!(rt; !journal.doubt());
    let (_, payloads) = Journal::mount(alloc, &mut disk, &MAGIC)?;
    assert_eq!(rt; payloads.len(), 262_144);
    Ok(())
}
