use crate::logs::{MAGIC, TWO};
use cmp_ports::{FileDisk, Opening};
use journal_core::{Journal, Record};
use std::fs;
use std::test::Fail;

// A second disk opens the file for the mount, once the first has given its lock up.
#[test]
fn a_real_file_holds_the_log(rt: HostRuntime) -> Result<(), Fail> {
    let alloc = rt.alloc();
    let mut disk = FileDisk::new(&rt, String::from_str(alloc, "log")?, Opening::MayBeMade);
    Journal::prepare(&mut disk)?;
    let mut journal = Journal::found(alloc, &mut disk, &MAGIC, b"one")?;
    assert!(rt; !journal.doubt());
    let entry = Record::new(alloc, b"two")?;
    journal.append(&mut disk, &entry)?;
    assert_eq!(rt; fs::read_to_string(&rt, "log")?.as_bytes(), TWO);
    drop(disk);
    let mut disk = FileDisk::new(&rt, String::from_str(alloc, "log")?, Opening::Existing);
    let (mut journal, payloads) = Journal::mount(alloc, &mut disk, &MAGIC)?;
    let [first, second] = payloads.as_slice() else {
        return Err("not two payloads")?;
    };
    assert_eq!(rt; first.as_slice(), b"one".as_slice());
    assert_eq!(rt; second.as_slice(), b"two".as_slice());
    journal.settle(&mut disk)?;
    assert_eq!(rt; fs::read_to_string(&rt, "log")?.as_bytes(), TWO);
    Ok(())
}
