use crate::{Disk, FileDisk, Opening};
use std::fs;
use std::io::ErrorKind;
use std::os::unix::fs::MetadataExt;
use std::test::Fail;

#[test]
fn a_real_file_is_written_and_read(rt: HostRuntime) -> Result<(), Fail> {
    let alloc = rt.alloc();
    let mut disk = FileDisk::new(&rt, String::from_str(alloc, "octets")?, Opening::MayBeMade);
    assert!(rt;
        fs::metadata(&rt, "octets").is_err(),
        "opened before the first call"
    );
    assert_eq!(rt; disk.size()?, 0);
    disk.write_at(0, b"abcdef")?;
    disk.write_at(0, b"XY")?;
    disk.sync()?;
    assert_eq!(rt; disk.size()?, 6);
    let mut octets = [0u8; 4];
    assert_eq!(rt; disk.read_at(1, &mut octets)?, 4);
    assert_eq!(rt; octets, *b"Ycde");
    assert_eq!(rt; disk.read_at(6, &mut octets)?, 0);
    assert_eq!(rt; fs::read_to_string(&rt, "octets")?.as_str(), "XYcdef");
    fs::remove_file(&rt, "octets")?;
    Ok(())
}

#[test]
fn a_file_that_cannot_be_made_is_a_fault(rt: HostRuntime) -> Result<(), Fail> {
    let path = String::from_str(rt.alloc(), "no/such/folder")?;
    let mut disk = FileDisk::new(&rt, path, Opening::MayBeMade);
    assert_eq!(rt; disk.size()?, 0);
    assert!(rt; disk.write_at(0, b"abc").is_err());
    Ok(())
}

#[test]
fn a_file_is_made_only_where_it_may_be(rt: HostRuntime) -> Result<(), Fail> {
    let alloc = rt.alloc();
    for opening in [Opening::ReadOnly, Opening::Existing] {
        let mut disk = FileDisk::new(&rt, String::from_str(alloc, "made")?, opening);
        assert_eq!(rt; disk.size()?, 0);
        assert_eq!(rt; disk.read_at(0, &mut [0u8; 4])?, 0);
        disk.sync()?;
        assert!(rt; disk.write_at(0, b"abc").is_err());
        assert!(rt;
            disk.why()
                .is_some_and(|why| why.kind() == ErrorKind::NotFound)
        );
        assert!(rt; fs::metadata(&rt, "made").is_err());
    }
    let mut disk = FileDisk::new(&rt, String::from_str(alloc, "made")?, Opening::MayBeMade);
    let mut late = FileDisk::new(&rt, String::from_str(alloc, "made")?, Opening::MayBeMade);
    assert_eq!(rt; disk.size()?, 0);
    assert_eq!(rt; late.size()?, 0);
    assert!(rt; fs::metadata(&rt, "made").is_err());
    disk.write_at(0, b"abc")?;
    // The other one was told that there is no file, so it doesn't write over this one.
    assert!(rt; late.write_at(0, b"X").is_err());
    disk.sync()?;
    assert_eq!(rt; fs::metadata(&rt, "made")?.mode() & 0o777, 0o600);
    fs::remove_file(&rt, "made")?;
    Ok(())
}

fn measured(rt: &HostRuntime, path: &str, opening: Opening) -> Result<Option<u64>, Fail> {
    let mut disk = FileDisk::new(rt, String::from_str(rt.alloc(), path)?, opening);
    Ok(disk.size().ok())
}

#[test]
fn one_disk_alone_may_write_a_file(rt: HostRuntime) -> Result<(), Fail> {
    let path = String::from_str(rt.alloc(), "locked")?;
    fs::write(&rt, "locked", "abc")?;
    let mut disk = FileDisk::new(&rt, path, Opening::Existing);
    assert_eq!(rt; disk.size()?, 3);
    assert_eq!(rt; measured(&rt, "locked", Opening::MayBeMade)?, None);
    assert_eq!(rt; measured(&rt, "locked", Opening::Existing)?, None);
    assert_eq!(rt; measured(&rt, "locked", Opening::ReadOnly)?, Some(3));
    fs::remove_file(&rt, "locked")?;
    Ok(())
}
