use crate::{FileSource, Source, read_up_to};
use std::fs;
use std::test::Fail;

#[test]
fn a_real_file_is_read_to_its_end(rt: HostRuntime) -> Result<(), Fail> {
    let alloc = rt.alloc();
    let mut source = FileSource::new(&rt, String::from_str(alloc, "source_octets")?);
    // The file isn't there before the first call, and is opened by the second.
    assert!(rt; source.read(&mut [0u8; 4]).is_err());
    fs::write(&rt, "source_octets", "abcdef")?;
    assert_eq!(rt; source.read(&mut [0u8; 2])?, 2);
    assert_eq!(rt;
        read_up_to(alloc, &mut source, 9)?.as_slice(),
        b"cdef".as_slice()
    );
    fs::remove_file(&rt, "source_octets")?;
    Ok(())
}
