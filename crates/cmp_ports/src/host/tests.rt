use crate::{hold_streams, is_one_file, others_may_read};
use std::fs;
use std::os::unix::fs::PermissionsExt;
use std::test::Fail;

#[test]
fn a_file_is_one_by_each_of_its_names(rt: HostRuntime) -> Result<(), Fail> {
    hold_streams(&rt)?;
    fs::write(&rt, "one_file", "abc")?;
    fs::write(&rt, "other_file", "abc")?;
    fs::hard_link(&rt, "one_file", "its_link")?;
    assert!(rt; is_one_file(&rt, "one_file", "./one_file"));
    assert!(rt; is_one_file(&rt, "its_link", "one_file"));
    assert!(rt; !is_one_file(&rt, "one_file", "other_file"));
    assert!(rt; is_one_file(&rt, "no_file", "no_file"));
    assert!(rt; !is_one_file(&rt, "one_file", "no_file"));
    for (mode, told) in [(0o600, false), (0o640, true), (0o604, true), (0o622, false)] {
        fs::set_permissions(&rt, "one_file", fs::Permissions::from_mode(mode))?;
        assert_eq!(rt; others_may_read(&rt, "one_file"), told);
    }
    assert!(rt; !others_may_read(&rt, "no_file"));
    for path in ["one_file", "other_file", "its_link"] {
        fs::remove_file(&rt, path)?;
    }
    Ok(())
}
