//! Each call once with ample memory, and the reasons of refusal.

mod reasons;

use crate::{Octets, Short, Text};
use std::test::Fail;

#[test]
fn octets_grow_and_shrink(rt: HostRuntime) -> Result<(), Fail> {
    let alloc = rt.alloc();
    let mut octets = Octets::copy_of(alloc, b"one")?;
    octets.append(b" two")?;
    octets.drop_first(2);
    assert_eq!(rt; octets.as_slice(), b"e two".as_slice());
    octets.truncate(1);
    assert_eq!(rt; octets.into_vec().as_slice(), b"e".as_slice());
    Ok(())
}

#[test]
fn octets_drop_no_more_than_there_are(rt: HostRuntime) -> Result<(), Fail> {
    let mut octets = Octets::copy_of(rt.alloc(), b"one")?;
    octets.drop_first(4);
    assert!(rt; octets.is_empty());
    Ok(())
}

#[test]
fn a_text_is_copied_and_grows(rt: HostRuntime) -> Result<(), Fail> {
    let mut text = Text::copy_of(rt.alloc(), b"one")?;
    text.append(b" two")?;
    assert_eq!(rt; text.as_slice(), b"one two".as_slice());
    Ok(())
}

#[test]
fn a_short_list_has_64_octets_at_most(rt: HostRuntime) {
    assert!(rt; Short::of(&[7u8; 65]).is_none());
    assert_eq!(rt; Short::of(&[7u8; 64]).map(|short| short.len()), Some(64));
}
