ghost use Rattle.std.specs.Prelude.{ℕ, List, Some};

use crate::fault::BadForm;
use crate::fields::{explicit, field, optional, sole};
use crate::rows::{Entry, read_row};
use std::test::Fail;

/// Octets by hand: an OCTET STRING in the explicit tag 4, and a NULL behind it.
const OCTETS: &[u8] = b"\xa4\x03\x04\x01\x07\x05\x00";

#[test]
fn reads_fields_in_order(rt: HostRuntime) -> Result<(), Fail> {
    let (absent, rest) = optional(0xa3, OCTETS)?;
    assert!(rt; absent.is_none());
    let (inner, rest) = explicit(0xa4, 0x04, rest)?;
    assert_eq!(rt; inner.ok_or("absent")?.content, b"\x07".as_slice());
    assert_eq!(rt; sole(0x05, rest)?.whole, b"\x05\x00".as_slice());
    assert!(rt; field(0x04, rest).is_err());
    Ok(())
}

/// An entry of any content.
#[derive(Clone, Copy, Debug, PartialEq, Eq)]
struct Anything<'a> {
    content: &'a [u8],
}

impl<'a> Entry<'a> for Anything<'a> {
    ghost Form = { List ℕ };

    ghost form_of = { λ a. a.«content».now };

    ghost reading = { λ octets. Some octets };

    fn read(content: &'a [u8]) -> Result<Self, BadForm> {
        Ok(Anything { content })
    }
}

/// Rows by hand: of no OCTET STRING, of two, of one and a NULL, and of two of which the last is cut off.
#[test]
fn reads_rows_of_entries(rt: HostRuntime) -> Result<(), Fail> {
    let none = read_row::<Anything>(0x04, b"")?;
    assert_eq!(rt; none.count, 0);
    assert!(rt; none.first.is_none());
    let two = read_row::<Anything>(0x04, b"\x04\x01\x07\x04\x00")?;
    assert_eq!(rt; two.count, 2);
    assert_eq!(rt; two.first.ok_or("none")?.content, b"\x07".as_slice());
    assert!(rt; read_row::<Anything>(0x04, b"\x04\x01\x07\x05\x00").is_err());
    assert!(rt; read_row::<Anything>(0x04, b"\x04\x01\x07\x04\x01").is_err());
    Ok(())
}
