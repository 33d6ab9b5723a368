use crate::element::{read_element, whole};
use crate::fault::DerFault;
use crate::items::Items;
use crate::values::{bits, boolean, integer, null, octets, oid, utf8};
use std::test::Fail;

/// Octets and the fault that reading an element from them gives, by hand from X.690, 8.1.2, 8.1.3 and 10.1.
const FAULTS: [(&[u8], DerFault); 8] = [
    (b"\x1f", DerFault::Short),
    (b"\x1f\x05", DerFault::Short),
    (b"\x1f\x00", DerFault::BadTag),
    (b"\x30\x80", DerFault::BadLength),
    (b"\x30\x81\x80", DerFault::Short),
    (b"\x30\x85\x00\x00\x00\x00\x00", DerFault::BadLength),
    (b"\x04\x81\x01\x00", DerFault::BadLength),
    (b"\x04\x82\x00\x00", DerFault::BadLength),
];

#[test]
fn refuses_what_is_not_der(rt: HostRuntime) -> Result<(), Fail> {
    for (bytes, fault) in FAULTS {
        assert_eq!(rt; read_element(bytes).err(), Some(fault));
    }
    assert_eq!(rt; whole(b"\x05\x00\x05").err(), Some(DerFault::Trailing));
    Ok(())
}

/// The examples of X.690, 8.6.4.2 and 8.19.5, and by hand one value of each other type.
#[test]
fn reads_the_values_of_the_standard(rt: HostRuntime) -> Result<(), Fail> {
    let string = bits(&whole(b"\x03\x07\x04\x0a\x3b\x5f\x29\x1c\xd0")?)?;
    assert_eq!(rt; string.unused, 4);
    assert_eq!(rt; string.octets, b"\x0a\x3b\x5f\x29\x1c\xd0".as_slice());
    assert_eq!(rt;
        oid(&whole(b"\x06\x03\x88\x37\x03")?)?,
        b"\x88\x37\x03".as_slice()
    );
    assert_eq!(rt;
        integer(&whole(b"\x02\x02\x00\x80")?)?,
        b"\x00\x80".as_slice()
    );
    assert_eq!(rt; boolean(&whole(b"\x01\x01\xff")?)?, true);
    assert_eq!(rt; octets(&whole(b"\x04\x01\x07")?)?, b"\x07".as_slice());
    assert_eq!(rt; null(&whole(b"\x05\x00")?)?, ());
    assert_eq!(rt; utf8(&whole(b"\x0c\x02\xc3\xa9")?)?, b"\xc3\xa9".as_slice());
    Ok(())
}

/// A row of two elements and a cut one.
#[test]
fn goes_over_a_row(rt: HostRuntime) -> Result<(), Fail> {
    let mut items = Items::new(b"\x05\x00\x02\x01\x05\x04\x02\x00");
    assert_eq!(rt; items.next().ok_or("one")??.tag, 0x05);
    assert_eq!(rt; items.next().ok_or("two")??.content, b"\x05".as_slice());
    assert_eq!(rt; items.next().ok_or("three")?.err(), Some(DerFault::Short));
    assert!(rt; items.next().is_none());
    Ok(())
}
