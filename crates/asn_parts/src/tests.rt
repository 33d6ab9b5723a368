//! Numbers by Python's int.to_bytes (signed), and elements by hand from X.690.
use crate::{algorithm_field, general_field, integer_field, integer_inside, name_field, number};
use std::test::Fail;

#[test]
fn numbers_are_integers(rt: HostRuntime) {
    let cases: [(u64, &[u8]); 6] = [
        (0, b"\x00"),
        (127, b"\x7f"),
        (128, b"\x00\x80"),
        (1_700_000_000, b"\x65\x53\xf1\x00"),
        (
            9_223_372_036_854_775_808,
            b"\x00\x80\x00\x00\x00\x00\x00\x00\x00",
        ),
        (
            18_446_744_073_709_551_615,
            b"\x00\xff\xff\xff\xff\xff\xff\xff\xff",
        ),
    ];
    for (n, octets) in cases {
        assert_eq!(rt; number(n).as_slice(), octets, "{n}");
    }
}

#[test]
fn reads_fields(rt: HostRuntime) -> Result<(), Fail> {
    assert_eq!(rt; integer_inside(b"\x00\x80")?, b"\x00\x80".as_slice());
    assert!(rt; integer_inside(b"\x00\x7f").is_err());
    let (octets, rest) = integer_field(b"\x02\x01\x07\x05\x00")?;
    assert_eq!(rt; octets, b"\x07".as_slice());
    assert_eq!(rt; rest, b"\x05\x00".as_slice());
    let (algorithm, rest) = algorithm_field(b"\x30\x05\x06\x03\x2b\x65\x70\x05\x00")?;
    assert_eq!(rt; algorithm.oid, b"\x2b\x65\x70".as_slice());
    assert_eq!(rt; rest.len(), 2);
    let (name, rest) = name_field(b"\x30\x00\x05\x00")?;
    assert_eq!(rt; name.whole, b"\x30\x00".as_slice());
    assert_eq!(rt; rest.len(), 2);
    let (general, rest) = general_field(b"\x82\x01\x61\x05\x00")?;
    assert_eq!(rt; general.content, b"\x61".as_slice());
    assert_eq!(rt; rest.len(), 2);
    Ok(())
}
