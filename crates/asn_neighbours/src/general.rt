//! General names of every kind (RFC 5280, 4.2.1.6), and their neighbours. The octets are by tests/vectors/neighbours.py, an
//! encoder of its own few lines.
use asn_types::read_general;
use der_base::whole;
use std::test::Fail;

/// Whether octets are a general name alone.
fn is_general(bytes: &[u8]) -> bool {
    match whole(bytes) {
        Ok(e) => read_general(&e).is_ok(),
        Err(_) => false,
    }
}

/// Whether octets are a general name alone, of this tag and content.
fn says(bytes: &[u8], tag: u8, content: &[u8]) -> bool {
    let Ok(e) = whole(bytes) else {
        return false;
    };
    match read_general(&e) {
        Ok(name) => name.tag == tag && name.content == content && name.whole == bytes,
        Err(_) => false,
    }
}

#[test]
fn plain_names_are_read(rt: HostRuntime) -> Result<(), Fail> {
    assert!(rt; says(b"\x81\x05a@b.c", 0x81, b"a@b.c"));
    assert!(rt; says(b"\x82\x03a.b", 0x82, b"a.b"));
    assert!(rt; says(b"\x86\x04a:/b", 0x86, b"a:/b"));
    assert!(rt; says(b"\x87\x04\xc0\x00\x02\x01", 0x87, b"\xc0\x00\x02\x01"));
    assert!(rt; says(b"\x88\x02\x2a\x03", 0x88, b"\x2a\x03"));
    Ok(())
}

#[test]
fn constructed_names_are_read(rt: HostRuntime) -> Result<(), Fail> {
    assert!(rt;
        says(
            b"\xa0\x09\x06\x02\x2a\x03\xa0\x03\x0c\x01a",
            0xa0,
            b"\x06\x02\x2a\x03\xa0\x03\x0c\x01a"
        )
    );
    assert!(rt; says(b"\xa3\x02\x30\x00", 0xa3, b"\x30\x00"));
    assert!(rt;
        says(
            b"\xa4\x0e\x30\x0c\x31\x0a\x30\x08\x06\x03\x55\x04\x03\x0c\x01a",
            0xa4,
            b"\x30\x0c\x31\x0a\x30\x08\x06\x03\x55\x04\x03\x0c\x01a"
        )
    );
    assert!(rt; says(b"\xa5\x05\xa1\x03\x0c\x01a", 0xa5, b"\xa1\x03\x0c\x01a"));
    Ok(())
}

#[test]
fn plain_names_cut_off_are_refused(rt: HostRuntime) -> Result<(), Fail> {
    assert!(rt; !is_general(b"\x81\x05a@b."));
    assert!(rt; !is_general(b"\x82\x03a."));
    assert!(rt; !is_general(b"\x86\x04a:/"));
    assert!(rt; !is_general(b"\x87\x04\xc0\x00\x02"));
    assert!(rt; !is_general(b"\x88\x02\x2a"));
    Ok(())
}

#[test]
fn constructed_names_cut_off_are_refused(rt: HostRuntime) -> Result<(), Fail> {
    assert!(rt; !is_general(b"\xa0\x09\x06\x02\x2a\x03\xa0\x03\x0c\x01"));
    assert!(rt; !is_general(b"\xa3\x02\x30"));
    assert!(rt; !is_general(b"\xa4\x0e\x30\x0c\x31\x0a\x30\x08\x06\x03\x55\x04\x03\x0c\x01"));
    assert!(rt; !is_general(b"\xa5\x05\xa1\x03\x0c\x01"));
    Ok(())
}

#[test]
fn plain_names_with_an_octet_behind_are_refused(rt: HostRuntime) -> Result<(), Fail> {
    assert!(rt; !is_general(b"\x81\x05a@b.c\x00"));
    assert!(rt; !is_general(b"\x82\x03a.b\x00"));
    assert!(rt; !is_general(b"\x86\x04a:/b\x00"));
    assert!(rt; !is_general(b"\x87\x04\xc0\x00\x02\x01\x00"));
    assert!(rt; !is_general(b"\x88\x02\x2a\x03\x00"));
    Ok(())
}

#[test]
fn constructed_names_with_an_octet_behind_are_refused(rt: HostRuntime) -> Result<(), Fail> {
    assert!(rt; !is_general(b"\xa0\x09\x06\x02\x2a\x03\xa0\x03\x0c\x01a\x00"));
    assert!(rt; !is_general(b"\xa3\x02\x30\x00\x00"));
    assert!(rt; !is_general(b"\xa4\x0e\x30\x0c\x31\x0a\x30\x08\x06\x03\x55\x04\x03\x0c\x01a\x00"));
    assert!(rt; !is_general(b"\xa5\x05\xa1\x03\x0c\x01a\x00"));
    Ok(())
}

#[test]
fn plain_names_of_a_length_too_long_are_refused(rt: HostRuntime) -> Result<(), Fail> {
    assert!(rt; !is_general(b"\x81\x81\x05a@b.c"));
    assert!(rt; !is_general(b"\x82\x81\x03a.b"));
    assert!(rt; !is_general(b"\x86\x81\x04a:/b"));
    assert!(rt; !is_general(b"\x87\x81\x04\xc0\x00\x02\x01"));
    assert!(rt; !is_general(b"\x88\x81\x02\x2a\x03"));
    Ok(())
}

#[test]
fn constructed_names_of_a_length_too_long_are_refused(rt: HostRuntime) -> Result<(), Fail> {
    assert!(rt; !is_general(b"\xa0\x81\x09\x06\x02\x2a\x03\xa0\x03\x0c\x01a"));
    assert!(rt; !is_general(b"\xa3\x81\x02\x30\x00"));
    assert!(rt; !is_general(b"\xa4\x81\x0e\x30\x0c\x31\x0a\x30\x08\x06\x03\x55\x04\x03\x0c\x01a"));
    assert!(rt; !is_general(b"\xa5\x81\x05\xa1\x03\x0c\x01a"));
    Ok(())
}

// The same with the name in a directoryName alone, whose own length is right.
#[test]
fn directory_names_of_no_name_are_refused(rt: HostRuntime) -> Result<(), Fail> {
    assert!(rt; !is_general(b"\xa4\x0d\x30\x0c\x31\x0a\x30\x08\x06\x03\x55\x04\x03\x0c\x01"));
    assert!(rt; !is_general(b"\xa4\x0f\x30\x0c\x31\x0a\x30\x08\x06\x03\x55\x04\x03\x0c\x01a\x00"));
    assert!(rt; !is_general(b"\xa4\x0f\x30\x81\x0c\x31\x0a\x30\x08\x06\x03\x55\x04\x03\x0c\x01a"));
    Ok(())
}
