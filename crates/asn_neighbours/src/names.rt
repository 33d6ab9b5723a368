//! A name of two relative names (RFC 5280, 4.1.2.4), and its neighbours. The octets are by tests/vectors/neighbours.py.
use asn_types::read_name;
use der_base::whole;
use std::test::Fail;

/// Whether octets are a name alone, whose whole element they are.
fn is_name(bytes: &[u8]) -> bool {
    let Ok(e) = whole(bytes) else {
        return false;
    };
    match read_name(&e) {
        Ok(name) => name.whole == bytes,
        Err(_) => false,
    }
}

#[test]
fn a_name_of_two_is_read(rt: HostRuntime) -> Result<(), Fail> {
    assert!(rt;
        is_name(
            b"\x30\x19\x31\x0b\x30\x09\x06\x03\x55\x04\x06\x13\x02\x44\x45\x31\x0a\x30\x08\x06\x03\x55\x04\x03\x0c\x01a"
        )
    );
    Ok(())
}

#[test]
fn a_name_beside_it_is_refused(rt: HostRuntime) -> Result<(), Fail> {
    assert!(rt;
        !is_name(
            b"\x30\x19\x31\x0b\x30\x09\x06\x03\x55\x04\x06\x13\x02\x44\x45\x31\x0a\x30\x08\x06\x03\x55\x04\x03\x0c\x01"
        )
    );
    assert!(rt;
        !is_name(
            b"\x30\x19\x31\x0b\x30\x09\x06\x03\x55\x04\x06\x13\x02\x44\x45\x31\x0a\x30\x08\x06\x03\x55\x04\x03\x0c\x01a\x00"
        )
    );
    assert!(rt;
        !is_name(
            b"\x30\x81\x19\x31\x0b\x30\x09\x06\x03\x55\x04\x06\x13\x02\x44\x45\x31\x0a\x30\x08\x06\x03\x55\x04\x03\x0c\x01a"
        )
    );
    Ok(())
}

// The same with the second relative name alone, where the length of the name is right.
#[test]
fn a_name_of_a_wrong_part_is_refused(rt: HostRuntime) -> Result<(), Fail> {
    assert!(rt;
        !is_name(
            b"\x30\x18\x31\x0b\x30\x09\x06\x03\x55\x04\x06\x13\x02\x44\x45\x31\x0a\x30\x08\x06\x03\x55\x04\x03\x0c\x01"
        )
    );
    assert!(rt;
        !is_name(
            b"\x30\x1a\x31\x0b\x30\x09\x06\x03\x55\x04\x06\x13\x02\x44\x45\x31\x0a\x30\x08\x06\x03\x55\x04\x03\x0c\x01a\x00"
        )
    );
    assert!(rt;
        !is_name(
            b"\x30\x1a\x31\x0b\x30\x09\x06\x03\x55\x04\x06\x13\x02\x44\x45\x31\x81\x0a\x30\x08\x06\x03\x55\x04\x03\x0c\x01a"
        )
    );
    Ok(())
}
