//! Two extensions (RFC 5280, 4.1.2.9), and their neighbours. The octets are by tests/vectors/neighbours.py.
use asn_types::read_extensions;
use der_base::whole;
use std::test::Fail;

/// Whether octets are a row of extensions.
fn is_row(content: &[u8]) -> bool {
    match read_extensions(content) {
        Ok(row) => row.content == content,
        Err(_) => false,
    }
}

/// Whether octets are a SEQUENCE of extensions alone.
fn are_extensions(bytes: &[u8]) -> bool {
    match whole(bytes) {
        Ok(e) => e.tag == 0x30 && is_row(e.content),
        Err(_) => false,
    }
}

#[test]
fn two_extensions_are_read(rt: HostRuntime) -> Result<(), Fail> {
    assert!(rt;
        are_extensions(
            b"\x30\x1b\x30\x0e\x06\x03\x55\x1d\x0f\x01\x01\xff\x04\x04\x03\x02\x07\x80\x30\x09\x06\x03\x55\x1d\x13\x04\x02\x30\x00"
        )
    );
    assert!(rt;
        is_row(
            b"\x30\x0e\x06\x03\x55\x1d\x0f\x01\x01\xff\x04\x04\x03\x02\x07\x80\x30\x09\x06\x03\x55\x1d\x13\x04\x02\x30\x00"
        )
    );
    Ok(())
}

#[test]
fn extensions_beside_them_are_refused(rt: HostRuntime) -> Result<(), Fail> {
    assert!(rt;
        !are_extensions(
            b"\x30\x1b\x30\x0e\x06\x03\x55\x1d\x0f\x01\x01\xff\x04\x04\x03\x02\x07\x80\x30\x09\x06\x03\x55\x1d\x13\x04\x02\x30"
        )
    );
    assert!(rt;
        !are_extensions(
            b"\x30\x1b\x30\x0e\x06\x03\x55\x1d\x0f\x01\x01\xff\x04\x04\x03\x02\x07\x80\x30\x09\x06\x03\x55\x1d\x13\x04\x02\x30\x00\x00"
        )
    );
    assert!(rt;
        !are_extensions(
            b"\x30\x81\x1b\x30\x0e\x06\x03\x55\x1d\x0f\x01\x01\xff\x04\x04\x03\x02\x07\x80\x30\x09\x06\x03\x55\x1d\x13\x04\x02\x30\x00"
        )
    );
    Ok(())
}

// The same with the second extension alone, in the row without its SEQUENCE.
#[test]
fn a_row_of_a_wrong_extension_is_refused(rt: HostRuntime) -> Result<(), Fail> {
    assert!(rt;
        !is_row(
            b"\x30\x0e\x06\x03\x55\x1d\x0f\x01\x01\xff\x04\x04\x03\x02\x07\x80\x30\x09\x06\x03\x55\x1d\x13\x04\x02\x30"
        )
    );
    assert!(rt;
        !is_row(
            b"\x30\x0e\x06\x03\x55\x1d\x0f\x01\x01\xff\x04\x04\x03\x02\x07\x80\x30\x09\x06\x03\x55\x1d\x13\x04\x02\x30\x00\x00"
        )
    );
    assert!(rt;
        !is_row(
            b"\x30\x0e\x06\x03\x55\x1d\x0f\x01\x01\xff\x04\x04\x03\x02\x07\x80\x30\x81\x09\x06\x03\x55\x1d\x13\x04\x02\x30\x00"
        )
    );
    Ok(())
}
