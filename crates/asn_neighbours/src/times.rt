//! Times in their elements (RFC 5280, 4.1.2.5), and their neighbours. The octets are by tests/vectors/neighbours.py, the seconds
//! by Python's `calendar.timegm`.
use asn_types::read_time;
use der_base::whole;
use std::test::Fail;

/// The second that octets tell, where they are a time alone.
fn second_of(bytes: &[u8]) -> Option<u64> {
    let Ok(e) = whole(bytes) else {
        return None;
    };
    read_time(&e).ok()
}

#[test]
fn short_times_are_read(rt: HostRuntime) -> Result<(), Fail> {
    assert_eq!(rt; second_of(b"\x17\x0d700101000000Z"), Some(0));
    assert_eq!(rt; second_of(b"\x17\x0d240229000000Z"), Some(1_709_164_800));
    assert_eq!(rt; second_of(b"\x17\x0d491231235959Z"), Some(2_524_607_999));
    Ok(())
}

#[test]
fn long_times_are_read(rt: HostRuntime) -> Result<(), Fail> {
    assert_eq!(rt; second_of(b"\x18\x0f19700101000000Z"), Some(0));
    assert_eq!(rt; second_of(b"\x18\x0f20240229000000Z"), Some(1_709_164_800));
    assert_eq!(rt; second_of(b"\x18\x0f20500101000000Z"), Some(2_524_608_000));
    assert_eq!(rt;
        second_of(b"\x18\x0f99991231235959Z"),
        Some(253_402_300_799)
    );
    Ok(())
}

#[test]
fn times_beside_them_are_refused(rt: HostRuntime) -> Result<(), Fail> {
    assert_eq!(rt; second_of(b"\x17\x0d491231235959"), None);
    assert_eq!(rt; second_of(b"\x17\x0d491231235959Z\x00"), None);
    assert_eq!(rt; second_of(b"\x17\x81\x0d491231235959Z"), None);
    assert_eq!(rt; second_of(b"\x18\x0f99991231235959"), None);
    assert_eq!(rt; second_of(b"\x18\x0f99991231235959Z\x00"), None);
    assert_eq!(rt; second_of(b"\x18\x81\x0f99991231235959Z"), None);
    Ok(())
}

#[test]
fn days_that_no_calendar_has_are_refused(rt: HostRuntime) -> Result<(), Fail> {
    assert_eq!(rt; second_of(b"\x17\x0d230229000000Z"), None);
    assert_eq!(rt; second_of(b"\x18\x0f20230229000000Z"), None);
    Ok(())
}
