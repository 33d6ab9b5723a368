//! Times both ways. The seconds are those of Python 3's `calendar.timegm` at the same date and time.
use crate::{generalized, read_generalized, read_utc, utc};
use std::test::Fail;

#[test]
fn writes_what_it_reads(rt: HostRuntime) -> Result<(), Fail> {
    let cases = [
        ("19700101000000Z", 0),
        ("20240229120000Z", 1_709_208_000),
        ("20491231235959Z", 2_524_607_999),
        ("20500101000000Z", 2_524_608_000),
        ("99991231235959Z", 253_402_300_799),
    ];
    for (text, t) in cases {
        assert_eq!(rt; read_generalized(text.as_bytes()), Some(t), "{text}");
        let written = generalized(rt.alloc(), t)?;
        assert_eq!(rt; written.as_slice(), text.as_bytes(), "{text}");
    }
    let short = [
        ("700101000000Z", 0),
        ("240229120000Z", 1_709_208_000),
        ("491231235959Z", 2_524_607_999),
    ];
    for (text, t) in short {
        assert_eq!(rt; read_utc(text.as_bytes()), Some(t), "{text}");
        let written = utc(rt.alloc(), t)?;
        assert_eq!(rt; written.as_slice(), text.as_bytes(), "{text}");
    }
    Ok(())
}

#[test]
fn refuses_what_is_no_time(rt: HostRuntime) {
    let long = [
        "20230229000000Z",
        "21000229000000Z",
        "20240431000000Z",
        "20241301000000Z",
        "20240001000000Z",
        "20240100000000Z",
        "20240101240000Z",
        "20240101006000Z",
        "20240101000060Z",
        "19691231235959Z",
        "20240101000000z",
        "20240101000000",
        "20240101000000ZZ",
        "20240101000000.5Z",
        "2024010100000 Z",
        "",
    ];
    for text in long {
        assert_eq!(rt; read_generalized(text.as_bytes()), None, "{text}");
    }
    for text in [
        "500101000000Z",
        "691231235959Z",
        "230229000000Z",
        "2402291200Z",
        "20240229120000Z",
    ] {
        assert_eq!(rt; read_utc(text.as_bytes()), None, "{text}");
    }
}
