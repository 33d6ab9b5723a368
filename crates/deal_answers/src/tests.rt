//! Two histories whose changes tests/vectors/history_vectors.py laid out with Python's `struct`. What each answers stands there,
//! written by hand from the rules of the history; identifiers of keys are hashlib's.

use crate::{
    Table, founding, grant_for, grant_of, hold_for, is_dismissed, is_key_taken, is_known,
    is_listed, is_lms_key, key_id, key_of, leaves_of, levels_of, not_after, ots_of, owner_of,
    tree_of,
};
use deal_model::{
    CertificateState, Change, DealState, Key, Kind, Reason, Standing, Who, read_change,
};
use hex::decode;
use std::alloc::Global;
use std::test::Fail;

fn add(alloc: Global, history: &mut Vec<Change>, text: &str) -> Result<(), Fail> {
    let octets: Vec<u8> = decode(alloc, text)?;
    history.push(read_change(alloc, &octets)?)?;
    Ok(())
}

/// Founding, a listed device, its certificate and its confirmation.
fn enrolment(alloc: Global) -> Result<Vec<Change>, Fail> {
    let mut history = Vec::new(alloc);
    // Found
    add(
        alloc,
        &mut history,
        "01000000006553f1000000001530133111300f06035504030c08466c656574204341000000010000000500000004808182838485868788898a8b8c8d8e8f101112131415161718191a1b1c1d1e1f202122232425262728292a2b2c2d2e2f000000010000000500000004a0a1a2a3a4a5a6a7a8a9aaabacadaeaf303132333435363738393a3b3c3d3e3f404142434445464748494a4b4c4d4e4f0000012c0000012c000003e80000003c0000016d",
    )?;
    // Enlist of dev-1
    add(
        alloc,
        &mut history,
        "02000000006553f100000101056465762d31087365637265742d3101",
    )?;
    // Grant
    add(
        alloc,
        &mut history,
        "0410000102030405060708090a0b0c0d0e0f0102030405060708090a0b0c0d0e0f101112131415161718191a1b1c1d1e1f2001056465762d3100000017a41530133111300f06035504030c086465766963652d310210505152535455565758595a5b5c5d5e5f8182838485868788898a8b8c8d8e8f909192939495969798999a9b9c9d9e9fa0000000006553f10000000000001530133111300f06035504030c086465766963652d3100000050304e300d060b2a864886f70d0109100311033d00000000010000000500000004404142434445464748494a4b4c4d4e4f505152535455565758595a5b5c5d5e5f606162636465666768696a6b6c6d6e6f00000010300e0603551d0f0101ff04040302078000000000000000000300000002",
    )?;
    // Settled, accepted
    add(
        alloc,
        &mut history,
        "0a10000102030405060708090a0b0c0d0e0f02030405060708090a0b0c0d0e0f101112131415161718191a1b1c1d1e1f202101056465762d3100000017a41530133111300f06035504030c086465766963652d310210505152535455565758595a5b5c5d5e5f82838485868788898a8b8c8d8e8f909192939495969798999a9b9c9d9e9fa0a1000000006553f1000001",
    )?;
    Ok(history)
}

/// A change of each kind.
fn every_kind(alloc: Global) -> Result<Vec<Change>, Fail> {
    let mut history = Vec::new(alloc);
    // Found
    add(
        alloc,
        &mut history,
        "01000000006553f1000000001530133111300f06035504030c08466c656574204341000000010000000500000004808182838485868788898a8b8c8d8e8f101112131415161718191a1b1c1d1e1f202122232425262728292a2b2c2d2e2f000000010000000500000004a0a1a2a3a4a5a6a7a8a9aaabacadaeaf303132333435363738393a3b3c3d3e3f404142434445464748494a4b4c4d4e4f0000012c0000012c000003e80000003c0000016d",
    )?;
    // Enlist of dev-1, dev-2 (hold), dev-3 and a signing key (revoke)
    add(
        alloc,
        &mut history,
        "02000000006553f100000401056465762d31087365637265742d310101056465762d32087365637265742d321101056465762d33087365637265742d330102147089b4dc56758cbca7e4e5761c9c66f3716f8c413c000000010000000500000004909192939495969798999a9b9c9d9e9fa0a1a2a3a4a5a6a7a8a9aaabacadaeafb0b1b2b3b4b5b6b7b8b9babbbcbdbebf09",
    )?;
    // Dismiss of dev-3
    add(alloc, &mut history, "03000000006553f10101056465762d33")?;
    // Grant 3 in A to dev-1
    add(
        alloc,
        &mut history,
        "0401410102030405060708090a0b0c0d0e0f101112131415161718191a1b1c1d1e1f2001056465762d3100000017a41530133111300f06035504030c086465766963652d310210505152535455565758595a5b5c5d5e5f8182838485868788898a8b8c8d8e8f909192939495969798999a9b9c9d9e9fa0000000006553f10200000000001530133111300f06035504030c086465766963652d3100000050304e300d060b2a864886f70d0109100311033d00000000010000000500000004404142434445464748494a4b4c4d4e4f505152535455565758595a5b5c5d5e5f606162636465666768696a6b6c6d6e6f00000010300e0603551d0f0101ff04040302078000000000000000000300000002",
    )?;
    // Settled of A, accepted
    add(
        alloc,
        &mut history,
        "0a014102030405060708090a0b0c0d0e0f101112131415161718191a1b1c1d1e1f202101056465762d3100000017a41530133111300f06035504030c086465766963652d310210505152535455565758595a5b5c5d5e5f82838485868788898a8b8c8d8e8f909192939495969798999a9b9c9d9e9fa0a1000000006553f1030001",
    )?;
    // Grant 4 in B to the signing key, implicit
    add(
        alloc,
        &mut history,
        "040142030405060708090a0b0c0d0e0f101112131415161718191a1b1c1d1e1f20212202147089b4dc56758cbca7e4e5761c9c66f3716f8c4100000017a41530133111300f06035504030c086465766963652d310210505152535455565758595a5b5c5d5e5f838485868788898a8b8c8d8e8f909192939495969798999a9b9c9d9e9fa0a1a2000000006553f1040100000000020000001530133111300f06035504030c086465766963652d3100000050304e300d060b2a864886f70d0109100311033d000000000100000005000000044142434445464748494a4b4c4d4e4f505152535455565758595a5b5c5d5e5f606162636465666768696a6b6c6d6e6f7000000010300e0603551d0f0101ff04040302078001000000000000000400000003",
    )?;
    // Hold of C by dev-2
    add(
        alloc,
        &mut history,
        "0501430405060708090a0b0c0d0e0f101112131415161718191a1b1c1d1e1f2021222301056465762d3200000017a41530133111300f06035504030c086465766963652d310210505152535455565758595a5b5c5d5e5f8485868788898a8b8c8d8e8f909192939495969798999a9b9c9d9e9fa0a1a2a3000000006553f10500040000001530133111300f06035504030c086465766963652d3100000050304e300d060b2a864886f70d0109100311033d0000000001000000050000000442434445464748494a4b4c4d4e4f505152535455565758595a5b5c5d5e5f606162636465666768696a6b6c6d6e6f707100000010300e0603551d0f0101ff04040302078000",
    )?;
    // Polled of C
    add(
        alloc,
        &mut history,
        "09014305060708090a0b0c0d0e0f101112131415161718191a1b1c1d1e1f202122232401056465762d3200000017a41530133111300f06035504030c086465766963652d310210505152535455565758595a5b5c5d5e5f85868788898a8b8c8d8e8f909192939495969798999a9b9c9d9e9fa0a1a2a3a4000000006553f10600",
    )?;
    // Release of C
    add(alloc, &mut history, "06000000006553f1070143")?;
    // Grant 5 in C to dev-2
    add(
        alloc,
        &mut history,
        "040143060708090a0b0c0d0e0f101112131415161718191a1b1c1d1e1f20212223242501056465762d3200000017a41530133111300f06035504030c086465766963652d310210505152535455565758595a5b5c5d5e5f868788898a8b8c8d8e8f909192939495969798999a9b9c9d9e9fa0a1a2a3a4a5000000006553f10800040000001530133111300f06035504030c086465766963652d3100000050304e300d060b2a864886f70d0109100311033d0000000001000000050000000442434445464748494a4b4c4d4e4f505152535455565758595a5b5c5d5e5f606162636465666768696a6b6c6d6e6f707100000010300e0603551d0f0101ff04040302078000000000000000000500000004",
    )?;
    // Hold of D by dev-2
    add(
        alloc,
        &mut history,
        "0501440708090a0b0c0d0e0f101112131415161718191a1b1c1d1e1f2021222324252601056465762d3200000017a41530133111300f06035504030c086465766963652d310210505152535455565758595a5b5c5d5e5f8788898a8b8c8d8e8f909192939495969798999a9b9c9d9e9fa0a1a2a3a4a5a6000000006553f10900000000001530133111300f06035504030c086465766963652d3100000050304e300d060b2a864886f70d0109100311033d00000000010000000500000004434445464748494a4b4c4d4e4f505152535455565758595a5b5c5d5e5f606162636465666768696a6b6c6d6e6f70717200000010300e0603551d0f0101ff04040302078000",
    )?;
    // Deny of D
    add(alloc, &mut history, "07000000006553f10a0144")?;
    // Turned of D
    add(
        alloc,
        &mut history,
        "08014408090a0b0c0d0e0f101112131415161718191a1b1c1d1e1f202122232425262701056465762d3200000017a41530133111300f06035504030c086465766963652d310210505152535455565758595a5b5c5d5e5f88898a8b8c8d8e8f909192939495969798999a9b9c9d9e9fa0a1a2a3a4a5a6a7000000006553f10b00",
    )?;
    // Revoke of 4 in E by the signing key, reason 4
    add(
        alloc,
        &mut history,
        "0b0145090a0b0c0d0e0f101112131415161718191a1b1c1d1e1f20212223242526272802147089b4dc56758cbca7e4e5761c9c66f3716f8c4100000017a41530133111300f06035504030c086465766963652d310210505152535455565758595a5b5c5d5e5f898a8b8c8d8e8f909192939495969798999a9b9c9d9e9fa0a1a2a3a4a5a6a7a8000000006553f10c0100000001000000000000000404",
    )?;
    // Grant 6 in F to dev-1
    add(
        alloc,
        &mut history,
        "0401460a0b0c0d0e0f101112131415161718191a1b1c1d1e1f2021222324252627282901056465762d3100000017a41530133111300f06035504030c086465766963652d310210505152535455565758595a5b5c5d5e5f8a8b8c8d8e8f909192939495969798999a9b9c9d9e9fa0a1a2a3a4a5a6a7a8a9000000006553f10d00000000001530133111300f06035504030c086465766963652d3100000050304e300d060b2a864886f70d0109100311033d000000000100000005000000044445464748494a4b4c4d4e4f505152535455565758595a5b5c5d5e5f606162636465666768696a6b6c6d6e6f7071727300000010300e0603551d0f0101ff04040302078000000000000000000600000005",
    )?;
    // Settled of F, rejected
    add(
        alloc,
        &mut history,
        "0a01460b0c0d0e0f101112131415161718191a1b1c1d1e1f202122232425262728292a01056465762d3100000017a41530133111300f06035504030c086465766963652d310210505152535455565758595a5b5c5d5e5f8b8c8d8e8f909192939495969798999a9b9c9d9e9fa0a1a2a3a4a5a6a7a8a9aa000000006553f10e0002",
    )?;
    // Lapse of C
    add(alloc, &mut history, "0c000000006553f2340143")?;
    Ok(history)
}

/// Whether these are 16 octets that begin and end so.
fn is_nonce(nonce: Option<[u8; 16]>, first: u8, last: u8) -> bool {
    match nonce {
        Some(octets) => octets[0] == first && octets[15] == last,
        None => false,
    }
}

/// Whether this is the key's identifier.
fn has_id(key: &[u8], kid: &[u8]) -> bool {
    key_id(key).as_slice() == kid
}

/// Whether a key has these numbers of levels, of its first tree's type and its signatures' type, and of leaves.
fn has_numbers(key: &[u8], levels: u32, tree: u32, ots: u32, leaves: u32) -> bool {
    if key.len() < 12 {
        return false;
    }
    let is_typed = tree_of(key) == tree && ots_of(key) == ots;
    is_typed && levels_of(key) == levels && leaves_of(key) == leaves
}

/// The first changes of a history.
fn beginning(history: &[Change], length: usize) -> &[Change] {
    if length <= history.len() {
        &history[..length]
    } else {
        history
    }
}

/// Whether a credential is good with this secret or key.
fn is_good_with(standing: Standing, material: &[u8]) -> bool {
    match standing {
        Standing::Good { key, .. } => key.as_slice() == material,
        _ => false,
    }
}

#[test]
fn an_enrolled_device_is_confirmed_until_its_last_day(rt: HostRuntime) -> Result<(), Fail> {
    let alloc = rt.alloc();
    let history = enrolment(alloc)?;
    let table = Table::of(&history).ok_or("these are times of a clock")?;
    let tid = [0, 1, 2, 3, 4, 5, 6, 7, 8, 9, 10, 11, 12, 13, 14, 15];
    assert_eq!(rt; table.certificate(3), Some(CertificateState::Confirmed));
    assert_eq!(rt; table.transaction(&tid), DealState::Closed);
    assert_eq!(rt; table.used(Key::Issue), 3);
    assert_eq!(rt; table.used(Key::Reply), 0);
    assert!(rt; is_nonce(table.nonce(&tid), 0x82, 0x91));
    assert!(rt;
        is_good_with(
            table.standing(Kind::Mac, b"dev-1", 1_700_000_000),
            b"secret-1"
        )
    );
    // The key of certificate 3, which is valid for 365 days less a second.
    let kid: Vec<u8> = decode(alloc, "71b7b6761417444e7754e1bb9261355dfbb4244d")?;
    assert!(rt; table.is_taken(&kid));
    let last = table.standing(Kind::Lms, &kid, 1_731_535_999);
    assert!(rt;
        matches!(
            last,
            Standing::Good {
                who: Who::Cert(3),
                rights: 1,
                ..
            }
        )
    );
    let late = table.standing(Kind::Lms, &kid, 1_731_536_000);
    assert!(rt; matches!(late, Standing::Barred));
    // Before it was confirmed.
    let open = Table::of(beginning(&history, 3)).ok_or("these are times of a clock")?;
    let deadline = 1_700_000_300;
    assert_eq!(rt;
        open.certificate(3),
        Some(CertificateState::Open { deadline })
    );
    assert_eq!(rt;
        open.transaction(&tid),
        DealState::Open {
            serial: 3,
            deadline
        }
    );
    Ok(())
}

#[test]
fn each_kind_of_change_is_answered(rt: HostRuntime) -> Result<(), Fail> {
    let alloc = rt.alloc();
    let history = every_kind(alloc)?;
    let table = Table::of(&history).ok_or("these are times of a clock")?;
    let certificates = [
        (3, Some(CertificateState::Confirmed)),
        (
            4,
            Some(CertificateState::Revoked {
                reason: Reason::Asked(4),
            }),
        ),
        (
            5,
            Some(CertificateState::Revoked {
                reason: Reason::Timeout,
            }),
        ),
        (
            6,
            Some(CertificateState::Revoked {
                reason: Reason::Rejected,
            }),
        ),
        (7, None),
    ];
    for (serial, state) in certificates {
        assert_eq!(rt; table.certificate(serial), state);
    }
    let transactions = [
        (b"A", DealState::Closed),
        (b"B", DealState::Closed),
        (b"C", DealState::Closed),
        (b"D", DealState::Denied),
        (b"E", DealState::Other),
        (b"F", DealState::Closed),
        (b"G", DealState::Unused),
    ];
    for (tid, state) in transactions {
        assert_eq!(rt; table.transaction(tid), state);
    }
    assert!(rt; table.is_told(b"D"));
    assert_eq!(rt; table.used(Key::Issue), 6);
    assert_eq!(rt; table.used(Key::Reply), 2);
    assert!(rt; is_nonce(table.nonce(b"C"), 0x86, 0x95));
    assert!(rt; table.nonce(b"G").is_none());
    Ok(())
}

#[test]
fn each_sender_stands_by_its_changes(rt: HostRuntime) -> Result<(), Fail> {
    let alloc = rt.alloc();
    let history = every_kind(alloc)?;
    let table = Table::of(&history).ok_or("these are times of a clock")?;
    let now = 1_700_000_400;
    let held = table.standing(Kind::Mac, b"dev-2", now);
    assert!(rt; matches!(held, Standing::Good { rights: 17, .. }));
    assert!(rt; matches!(table.standing(Kind::Mac, b"dev-3", now), Standing::Barred));
    assert!(rt; matches!(table.standing(Kind::Mac, b"dev-4", now), Standing::Unknown));
    assert!(rt;
        matches!(
            table.standing(Kind::Lms, b"dev-1", now),
            Standing::OtherKind
        )
    );
    let signing: Vec<u8> = decode(alloc, "7089b4dc56758cbca7e4e5761c9c66f3716f8c41")?;
    let signer = table.standing(Kind::Lms, &signing, now);
    assert!(rt; matches!(signer, Standing::Good { rights: 9, .. }));
    assert!(rt;
        matches!(
            table.sender(&Who::Cert(3), now),
            Standing::Good {
                who: Who::Cert(3),
                rights: 1,
                ..
            }
        )
    );
    assert!(rt; matches!(table.sender(&Who::Cert(5), now), Standing::Barred));
    // What a transaction was before its certificate.
    let held = Table::of(beginning(&history, 7)).ok_or("these are times of a clock")?;
    assert_eq!(rt; held.transaction(b"C"), DealState::Held);
    let released = Table::of(beginning(&history, 9)).ok_or("these are times of a clock")?;
    assert_eq!(rt; released.transaction(b"C"), DealState::Released);
    Ok(())
}

#[test]
fn keys_and_listed_senders_are_told(rt: HostRuntime) -> Result<(), Fail> {
    let alloc = rt.alloc();
    let history = every_kind(alloc)?;
    let settings = founding(&history).ok_or("it was founded")?;
    assert_eq!(rt; settings.days, 365);
    assert_eq!(rt; not_after(&history, 1_700_000_000), 1_731_535_999);
    let key: Vec<u8> = decode(
        alloc,
        "000000010000000500000004808182838485868788898a8b8c8d8e8f101112131415161718191a1b1c1d1e1f202122232425262728292a2b2c2d2e2f",
    )?;
    assert!(rt; has_numbers(&key, 1, 5, 4, 32));
    let kid: Vec<u8> = decode(alloc, "dceafed002c3f2ba0787c9baeb21ff9ad177f5d9")?;
    assert!(rt; has_id(&key, &kid));
    assert!(rt; is_key_taken(&history, &kid));
    assert!(rt; is_listed(&history, Kind::Mac, b"dev-3"));
    assert!(rt; is_dismissed(&history, Kind::Mac, b"dev-3"));
    assert!(rt; !is_dismissed(&history, Kind::Mac, b"dev-1"));
    assert!(rt; owner_of(&history, Kind::Mac, b"dev-3").is_some());
    Ok(())
}

#[test]
fn requests_are_found_by_what_names_them(rt: HostRuntime) -> Result<(), Fail> {
    let alloc = rt.alloc();
    let history = every_kind(alloc)?;
    assert!(rt; grant_for(&history, b"C").is_some());
    assert!(rt; hold_for(&history, b"C").is_some());
    assert!(rt; hold_for(&history, b"A").is_none());
    assert!(rt; grant_of(&history, 5).is_some());
    assert!(rt; grant_of(&history, 2).is_none());
    // The digest of the second message: 02, 03, .. 21.
    let octets: Vec<u8> = decode(
        alloc,
        "02030405060708090a0b0c0d0e0f101112131415161718191a1b1c1d1e1f2021",
    )?;
    let mut digest = [0u8; 32];
    if octets.len() == 32 {
        digest.copy_from_slice(&octets);
    }
    assert!(rt; is_known(&history, &digest));
    assert!(rt; !is_known(&history, &[0; 32]));
    // The key of certificate 3 behind its algorithm.
    let spki: Vec<u8> = decode(
        alloc,
        "304e300d060b2a864886f70d0109100311033d00000000010000000500000004404142434445464748494a4b4c4d4e4f505152535455565758595a5b5c5d5e5f606162636465666768696a6b6c6d6e6f",
    )?;
    assert!(rt; is_lms_key(&spki));
    let kid: Vec<u8> = decode(alloc, "71b7b6761417444e7754e1bb9261355dfbb4244d")?;
    assert!(rt; has_id(key_of(&spki), &kid));
    Ok(())
}
