// Keys and signatures that Bouncy Castle 1.72 made (LMOtsPrivateKey, with fixed seeds), each of
// them computed once more by a Python program over hashlib.

use crate::all::{ends, secrets};
use crate::chain::{chain, secret_chain};
use crate::{
    KeyPart, SignFault, candidate, public_hash, public_hashes_in, sign_ots, signature_leads_to_key,
};
use cmp_values::Octets;
use lms_params::with_ots;
use sha2::{Digest, Sha256};
use std::test::Fail;

struct Vector {
    ots: u32,
    // The public hash of key 0 of the first seed, and that of key 0x01020304 of the second.
    first: &'static [u8; 32],
    second: &'static [u8; 32],
    // SHA-256 of the second key's signature of TEXT.
    signature: &'static [u8; 32],
    // The candidate of that signature with the lowest bit of octet 36, the first of y[0], turned.
    corrupted: &'static [u8; 32],
}

const Q: u32 = 0x01020304;

const TEXT: &[u8] = b"enrolment request";

const VECTORS: [Vector; 4] = [
    Vector {
        ots: 1,
        first: b"\xc0\x70\xc6\x30\x95\x81\x0c\xb4\x9f\xd5\x16\xff\x72\x2c\xe3\x96\xd0\x1c\x77\xc0\x85\x3e\x78\xeb\x60\x61\xcb\xb0\xe4\x5d\xdd\x38",
        second: b"\x59\x51\xac\x3f\x25\xef\xef\x9c\xe9\xb1\xed\xf6\x5a\xe0\x4a\x72\x9e\x2b\x8b\x7a\x7f\x61\x46\xdc\xe0\x7a\x1e\xb9\xf2\x02\x2e\x9e",
        signature: b"\x1d\x91\xb6\x4f\x8b\x09\xc0\xf0\x4a\x1b\xb4\x23\x9d\x26\x86\x16\x0d\x6f\x58\xa5\x85\xee\x16\x03\x2d\xf1\xae\xe0\x30\x9b\x8e\x84",
        corrupted: b"\x6d\x25\x5b\x35\x9e\xd4\x2d\x59\x9d\x83\x0b\x8b\xec\x8a\xd1\x33\xee\x05\xae\xe6\xe5\x2a\x87\x3e\xac\x38\xf4\x26\x98\x0e\xc3\xc4",
    },
    Vector {
        ots: 2,
        first: b"\xf4\xd4\xa6\x05\xff\xb9\x17\x26\xe6\x55\x3f\x58\x37\x9c\x6d\x3e\xd9\xa4\x2f\xfe\x3d\x3c\x7a\x5f\xc3\x7f\x32\x53\x0c\x2d\xf3\x40",
        second: b"\xad\x6e\xc6\xa0\xf7\x29\xd5\x84\x29\x82\x17\x56\x97\x31\x8e\xe4\x54\xfb\xd7\x41\x9d\x95\x9c\xa6\x39\xb9\xb1\x4e\x9b\x96\xcd\x8e",
        signature: b"\x16\x98\xb5\xd5\xf3\x4c\x58\x93\x10\xa8\xf0\x81\x8a\xf1\xbc\x96\x18\xf5\x21\x45\x59\x61\x59\x1a\x60\x57\x7f\xdd\x7a\xa8\xa0\xaf",
        corrupted: b"\x24\xb0\x3e\x13\xf4\xd2\x60\x86\x97\x0b\x49\xad\xbd\x43\x42\x2d\xf9\x5a\x20\xa6\xf1\x5d\x70\x26\x48\xf2\xeb\x00\x27\xd4\x76\xa3",
    },
    Vector {
        ots: 3,
        first: b"\xeb\x1e\xbe\x9e\x8b\xbb\x31\x4f\x9f\x13\x83\x27\xc3\x35\x7f\x6a\xa0\x46\xb3\x03\x4f\xaa\x4a\x64\x45\x37\x4c\x38\xe9\xba\x7f\x18",
        second: b"\xa3\x69\x16\x1e\x05\x99\x85\xd1\x36\x21\xa4\x25\xac\x3b\x55\xa0\xa0\xcc\xb3\xdd\x1a\x62\x7d\x2f\x7f\x0d\xd8\x42\x97\x7a\xf5\xc9",
        signature: b"\xcc\xb2\xc2\x9a\x0f\x4f\x13\x11\x02\xb8\x77\xd8\x46\x48\x1b\xa2\xd8\x6a\x5d\xde\xcd\x77\x9c\x16\x4f\x80\x5c\xb2\xaf\xe1\x86\x83",
        corrupted: b"\x64\x85\x92\x44\xde\x9a\x7c\x66\xc2\x63\x51\x68\x5d\xac\x16\x93\x55\x3e\x6b\xd5\x58\x1b\x16\x5b\x3e\xb0\x12\x8c\x08\x2f\x29\xd7",
    },
    Vector {
        ots: 4,
        first: b"\xbe\xdb\x0a\x5d\x95\xa6\x24\x80\x50\x26\xd8\x19\x12\x13\x4b\xbd\xd8\xd9\xc0\xe9\x56\xba\x25\xeb\x04\xb8\x6c\x9c\x01\x24\x2c\x4e",
        second: b"\x0e\xd4\x16\x81\x62\x06\xa2\xc5\x68\xfa\xc9\x50\x7a\xb0\x60\x0b\xe6\x04\x05\x5b\xad\x5f\xad\x32\x55\xaa\xb9\xd3\x1c\xb2\x3f\x1c",
        signature: b"\xa3\xc5\x90\xeb\x1a\xa9\xbf\x8c\xd7\x72\x4a\xee\xc2\x2f\xc3\x38\x36\x7f\x43\xcc\xcb\xbb\x7d\x65\x41\x37\x91\x8b\x95\x3f\x74\xc7",
        corrupted: b"\x45\xb2\x05\x1d\x80\x4d\xf2\x98\x26\x68\x8f\x99\x23\xfb\x07\x12\x34\x88\x73\xc3\x59\x2b\xbb\x05\xd1\xa7\x93\xe5\xf8\xb0\x8a\x30",
    },
];

// The seed 00, 01, .., 1f with the identifier 80, 81, .., 8f.
fn first_key(ots: u32) -> KeyPart {
    let mut key = KeyPart {
        seed: [0; 32],
        id: [0; 16],
        ots,
    };
    for i in 0..32usize {
        key.seed[i] = i as u8;
    }
    for i in 0..16usize {
        key.id[i] = 0x80 + i as u8;
    }
    key
}

// The seed ff, fe, .., e0 with the identifier 7f, 7e, .., 70.
fn second_key(ots: u32) -> KeyPart {
    let mut key = KeyPart {
        seed: [0; 32],
        id: [0; 16],
        ots,
    };
    for i in 0..32usize {
        key.seed[i] = 0xff - i as u8;
    }
    for i in 0..16usize {
        key.id[i] = 0x7f - i as u8;
    }
    key
}

#[test]
fn public_hashes_of_each_set(rt: HostRuntime) {
    for vector in &VECTORS {
        assert_eq!(rt; public_hash(&first_key(vector.ots), 0), Some(*vector.first));
        assert_eq!(rt;
            public_hash(&second_key(vector.ots), Q),
            Some(*vector.second)
        );
    }
    assert_eq!(rt; public_hash(&first_key(5), 0), None);
}

#[test]
fn public_hashes_four_at_a_time(rt: HostRuntime) {
    for vector in &VECTORS {
        let first = first_key(vector.ots);
        let hashes = with_ots!(vector.ots, |set| public_hashes_in(set, &first, 0));
        assert_eq!(rt; hashes.map(|four| four[0]), Some(*vector.first));
        let second = second_key(vector.ots);
        let hashes = with_ots!(vector.ots, |set| public_hashes_in(set, &second, Q - 3));
        assert_eq!(rt; hashes.map(|four| four[3]), Some(*vector.second));
    }
}

#[test]
fn signatures_of_each_set(rt: HostRuntime) -> Result<(), Fail> {
    signature_leads_to_key();
    for vector in &VECTORS {
        let key = second_key(vector.ots);
        let mut out = Octets::copy_of(rt.alloc(), b"before")?;
        assert_eq!(rt; sign_ots(&key, Q, TEXT, &mut out), Ok(()));
        let (before, sig) = out.as_slice().split_at(6);
        assert_eq!(rt; before, b"before".as_slice());
        assert_eq!(rt; Sha256::digest(sig), *vector.signature);
        assert_eq!(rt;
            candidate(&key.id, Q, key.ots, TEXT, sig),
            Some(*vector.second)
        );

        let mut changed = sig.to_vec(rt.alloc())?;
        for (place, octet) in changed.iter_mut().enumerate() {
            if place == 36 {
                *octet ^= 1;
            }
        }
        let found = candidate(&key.id, Q, key.ots, TEXT, changed.as_slice());
        assert_eq!(rt; found, Some(*vector.corrupted));
        changed.push(0)?;
        assert_eq!(rt;
            candidate(&key.id, Q, key.ots, TEXT, changed.as_slice()),
            None
        );
        assert_eq!(rt; candidate(&key.id, Q, 5, TEXT, sig), None);
    }
    Ok(())
}

#[test]
fn no_set_has_code_5(rt: HostRuntime) -> Result<(), Fail> {
    let mut out = Octets::copy_of(rt.alloc(), b"before")?;
    let answer = sign_ots(&first_key(5), 0, TEXT, &mut out);
    assert_eq!(rt; answer, Err(SignFault::BadSet));
    assert_eq!(rt; out.as_slice(), b"before".as_slice());
    Ok(())
}

// The chains of a test: where each begins and ends, chains that end at once beside whole ones, and a last group of three.
const FROM: [u8; 11] = [0, 0, 0, 255, 7, 9, 200, 0, 3, 0, 254];

const TO: [u8; 11] = [0, 255, 1, 255, 7, 3, 255, 16, 15, 255, 255];

#[test]
fn four_chains_at_once_and_one_by_one(rt: HostRuntime) {
    let key = second_key(4);
    let mut starts = [[0u8; 32]; 11];
    secrets(&key.seed, &key.id, Q, &mut starts);
    let mut values = [[0u8; 32]; 11];
    ends(&key.id, Q, &FROM, &TO, &starts, &mut values);
    for i in 0..11usize {
        let number = i as u16;
        let start = secret_chain(&key.seed, &key.id, Q, number, 0);
        let from = u32::from(FROM[i]);
        let to = u32::from(TO[i]);
        assert_eq!(rt; starts[i], start);
        assert_eq!(rt; values[i], chain(&key.id, Q, number, from, to, &start));
    }
}
