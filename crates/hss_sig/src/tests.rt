// Public keys and signatures that Bouncy Castle 1.72 made with fixed seeds (HSS, RFC 8554), each of
// them computed once more by a Python program over hashlib. The signatures are long, so what stands
// here is their SHA-256.

use crate::{
    BadSig, LeafSigner, OneLevel, hss_ok, one_level_verifies, read_key, read_sig,
    valid_signatures_are_read,
};
use cmp_values::Octets;
use lms_tree::Set;
use sha2::{Digest, Sha256};
use std::alloc::{AllocError, Global};
use std::test::Fail;

// The key of a level, and the leaf that signed.
#[derive(Clone, Copy, Drop)]
struct Level {
    set: Set,
    seed: &'static [u8; 32],
    id: &'static [u8; 16],
    leaf: u32,
}

// The lowest level comes first. The name ends in the text's number: "text number 0", for example.
const TWO_0: [Level; 2] = [
    Level {
        set: Set { tree: 5, ots: 4 },
        seed: b"\x0b\x03\x3b\x75\x87\xa7\xb2\xe4\x5e\x09\x5e\x2e\x48\x9b\xb5\x33\xd5\xd7\x9e\xdf\x5e\xd2\x1f\x08\x48\x88\xba\x05\x59\xfd\x3a\x56",
        id: b"\x20\x94\x27\x43\x6f\xbf\x2e\x86\x4f\x17\x0c\x0f\x7b\xac\xad\x98",
        leaf: 0,
    },
    Level {
        set: Set { tree: 5, ots: 4 },
        seed: b"\x00\x01\x02\x03\x04\x05\x06\x07\x08\x09\x0a\x0b\x0c\x0d\x0e\x0f\x10\x11\x12\x13\x14\x15\x16\x17\x18\x19\x1a\x1b\x1c\x1d\x1e\x1f",
        id: b"\x80\x81\x82\x83\x84\x85\x86\x87\x88\x89\x8a\x8b\x8c\x8d\x8e\x8f",
        leaf: 0,
    },
];

const TWO_0_KEY: &[u8; 60] =
    b"\x00\x00\x00\x02\x00\x00\x00\x05\x00\x00\x00\x04\x80\x81\x82\x83\x84\x85\x86\x87\x88\x89\x8a\x8b\x8c\x8d\x8e\x8f\x80\x94\x56\xa9\x3f\xfb\x32\x9c\xd3\xac\x34\x05\x1b\x37\x72\x2a\x08\xef\x8e\x5e\xe9\x86\x25\x6e\xbd\xb4\x9a\xd7\xb1\x98\x1b\xf8";

const TWO_0_SIGNED: &[u8; 32] =
    b"\x31\x3f\x1e\xcd\xbc\x96\xb3\xe4\x00\xce\x23\x5c\x2c\x7e\xa6\xac\x65\x9c\xe5\x65\xf5\x9b\x25\x4e\x9f\x20\x74\x5e\x2f\xb7\x58\x22";

const TWO_37: [Level; 2] = [
    Level {
        set: Set { tree: 5, ots: 4 },
        seed: b"\xd1\xbf\xc8\x12\x55\xcd\x37\x91\x7f\x32\x98\xc2\x11\xee\xd7\xc8\xd6\xa4\x77\x97\xaf\x5f\x95\x34\x60\x89\x7d\x3e\x68\xe6\x7e\x3b",
        id: b"\xef\xf8\x60\xa9\x6d\x1a\x77\x84\xd3\x5e\xf9\x64\x02\x3c\xed\x7a",
        leaf: 5,
    },
    Level {
        set: Set { tree: 6, ots: 3 },
        seed: b"\x00\x01\x02\x03\x04\x05\x06\x07\x08\x09\x0a\x0b\x0c\x0d\x0e\x0f\x10\x11\x12\x13\x14\x15\x16\x17\x18\x19\x1a\x1b\x1c\x1d\x1e\x1f",
        id: b"\x80\x81\x82\x83\x84\x85\x86\x87\x88\x89\x8a\x8b\x8c\x8d\x8e\x8f",
        leaf: 1,
    },
];

const TWO_37_KEY: &[u8; 60] =
    b"\x00\x00\x00\x02\x00\x00\x00\x06\x00\x00\x00\x03\x80\x81\x82\x83\x84\x85\x86\x87\x88\x89\x8a\x8b\x8c\x8d\x8e\x8f\xbb\x5f\x36\x60\x67\xfe\xce\x16\xae\xa9\x76\xe1\xeb\x00\x5d\x98\xe7\x96\x11\xbd\x19\x66\x89\x6e\x34\x2b\x7b\x85\x97\x1e\xb8\xee";

const TWO_37_SIGNED: &[u8; 32] =
    b"\xa4\x06\xe5\xbc\xed\x2b\x24\xe4\xb2\xaf\x96\xa1\x1b\x9d\x5e\x9f\xb9\x8b\x64\x66\x28\xa9\xc5\x5b\xe4\x3c\xb3\xe1\x28\x64\x67\x24";

const EIGHT_5: [Level; 8] = [
    Level {
        set: Set { tree: 5, ots: 4 },
        seed: b"\x9b\x89\xc7\xfa\x51\x89\x9a\xc9\xf7\x47\xb5\x41\x7c\x89\x7c\x53\x52\xbe\x54\x5f\x03\xd5\x1a\x5d\xe3\x1a\xa4\xc4\x9c\xb7\x32\xbd",
        id: b"\x0d\xba\x26\x76\x4a\xb0\x00\x49\x73\x74\xe6\x4d\x55\x3f\x23\xb9",
        leaf: 5,
    },
    Level {
        set: Set { tree: 5, ots: 4 },
        seed: b"\xa4\xe0\xe9\xd2\xde\x06\x8e\x06\x71\xcc\xce\xa7\xc1\x84\x7e\x4c\x7d\xa2\x18\xf8\xda\x08\x77\xea\xd9\x5b\xfa\xa3\x4b\x4a\x10\xb1",
        id: b"\xcb\xe8\x07\x40\x65\x04\xf9\xef\x3b\x91\x57\xe5\x85\x39\xb4\xa3",
        leaf: 0,
    },
    Level {
        set: Set { tree: 5, ots: 4 },
        seed: b"\x9f\xf9\x4e\x9f\x10\xde\xa6\xcd\x6b\x28\xdc\x7d\x6c\x8d\x08\x38\x1d\x68\x45\xd3\x33\x33\x33\xfa\x5e\xc9\xce\x9d\xb4\x27\x68\x9c",
        id: b"\x42\x3f\x29\xbc\xce\x18\x03\x12\xd9\x0f\xbb\x61\x8e\xb9\x89\xb5",
        leaf: 0,
    },
    Level {
        set: Set { tree: 5, ots: 4 },
        seed: b"\xad\x93\x78\x08\x38\x99\x5f\x1e\xe3\xc4\xc9\x2b\x84\xad\x13\x4f\x7e\x97\xd1\x74\x73\xe0\x55\x89\x87\x22\x4c\x45\x93\xed\xe9\x1b",
        id: b"\xd4\x5e\x69\xde\x31\xd3\x7d\x74\xaf\x27\xd7\x41\xb3\x11\x18\xb2",
        leaf: 0,
    },
    Level {
        set: Set { tree: 5, ots: 4 },
        seed: b"\x3d\x92\x14\x8b\x65\x1e\xa5\x39\xd5\x9f\xe2\x02\x30\xce\xb7\x37\xea\xe2\x72\xc2\x87\x47\x4e\x3f\x7c\xea\xae\xb4\x51\xed\x04\x9c",
        id: b"\xa1\x1c\x9a\x2f\xca\x97\xff\x61\xc2\xe7\x35\xe5\x77\x64\xbf\xe8",
        leaf: 0,
    },
    Level {
        set: Set { tree: 5, ots: 4 },
        seed: b"\x15\xcb\xe0\xcd\x86\x4a\x40\xf5\x66\x74\x52\x6d\x67\x2a\x5a\x62\x7b\x15\x12\x10\xcc\xb2\x56\x10\x16\x1c\xcc\xa8\x89\x46\xd1\x6c",
        id: b"\xcf\xd6\xa9\x1c\xaa\x1b\x3e\x79\x0f\x23\xe2\x27\xab\x0d\x6e\xd5",
        leaf: 0,
    },
    Level {
        set: Set { tree: 5, ots: 4 },
        seed: b"\x0b\x03\x3b\x75\x87\xa7\xb2\xe4\x5e\x09\x5e\x2e\x48\x9b\xb5\x33\xd5\xd7\x9e\xdf\x5e\xd2\x1f\x08\x48\x88\xba\x05\x59\xfd\x3a\x56",
        id: b"\x20\x94\x27\x43\x6f\xbf\x2e\x86\x4f\x17\x0c\x0f\x7b\xac\xad\x98",
        leaf: 0,
    },
    Level {
        set: Set { tree: 5, ots: 4 },
        seed: b"\x00\x01\x02\x03\x04\x05\x06\x07\x08\x09\x0a\x0b\x0c\x0d\x0e\x0f\x10\x11\x12\x13\x14\x15\x16\x17\x18\x19\x1a\x1b\x1c\x1d\x1e\x1f",
        id: b"\x80\x81\x82\x83\x84\x85\x86\x87\x88\x89\x8a\x8b\x8c\x8d\x8e\x8f",
        leaf: 0,
    },
];

const EIGHT_5_KEY: &[u8; 60] =
    b"\x00\x00\x00\x08\x00\x00\x00\x05\x00\x00\x00\x04\x80\x81\x82\x83\x84\x85\x86\x87\x88\x89\x8a\x8b\x8c\x8d\x8e\x8f\x80\x94\x56\xa9\x3f\xfb\x32\x9c\xd3\xac\x34\x05\x1b\x37\x72\x2a\x08\xef\x8e\x5e\xe9\x86\x25\x6e\xbd\xb4\x9a\xd7\xb1\x98\x1b\xf8";

const EIGHT_5_SIGNED: &[u8; 32] =
    b"\xf1\xcf\x09\x9b\x54\xe5\x1d\x5d\x4d\x85\x9d\x8c\x34\xab\xf8\x02\xbe\xf5\xb5\xaf\xd1\xf1\x66\xc0\x54\x1a\x5a\x9a\x9d\xda\x53\xfe";

const EIGHT_35: [Level; 8] = [
    Level {
        set: Set { tree: 5, ots: 4 },
        seed: b"\x0b\x56\x39\x38\xa6\x5d\x7f\xfb\xd1\xd0\xc9\x99\x7a\x17\x3f\x34\x57\xaa\xe1\x4d\x4c\x5a\x18\xd5\xf2\x2e\xec\x82\x6a\x86\x7b\xbb",
        id: b"\x79\x4b\x20\xbd\x17\xf6\x4a\x71\xbc\x66\x87\xc4\x2b\x00\xcb\x0d",
        leaf: 3,
    },
    Level {
        set: Set { tree: 6, ots: 3 },
        seed: b"\xa4\xe0\xe9\xd2\xde\x06\x8e\x06\x71\xcc\xce\xa7\xc1\x84\x7e\x4c\x7d\xa2\x18\xf8\xda\x08\x77\xea\xd9\x5b\xfa\xa3\x4b\x4a\x10\xb1",
        id: b"\xcb\xe8\x07\x40\x65\x04\xf9\xef\x3b\x91\x57\xe5\x85\x39\xb4\xa3",
        leaf: 1,
    },
    Level {
        set: Set { tree: 6, ots: 2 },
        seed: b"\x9f\xf9\x4e\x9f\x10\xde\xa6\xcd\x6b\x28\xdc\x7d\x6c\x8d\x08\x38\x1d\x68\x45\xd3\x33\x33\x33\xfa\x5e\xc9\xce\x9d\xb4\x27\x68\x9c",
        id: b"\x42\x3f\x29\xbc\xce\x18\x03\x12\xd9\x0f\xbb\x61\x8e\xb9\x89\xb5",
        leaf: 0,
    },
    Level {
        set: Set { tree: 6, ots: 1 },
        seed: b"\xad\x93\x78\x08\x38\x99\x5f\x1e\xe3\xc4\xc9\x2b\x84\xad\x13\x4f\x7e\x97\xd1\x74\x73\xe0\x55\x89\x87\x22\x4c\x45\x93\xed\xe9\x1b",
        id: b"\xd4\x5e\x69\xde\x31\xd3\x7d\x74\xaf\x27\xd7\x41\xb3\x11\x18\xb2",
        leaf: 0,
    },
    Level {
        set: Set { tree: 5, ots: 4 },
        seed: b"\x3d\x92\x14\x8b\x65\x1e\xa5\x39\xd5\x9f\xe2\x02\x30\xce\xb7\x37\xea\xe2\x72\xc2\x87\x47\x4e\x3f\x7c\xea\xae\xb4\x51\xed\x04\x9c",
        id: b"\xa1\x1c\x9a\x2f\xca\x97\xff\x61\xc2\xe7\x35\xe5\x77\x64\xbf\xe8",
        leaf: 0,
    },
    Level {
        set: Set { tree: 5, ots: 3 },
        seed: b"\x15\xcb\xe0\xcd\x86\x4a\x40\xf5\x66\x74\x52\x6d\x67\x2a\x5a\x62\x7b\x15\x12\x10\xcc\xb2\x56\x10\x16\x1c\xcc\xa8\x89\x46\xd1\x6c",
        id: b"\xcf\xd6\xa9\x1c\xaa\x1b\x3e\x79\x0f\x23\xe2\x27\xab\x0d\x6e\xd5",
        leaf: 0,
    },
    Level {
        set: Set { tree: 5, ots: 2 },
        seed: b"\x0b\x03\x3b\x75\x87\xa7\xb2\xe4\x5e\x09\x5e\x2e\x48\x9b\xb5\x33\xd5\xd7\x9e\xdf\x5e\xd2\x1f\x08\x48\x88\xba\x05\x59\xfd\x3a\x56",
        id: b"\x20\x94\x27\x43\x6f\xbf\x2e\x86\x4f\x17\x0c\x0f\x7b\xac\xad\x98",
        leaf: 0,
    },
    Level {
        set: Set { tree: 5, ots: 1 },
        seed: b"\x00\x01\x02\x03\x04\x05\x06\x07\x08\x09\x0a\x0b\x0c\x0d\x0e\x0f\x10\x11\x12\x13\x14\x15\x16\x17\x18\x19\x1a\x1b\x1c\x1d\x1e\x1f",
        id: b"\x80\x81\x82\x83\x84\x85\x86\x87\x88\x89\x8a\x8b\x8c\x8d\x8e\x8f",
        leaf: 0,
    },
];

const EIGHT_35_KEY: &[u8; 60] =
    b"\x00\x00\x00\x08\x00\x00\x00\x05\x00\x00\x00\x01\x80\x81\x82\x83\x84\x85\x86\x87\x88\x89\x8a\x8b\x8c\x8d\x8e\x8f\xe9\x57\x59\x35\xc1\x75\x7b\xd2\xd0\x01\x00\xcf\x50\xaf\x0a\x5c\x15\x79\xdb\xbf\x02\xa3\x6a\x24\x9e\xa5\x80\xe4\x86\x12\x5e\x92";

const EIGHT_35_SIGNED: &[u8; 32] =
    b"\x97\xd3\x94\x17\xf1\x9c\x6a\x60\x66\xa9\xfb\xd8\x23\xa1\x04\x82\xc6\x4e\x83\x76\x32\xeb\x58\xec\xfb\x85\x84\xbe\x83\xdb\xab\x58";

const ONE_KEY: &[u8; 60] =
    b"\x00\x00\x00\x01\x00\x00\x00\x05\x00\x00\x00\x04\x80\x81\x82\x83\x84\x85\x86\x87\x88\x89\x8a\x8b\x8c\x8d\x8e\x8f\x80\x94\x56\xa9\x3f\xfb\x32\x9c\xd3\xac\x34\x05\x1b\x37\x72\x2a\x08\xef\x8e\x5e\xe9\x86\x25\x6e\xbd\xb4\x9a\xd7\xb1\x98\x1b\xf8";

// The signatures of one level by the first leaf and by the last.
const ONE_0_SIGNED: &[u8; 32] =
    b"\xe2\x60\x54\xce\x16\xec\xab\xee\xf7\x34\x96\x62\xdd\x1e\xac\x83\xfa\xa4\x30\x9b\x42\x9e\x11\x9e\x3c\x39\x51\x28\xb4\x51\x90\xd1";

const ONE_31_SIGNED: &[u8; 32] =
    b"\xb4\x04\xe7\x48\x90\xc0\xa9\x80\x94\x51\x38\x46\xee\x53\x2b\xda\xf4\x8b\xe9\x75\xdf\x57\xdf\x9e\x98\x57\xb0\x32\xaf\x43\x5f\x7a";

// The octets from a place on.
fn behind(octets: &[u8], place: usize) -> &[u8] {
    if octets.len() < place {
        return octets;
    }
    let (_, rest) = octets.split_at(place);
    rest
}

// The first level's LMS key, and behind it what follows the number of levels in a signature.
fn signed_by(alloc: Global, levels: &[Level], text: &[u8]) -> Result<Octets, AllocError> {
    let mut signed = Octets::copy_of(alloc, text)?;
    let mut parts = Octets::empty(alloc);
    for level in levels {
        let Ok(key) = OneLevel::grow(alloc, level.seed, level.id, level.set) else {
            return Err(AllocError);
        };
        if level.leaf >= key.leaves() {
            return Err(AllocError);
        }
        let sig = key.sign_at(level.leaf, signed.as_slice())?;
        let public = key.public();
        signed = Octets::copy_of(alloc, behind(&public, 4))?;
        let mut whole = Octets::copy_of(alloc, behind(&public, 4))?;
        whole.append(behind(sig.as_slice(), 4))?;
        whole.append(parts.as_slice())?;
        parts = whole;
    }
    Ok(parts)
}

// The signature that the keys of some levels make; `upper` is the number of levels less one.
fn signature(
    alloc: Global,
    levels: &[Level],
    upper: u32,
    text: &[u8],
) -> Result<Octets, AllocError> {
    let parts = signed_by(alloc, levels, text)?;
    let mut sig = Octets::copy_of(alloc, &upper.to_be_bytes())?;
    sig.append(behind(parts.as_slice(), 56))?;
    Ok(sig)
}

// Whether a signature of `upper` and one levels has this SHA-256, is read and is valid, and isn't
// valid for another text or with its last octet changed.
fn agrees(key: &[u8; 60], upper: u32, text: &[u8], sig: Octets, digest: &[u8; 32]) -> bool {
    let same = Sha256::digest(sig.as_slice()) == *digest;
    let read = match read_sig(sig.as_slice()) {
        Ok(read) => read.levels > upper && read.levels - upper == 1,
        Err(_) => false,
    };
    let valid = hss_ok(key, text, sig.as_slice());
    let other = hss_ok(key, b"another text", sig.as_slice());
    let mut octets = sig.into_vec();
    if let Some(octet) = octets.last_mut() {
        *octet ^= 1;
    }
    same && read && valid && !other && !hss_ok(key, text, octets.as_slice())
}

#[test]
fn public_keys(rt: HostRuntime) {
    match read_key(TWO_0_KEY) {
        Ok(key) => {
            assert_eq!(rt; key.levels, 2);
            assert_eq!(rt; key.first.len(), 56);
        }
        Err(_) => panic!(rt; "the key was not read"),
    }
    let (short, _) = TWO_0_KEY.split_at(59);
    assert!(rt; read_key(short).is_err());
}

#[test]
fn one_level(rt: HostRuntime) -> Result<(), Fail> {
    one_level_verifies();
    valid_signatures_are_read();
    let [_, first] = TWO_0;
    let key = match OneLevel::grow(rt.alloc(), first.seed, first.id, first.set) {
        Ok(key) => key,
        Err(_) => panic!(rt; "no key was grown"),
    };
    assert_eq!(rt; key.leaves(), 32);
    assert_eq!(rt; key.public(), *ONE_KEY);
    let sig = key.sign_at(0, b"text number 0")?;
    assert_eq!(rt; sig.len(), 1296);
    assert!(rt; !hss_ok(TWO_0_KEY, b"text number 0", sig.as_slice()));
    assert!(rt; agrees(ONE_KEY, 0, b"text number 0", sig, ONE_0_SIGNED));
    let last = key.sign_at(31, b"text number 31")?;
    assert!(rt; agrees(ONE_KEY, 0, b"text number 31", last, ONE_31_SIGNED));
    Ok(())
}

#[test]
fn two_levels(rt: HostRuntime) -> Result<(), Fail> {
    let sig = signature(rt.alloc(), &TWO_37, 1, b"text number 37")?;
    assert_eq!(rt; sig.len(), 3860);
    assert!(rt; agrees(TWO_37_KEY, 1, b"text number 37", sig, TWO_37_SIGNED));
    Ok(())
}

#[test]
fn eight_levels(rt: HostRuntime) -> Result<(), Fail> {
    let sig = signature(rt.alloc(), &EIGHT_5, 7, b"text number 5")?;
    assert_eq!(rt; sig.len(), 10732);
    assert!(rt; agrees(EIGHT_5_KEY, 7, b"text number 5", sig, EIGHT_5_SIGNED));
    let mixed = signature(rt.alloc(), &EIGHT_35, 7, b"text number 35")?;
    assert_eq!(rt; mixed.len(), 34444);
    assert!(rt; agrees(EIGHT_35_KEY, 7, b"text number 35", mixed, EIGHT_35_SIGNED));
    Ok(())
}

// Bouncy Castle refuses the same changes, but for the octet behind a signature, which it doesn't
// look at.
#[test]
fn changed_octets(rt: HostRuntime) -> Result<(), Fail> {
    let sig = signature(rt.alloc(), &TWO_0, 1, b"text number 0")?;
    let mut octets = sig.into_vec();
    assert_eq!(rt; Sha256::digest(octets.as_slice()), *TWO_0_SIGNED);
    // The number of levels; of the first signature the leaf, a typecode, C, y and the path; of the
    // next key the typecodes, the identifier and the root; of the last signature the leaf and the
    // path.
    for place in [
        3usize, 7, 11, 12, 44, 1295, 1299, 1303, 1304, 1351, 1355, 2643,
    ] {
        if let Some(octet) = octets.get_mut(place) {
            *octet ^= 1;
        }
        assert!(rt; !hss_ok(TWO_0_KEY, b"text number 0", octets.as_slice()));
        if let Some(octet) = octets.get_mut(place) {
            *octet ^= 1;
        }
    }
    assert!(rt; hss_ok(TWO_0_KEY, b"text number 0", octets.as_slice()));
    octets.push(0)?;
    assert!(rt; !hss_ok(TWO_0_KEY, b"text number 0", octets.as_slice()));
    assert_eq!(rt; read_sig(octets.as_slice()).err(), Some(BadSig));
    Ok(())
}
