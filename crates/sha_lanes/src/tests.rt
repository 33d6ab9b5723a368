// Digests that Python's hashlib made. An octet of a message is 64 times its lane, plus its place.

use crate::{
    choose, compress4, digest_parts, first_rounds, front_words, hash4, one_block, value_octets,
    value_words,
};
use std::simd::u32x4;

const DIGESTS: [&[u8; 32]; 4] = [
    b"\x46\x3e\xb2\x8e\x72\xf8\x2e\x0a\x96\xc0\xa4\xcc\x53\x69\x0c\x57\x12\x81\x13\x1f\x67\x2a\xa2\x29\xe0\xd4\x5a\xe5\x9b\x59\x8b\x59",
    b"\x7e\x68\x05\x76\x03\x27\xed\xcf\x1a\x0c\x9a\x94\x27\x5b\xd2\xfc\x15\x54\x4d\xac\xd6\xcb\x84\xce\xe0\xc7\x44\x6c\x8a\xaa\x8b\x7f",
    b"\x14\xf5\x03\xab\xd5\xf9\x6b\x9f\xd1\xc6\xf0\x1f\xd4\x53\xf0\x8b\x23\x35\x8b\x17\x63\x1d\x5a\x7d\x8a\xd0\x20\x3b\x70\x1f\x05\x5a",
    b"\x00\x43\x6b\x2f\xb2\xcd\x96\xae\x32\xb9\x38\x61\xfa\xff\xe4\xbb\xe3\x51\x13\xef\xab\x9e\x4b\xeb\x95\xb3\x49\xc6\x31\xf1\xd5\x45",
];

// The same with 0x2a in place 22 of each.
const PLACED_DIGESTS: [&[u8; 32]; 4] = [
    b"\x67\x56\xaa\xa1\x7a\x51\x99\x1e\x5d\x8d\x50\xd0\x63\xdf\xab\x81\x09\xda\xf5\x3e\x7e\x14\xf4\x5e\xaa\xed\xb2\x3d\xd7\x12\x69\xbc",
    b"\x63\x27\x1b\x81\x36\x89\xb8\x22\xc1\xf3\x12\xe7\xe2\x31\x81\xa6\xac\x3e\x76\xff\x82\x32\x79\x5d\x3c\xb3\xb0\x5a\x70\x02\x97\x47",
    b"\x6d\x10\x7b\xe2\xda\x62\xc3\x5f\x9c\x1e\x26\xc2\x1b\x14\xd2\xe6\x95\xa1\x35\xfb\x66\x6c\x5d\x5d\x41\x05\x64\x5d\x3a\x6c\xf9\x15",
    b"\xf8\x53\xd8\x04\x96\x50\xc5\x70\x35\x3c\xcf\xb5\x14\x49\xe3\x90\xfe\x98\x0d\x72\xb6\x5e\x00\x1a\x48\x6a\xf5\xab\x37\x74\xf4\x64",
];

// The octets from `first` on, each one more than the one before.
fn message(first: u8) -> [u8; 55] {
    let mut octets = [0u8; 55];
    for k in 0..55usize {
        octets[k] = first.wrapping_add(k as u8);
    }
    octets
}

#[test]
fn four_messages(rt: HostRuntime) {
    one_block();
    let messages = [message(0), message(64), message(128), message(192)];
    let digests = hash4(&messages);
    for i in 0..4usize {
        assert_eq!(rt; digests[i], *DIGESTS[i]);
    }
    assert_eq!(rt; value_octets(&value_words(&digests)), digests);
}

#[test]
fn four_messages_in_parts(rt: HostRuntime) {
    let messages = [message(0), message(64), message(128), message(192)];
    let mut fronts = [[0u8; 22]; 4];
    let mut values = [[0u8; 32]; 4];
    for i in 0..4usize {
        fronts[i].copy_from_slice(&messages[i][..22]);
        values[i].copy_from_slice(&messages[i][23..]);
    }
    let old = value_words(&values);
    let front = front_words(&fronts);
    let new = digest_parts(&front, &first_rounds(&front), 0x2a, &old);
    let chosen = value_octets(&choose(&[true, false, true, true], &new, &old));
    assert_eq!(rt; chosen[0], *PLACED_DIGESTS[0]);
    assert_eq!(rt; chosen[1], values[1]);
    assert_eq!(rt; chosen[2], *PLACED_DIGESTS[2]);
    assert_eq!(rt; chosen[3], *PLACED_DIGESTS[3]);
}

// The blocks of "abc", "", "a" and "message digest" (a row for each word) and the words of their digests.
const BLOCKS: [[u32; 4]; 16] = [
    [0x6162_6380, 0x8000_0000, 0x6180_0000, 0x6d65_7373],
    [0x0000_0000, 0x0000_0000, 0x0000_0000, 0x6167_6520],
    [0x0000_0000, 0x0000_0000, 0x0000_0000, 0x6469_6765],
    [0x0000_0000, 0x0000_0000, 0x0000_0000, 0x7374_8000],
    [0x0000_0000, 0x0000_0000, 0x0000_0000, 0x0000_0000],
    [0x0000_0000, 0x0000_0000, 0x0000_0000, 0x0000_0000],
    [0x0000_0000, 0x0000_0000, 0x0000_0000, 0x0000_0000],
    [0x0000_0000, 0x0000_0000, 0x0000_0000, 0x0000_0000],
    [0x0000_0000, 0x0000_0000, 0x0000_0000, 0x0000_0000],
    [0x0000_0000, 0x0000_0000, 0x0000_0000, 0x0000_0000],
    [0x0000_0000, 0x0000_0000, 0x0000_0000, 0x0000_0000],
    [0x0000_0000, 0x0000_0000, 0x0000_0000, 0x0000_0000],
    [0x0000_0000, 0x0000_0000, 0x0000_0000, 0x0000_0000],
    [0x0000_0000, 0x0000_0000, 0x0000_0000, 0x0000_0000],
    [0x0000_0000, 0x0000_0000, 0x0000_0000, 0x0000_0000],
    [0x0000_0018, 0x0000_0000, 0x0000_0008, 0x0000_0070],
];

const HASHES: [[u32; 4]; 8] = [
    [0xba78_16bf, 0xe3b0_c442, 0xca97_8112, 0xf784_6f55],
    [0x8f01_cfea, 0x98fc_1c14, 0xca1b_bdca, 0xcf23_e14e],
    [0x4141_40de, 0x9afb_f4c8, 0xfac2_31b3, 0xebea_b5b4],
    [0x5dae_2223, 0x996f_b924, 0x9a23_dc4d, 0xe155_0cad],
    [0xb003_61a3, 0x27ae_41e4, 0xa786_eff8, 0x5b50_9e33],
    [0x9617_7a9c, 0x649b_934c, 0x147c_4e72, 0x48fb_c4ef],
    [0xb410_ff61, 0xa495_991b, 0xb980_7785, 0xa3a1_413d],
    [0xf200_15ad, 0x7852_b855, 0xafee_48bb, 0x393c_b650],
];

const INITIAL: [u32; 8] = [
    0x6a09_e667,
    0xbb67_ae85,
    0x3c6e_f372,
    0xa54f_f53a,
    0x510e_527f,
    0x9b05_688c,
    0x1f83_d9ab,
    0x5be0_cd19,
];

#[test]
fn four_blocks(rt: HostRuntime) {
    let mut words = [u32x4::splat(0); 16];
    for t in 0..16usize {
        words[t] = u32x4::from_array(BLOCKS[t]);
    }
    let mut state = [u32x4::splat(0); 8];
    for t in 0..8usize {
        state[t] = u32x4::splat(INITIAL[t]);
    }
    let hashes = compress4(state, &words);
    for t in 0..8usize {
        assert_eq!(rt; hashes[t].to_array(), HASHES[t]);
    }
}
