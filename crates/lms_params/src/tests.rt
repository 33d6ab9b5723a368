// Values of the standard, and values that were worked out by hand.

use crate::{checksum, coef, ots_signature_size, tree_height, with_checksum};

// RFC 8554, 3.1.3: the digits of 0x1234. With four bits they are 1, 2, 3 and 4.
#[test]
fn digits_of_1234(rt: HostRuntime) {
    let text = [0x12, 0x34];
    for i in 0..4usize {
        assert_eq!(rt; coef(&text, i, 4) as usize, i + 1);
    }
    assert_eq!(rt; coef(&text, 7, 1), 0);
    assert_eq!(rt; coef(&text, 3, 2), 2);
}

// Of 32 octets 0, each digit is 0, so the sum is 32 * 255 with w = 8, and 256 with w = 1, which is
// shifted by 7 bits.
#[test]
fn checksums_of_zeros(rt: HostRuntime) {
    assert_eq!(rt; checksum(&[0; 32], 8, 0), 8160);
    assert_eq!(rt; checksum(&[0; 32], 1, 7), 32768);
    let octets = with_checksum(&[0; 32], 8, 0);
    assert_eq!(rt; (octets[32], octets[33]), (0x1f, 0xe0));
}

// RFC 8554, 4.1, table 1, the column sig_len, and 5.1, table 2, the column h.
#[test]
fn tables(rt: HostRuntime) {
    let sizes = [None, Some(8516), Some(4292), Some(2180), Some(1124), None];
    for (code, size) in sizes.iter().enumerate() {
        assert_eq!(rt; ots_signature_size(code as u32), *size);
    }
    let heights = [None, Some(5), Some(10), Some(15), Some(20), Some(25), None];
    for (place, height) in heights.iter().enumerate() {
        assert_eq!(rt; tree_height(place as u32 + 4), *height);
    }
}
