//! Vectors from outside: the HMAC values are those of RFC 4231, sections 4.2 to 4.5, 4.7 and 4.8, and the
//! PBKDF2 values come from Python's `hashlib.pbkdf2_hmac('sha256', secret, salt, rounds)`, over OpenSSL.

use crate::{hmac256, pbkdf2_256};
use hex::encode;
use std::test::Fail;

#[test]
fn hmac_of_the_rfc_cases(rt: HostRuntime) -> Result<(), Fail> {
    let ascending: [u8; 25] = [
        1, 2, 3, 4, 5, 6, 7, 8, 9, 10, 11, 12, 13, 14, 15, 16, 17, 18, 19, 20, 21, 22, 23, 24, 25,
    ];
    let long_text: &[u8] =
        b"This is a test using a larger than block-size key and a larger than block-size data. The key needs to be hashed before being used by the HMAC algorithm.";
    let cases: [(&[u8], &[u8], &str); 6] = [
        (
            &[0x0b; 20],
            b"Hi There",
            "b0344c61d8db38535ca8afceaf0bf12b881dc200c9833da726e9376c2e32cff7",
        ),
        (
            b"Jefe",
            b"what do ya want for nothing?",
            "5bdcc146bf60754e6a042426089575c75a003f089d2739839dec58b964ec3843",
        ),
        (
            &[0xaa; 20],
            &[0xdd; 50],
            "773ea91e36800e46854db8ebd09181a72959098b3ef8c122d9635514ced565fe",
        ),
        (
            &ascending,
            &[0xcd; 50],
            "82558a389a443c0ea4cc819899f2083a85f0faa3e578f8077a2e3ff46729665b",
        ),
        (
            &[0xaa; 131],
            b"Test Using Larger Than Block-Size Key - Hash Key First",
            "60e431591ee0b67f0d8a26aacbf5b77f8e0bc6213728c5140546040f0ee37f54",
        ),
        (
            &[0xaa; 131],
            long_text,
            "9b09ffa71b942fcb27635fbcd5b0e944bfdc63644f0713938a7f51535c3a35e2",
        ),
    ];
    for (key, text, want) in cases {
        let whole = encode(rt.alloc(), &hmac256(key, text, b""))?;
        assert_eq!(rt; whole.as_str(), want);
        let (front, back) = text.split_at(text.len() / 2);
        let halves = encode(rt.alloc(), &hmac256(key, front, back))?;
        assert_eq!(rt; halves.as_str(), want);
    }
    Ok(())
}

#[test]
fn pbkdf2_of_another_implementation(rt: HostRuntime) -> Result<(), Fail> {
    let cases: [(&[u8], &[u8], u32, &str); 6] = [
        (
            b"password",
            b"salt",
            1,
            "120fb6cffcf8b32c43e7225256c4f837a86548c92ccc35480805987cb70be17b",
        ),
        (
            b"password",
            b"salt",
            2,
            "ae4d0c95af6b46d32d0adff928f06dd02a303f8ef3c251dfd6e2d85a95474c43",
        ),
        (
            b"password",
            b"salt",
            4096,
            "c5e478d59288c841aa530db6845c4c8d962893a001ce4e11a4963873aa98134a",
        ),
        (
            b"passwordPASSWORDpassword",
            b"saltSALTsaltSALTsaltSALTsaltSALTsalt",
            4096,
            "348c89dbcbd32b2f32d814b8116e84cf2b17347ebc1800181c4e2a1fb8dd53e1",
        ),
        (
            b"pass\0word",
            b"sa\0lt",
            4096,
            "89b69d0516f829893c696226650a86878c029ac13ee276509d5ae58b6466a724",
        ),
        (
            &[b'p'; 65],
            b"",
            3,
            "22a288b26df08ee43b6699d2519cff7f397beac21ff82b833e0993ce585862a5",
        ),
    ];
    for (secret, salt, rounds, want) in cases {
        if rounds >= 1 {
            let key = encode(rt.alloc(), &pbkdf2_256(secret, salt, rounds))?;
            assert_eq!(rt; key.as_str(), want);
        }
    }
    Ok(())
}
