//! Keys that protections are checked under.

use cmp_values::Short;

/// What a protection is checked under: a shared secret, or a public key of HSS/LMS in 60 octets (RFC 8554, 6.1).
#[derive(Clone, Copy, Debug)]
pub enum Key {
    Mac(Short),
    Lms([u8; 60]),
}
