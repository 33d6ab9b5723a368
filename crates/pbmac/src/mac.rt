ghost use Rattle.std.specs.Prelude.{◌≡◌, ◌≤◌, ◌++◌, ◌↔◌, IsTrue};
ghost use Rattle.pbmac.specs.Mac.{mac_of, MacOk};

use crate::params::MacParams;
use hash_kit::{hmac256, is_mac, pbkdf2_256};

/// The MAC of `first` followed by `second`, 32 octets (RFC 8018, 7.1.1).
pub fn make_mac_over(secret: &[u8], p: &MacParams, first: &[u8], second: &[u8]) -> [u8; 32]
    requires { 1 ≤ p.now.rounds }
    ensures { result ≡ mac_of secret.now p.now (first.now ++ second.now) }
{
    let key = pbkdf2_256(secret, p.salt.as_slice(), p.rounds);
    hmac256(&key, first, second)
}

/// Whether `mac` is the MAC of `first` followed by `second` (RFC 8018, 7.1.2). Goes over all 32 octets of it,
/// wherever the first difference stands; no clause speaks of time.
pub fn mac_ok_over(secret: &[u8], p: &MacParams, first: &[u8], second: &[u8], mac: &[u8]) -> bool
    requires { 1 ≤ p.now.rounds }
    ensures { IsTrue result ↔ MacOk secret.now p.now (first.now ++ second.now) mac.now }
{
    is_mac(&make_mac_over(secret, p, first, second), mac)
}

/// The MAC of a text, 32 octets (RFC 8018, 7.1.1).
pub fn make_mac(secret: &[u8], p: &MacParams, text: &[u8]) -> [u8; 32]
    requires { 1 ≤ p.now.rounds }
    ensures { result ≡ mac_of secret.now p.now text.now }
{
    make_mac_over(secret, p, &[], text)
}

/// Whether `mac` is the MAC of a text (RFC 8018, 7.1.2). Goes over all 32 octets of it,
/// wherever the first difference stands; no clause speaks of time.
pub fn mac_ok(secret: &[u8], p: &MacParams, text: &[u8], mac: &[u8]) -> bool
    requires { 1 ≤ p.now.rounds }
    ensures { IsTrue result ↔ MacOk secret.now p.now text.now mac.now }
{
    mac_ok_over(secret, p, &[], text, mac)
}
