// Verifying over all levels (RFC 8554, 6.3).

ghost use Rattle.std.specs.Prelude.{◌≡◌, ◌↔◌, length, IsTrue};
ghost use Rattle.lms_tree.specs.Verifies.{LmsOk};
ghost use Rattle.hss_sig.specs.Hss.{HssOk, LevelsOk};

use crate::sizes::{signature_size, u32_at};
use lms_tree::verify;

// Whether a signature is valid under an LMS key.
fn level_ok(key: &[u8], text: &[u8], sig: &[u8]) -> bool
    requires { length key.now ≡ 56 }
    ensures { IsTrue result ↔ LmsOk key.now text.now sig.now }
{
    let mut octets = [0u8; 56];
    octets.copy_from_slice(key);
    verify(&octets, text, sig)
}

// Whether `octets` lead from an LMS key over `upper` levels to the text.
fn levels_ok(upper: u32, text: &[u8], key: &[u8], octets: &[u8]) -> bool
    requires { length key.now ≡ 56 }
    ensures { IsTrue result ↔ LevelsOk upper text.now key.now octets.now }
{
    if upper == 0 {
        return level_ok(key, text, octets);
    }
    let Some(size) = signature_size(key) else {
        return false;
    };
    if octets.len() < 56 || octets.len() - 56 < size {
        return false;
    }
    let (sig, behind) = octets.split_at(size);
    let (next, rest) = behind.split_at(56);
    level_ok(key, next, sig) && levels_ok(upper - 1, text, next, rest)
}

/// Whether `sig` is a valid signature of `text` under the public key `key`, 60 octets (RFC 8554,
/// 6.3). Takes no memory. Octets behind a signature make it invalid.
pub fn hss_ok(key: &[u8], text: &[u8], sig: &[u8]) -> bool
    ensures { IsTrue result ↔ HssOk key.now text.now sig.now }
{
    if key.len() != 60 || sig.len() < 4 {
        return false;
    }
    let levels = u32_at(key, 0);
    if levels < 1 || levels > 8 || u32_at(sig, 0) != levels - 1 {
        return false;
    }
    let (_, first) = key.split_at(4);
    let (_, octets) = sig.split_at(4);
    levels_ok(levels - 1, text, first, octets)
}
