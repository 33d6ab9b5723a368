//! Key identifiers.
ghost use Rattle.std.specs.Prelude.{◌≡◌};
ghost use Rattle.asn_types.specs.Key.{key_identifier};

use sha2::{Digest, Sha256};

/// The identifier of a key, by the octets of its BIT STRING: the first 20 octets of their SHA-256 (RFC 7093, section 2, method
/// 1).
pub fn key_id(key_bits: &[u8]) -> [u8; 20]
    ensures { result ≡ key_identifier key_bits.now }
{
    let digest = Sha256::digest(key_bits);
    let mut id = [0u8; 20];
    id.copy_from_slice(&digest[..20]);
    id
}
