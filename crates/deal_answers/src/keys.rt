//! What the octets of keys say.
ghost use Rattle.std.specs.Prelude.{◌≡◌, ◌≤◌, length};
ghost use Rattle.deal_model.specs.Keys.{levels_of, tree_of, ots_of, leaves_by_code, leaves_of, key_id, key_of, is_lms_key, hss_oid};

use deal_model::public_key;
use sha2::{Digest, Sha256};

/// id-alg-hss-lms-hashsig, 1.2.840.113549.1.9.16.3.17 (RFC 9708, 4).
const HSS: [u8; 11] = [42, 134, 72, 134, 247, 13, 1, 9, 16, 3, 17];

/// The number of levels of an HSS key (RFC 8554, 6.1).
#[tactic(auto, unfolding(deal_model::specs::Keys::levels_of))]
pub fn levels_of(key: &[u8]) -> u32
    requires { 12 ≤ length key.now }
    ensures { result ≡ levels_of key.now }
{
    u32::from_be_bytes([key[0], key[1], key[2], key[3]])
}

/// The type code of the first tree of an HSS key (RFC 8554, 5.3).
#[tactic(auto, unfolding(deal_model::specs::Keys::tree_of))]
pub fn tree_of(key: &[u8]) -> u32
    requires { 12 ≤ length key.now }
    ensures { result ≡ tree_of key.now }
{
    u32::from_be_bytes([key[4], key[5], key[6], key[7]])
}

/// The type code of the one-time signatures of that tree (RFC 8554, 5.3).
#[tactic(auto, unfolding(deal_model::specs::Keys::ots_of))]
pub fn ots_of(key: &[u8]) -> u32
    requires { 12 ≤ length key.now }
    ensures { result ≡ ots_of key.now }
{
    u32::from_be_bytes([key[8], key[9], key[10], key[11]])
}

fn leaves_by_code(code: u32) -> u32
    ensures { result ≡ leaves_by_code code }
{
    match code {
        5 => 32,
        6 => 1024,
        7 => 32_768,
        8 => 1_048_576,
        9 => 33_554_432,
        _ => 0,
    }
}

/// The leaves of the first tree of an HSS key (RFC 8554, 5.1, table 2); 0 where its type is unknown.
#[tactic(auto, unfolding(deal_model::specs::Keys::leaves_of))]
pub fn leaves_of(key: &[u8]) -> u32
    requires { 12 ≤ length key.now }
    ensures { result ≡ leaves_of key.now }
{
    leaves_by_code(tree_of(key))
}

/// The identifier of a key: the first 20 octets of its SHA-256.
#[tactic(auto, unfolding(deal_model::specs::Keys::key_id))]
pub fn key_id(key: &[u8]) -> [u8; 20]
    ensures { result ≡ key_id key.now }
{
    let digest = Sha256::digest(key);
    let mut id = [0u8; 20];
    id.copy_from_slice(&digest[..20]);
    id
}

/// The octets of the key in a SubjectPublicKeyInfo; none where the octets are no SubjectPublicKeyInfo.
#[tactic(auto, unfolding(deal_model::specs::Keys::key_of))]
pub fn key_of(spki: &[u8]) -> &[u8]
    ensures { result.now ≡ key_of spki.now }
{
    match public_key(spki) {
        Some(k) => k.key,
        None => &[],
    }
}

/// Whether the octets are a SubjectPublicKeyInfo of an HSS/LMS key of 60 octets.
#[tactic(auto, unfolding(deal_model::specs::Keys::is_lms_key))]
pub fn is_lms_key(spki: &[u8]) -> bool
    ensures { result ≡ is_lms_key spki.now }
{
    match public_key(spki) {
        Some(k) => k.algorithm == HSS.as_slice() && k.parameters.is_empty() && k.key.len() == 60,
        None => false,
    }
}
