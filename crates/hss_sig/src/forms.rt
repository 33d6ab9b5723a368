// Public keys and signatures as octets (RFC 8554, 6.1 and 6.2).

ghost use Rattle.std.specs.Prelude.{◌≡◌, ℕ, List, Some, ◌++◌, length, IfOk, IfSome, IsOkAnd};
ghost use Rattle.hss_sig.specs.Forms.{AreSignedKeys, Fronts, IsHssKey, IsHssSignature, IsLmsSignature, ValidAreInForm};

use crate::sizes::{leaves_under, signature_size, u32_at};
use lms_params::{ots_signature_size, tree_height};

/// A public key that was read: the number of levels, 1 to 8, and the first LMS key, 56 octets.
#[derive(Clone, Copy)]
pub struct HssKey<'a> {
    pub levels: u32,
    pub first: &'a [u8],
}

/// The octets are no public key of HSS with sets of the tables.
#[derive(Clone, Copy, PartialEq, Eq, Debug)]
pub struct BadKey;

/// A signature that was read: the number of levels, 1 to 8, the octets of all upper levels (each an
/// LMS signature and the LMS key that it signs), and the last level's LMS signature.
#[derive(Clone, Copy)]
pub struct HssSig<'a> {
    pub levels: u32,
    pub upper: &'a [u8],
    pub last: &'a [u8],
}

/// The octets are no signature of HSS with sets of the tables.
#[derive(Clone, Copy, PartialEq, Eq, Debug)]
pub struct BadSig;

/// Reads a public key (RFC 8554, 6.1). Takes no memory.
pub fn read_key(bytes: &[u8]) -> Result<HssKey<'_>, BadKey>
    ensures read { IfOk result (λ key. IsHssKey bytes.now key.levels key.first.now) }
    ensures found { (levels : ℕ) (first : List ℕ) → IsHssKey bytes.now levels first
        → IsOkAnd result (λ key. (key.levels ≡ levels) × (key.first.now ≡ first)) }
{
    if bytes.len() != 60 {
        return Err(BadKey);
    }
    let levels = u32_at(bytes, 0);
    if levels < 1 || levels > 8 {
        return Err(BadKey);
    }
    let (_, first) = bytes.split_at(4);
    match signature_size(first) {
        Some(_) => Ok(HssKey { levels, first }),
        None => Err(BadKey),
    }
}

/// Reads a signature (RFC 8554, 6.2). Takes no memory. It asks for the form alone: whether a
/// signature is valid under a key is [`hss_ok`](crate::hss_ok)'s answer.
pub fn read_sig(bytes: &[u8]) -> Result<HssSig<'_>, BadSig>
    ensures read { IfOk result (λ sig. IsHssSignature bytes.now sig.levels sig.upper.now sig.last.now) }
    ensures found { (levels : ℕ) (upper last : List ℕ) → IsHssSignature bytes.now levels upper last
        → IsOkAnd result (λ sig. (sig.levels ≡ levels) × (sig.upper.now ≡ upper) × (sig.last.now ≡ last)) }
{
    if bytes.len() < 4 {
        return Err(BadSig);
    }
    let count = u32_at(bytes, 0);
    if count > 7 {
        return Err(BadSig);
    }
    let (_, parts) = bytes.split_at(4);
    let Some(size) = signed_keys_size(count, parts) else {
        return Err(BadSig);
    };
    let (upper, last) = parts.split_at(size);
    let Some(end) = lms_signature_size(last) else {
        return Err(BadSig);
    };
    if end < last.len() {
        return Err(BadSig);
    }
    let levels = count + 1;
    Ok(HssSig {
        levels,
        upper,
        last,
    })
}

/// A signature that [`hss_ok`](crate::hss_ok) finds valid is one that [`read_sig`] reads, and its
/// key one that [`read_key`] reads, with as many levels.
pub fn valid_signatures_are_read()
    ensures { ValidAreInForm }
{}

// The octets of the LMS signature at the front. `None` where none stands there.
fn lms_signature_size(octets: &[u8]) -> Option<usize>
    ensures only { IfSome result (λ k. Fronts IsLmsSignature octets.now k) }
    ensures found { (sig rest : List ℕ) → octets.now ≡ sig ++ rest → IsLmsSignature sig → result ≡ Some (length sig) }
{
    if octets.len() < 44 {
        return None;
    }
    let ots = ots_signature_size(u32_at(octets, 4))?;
    if octets.len() - 8 < ots {
        return None;
    }
    let code = u32_at(octets, 4 + ots);
    let height = tree_height(code)?;
    let path = 32 * height as usize;
    if octets.len() - 8 - ots < path {
        return None;
    }
    if u32_at(octets, 0) >= leaves_under(code) {
        return None;
    }
    Some(8 + ots + path)
}

// The octets of so many LMS signatures, each with the key that it signs, at the front. `None` where
// not so many stand there.
fn signed_keys_size(count: u32, octets: &[u8]) -> Option<usize>
    ensures only { IfSome result (λ k. Fronts (AreSignedKeys count) octets.now k) }
    ensures found { (keys rest : List ℕ) → octets.now ≡ keys ++ rest → AreSignedKeys count keys → result ≡ Some (length keys) }
{
    if count == 0 {
        return Some(0);
    }
    let size = lms_signature_size(octets)?;
    let (_, behind) = octets.split_at(size);
    if behind.len() < 56 {
        return None;
    }
    let (key, rest) = behind.split_at(56);
    signature_size(key)?;
    let further = signed_keys_size(count - 1, rest)?;
    Some(size + 56 + further)
}
