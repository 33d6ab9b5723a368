// One-time signatures and the public hash that one leads to (RFC 8554, 4.5 and 4.6).

ghost use Rattle.std.specs.Prelude.{◌≡◌, ℕ, ◌+◌, ◌*◌, ◌<◌, ◌≤◌, ◌↔◌, ◌++◌, None, IsTrue, IfOk, OnOk, OnErr, OnSome, IfSome, MatchOption, length, slice_index, take};
ghost use Rattle.lms_params.specs.Parameters.{ots_row};
ghost use Rattle.lms_params.specs.Digits.{coef_of};
ghost use Rattle.lm_ots.specs.Chains.{ends_hash, joined};
ghost use Rattle.lm_ots.specs.Runs.{Settled, value_in};
ghost use Rattle.lm_ots.specs.Signatures.{SignatureLeadsToKey, candidate_if, candidate_in, candidate_of, c_of, has_form, ots_signature, randomizer, recovered_end, signed_octets, signed_value, y_of};

use crate::all::{ends, secrets};
use crate::chain::secret_chain;
use crate::key::{KeyPart, hash_of_ends};
use crate::message::opened;
use cmp_values::Octets;
use lms_params::{Ots, coef, with_checksum, with_ots};
use sha2::Digest;
use std::alloc::AllocError;

/// Why a text was not signed.
#[derive(Clone, Copy, PartialEq, Eq, Debug, Drop)]
pub enum SignFault {
    /// The LM-OTS typecode is not in the table.
    BadSet,
    /// Memory ran out.
    NoMemory,
}

// The octets whose digits are signed: the hash of the text after `c`, and its checksum.
#[tactic(auto, unfolding(crate::specs::Signatures::signed_octets, crate::specs::Signatures::text_hash))]
fn signed_octets_in<const W: u32, const P: usize, const LS: u32>(
    _set: Ots<W, P, LS>,
    id: &[u8; 16],
    q: u32,
    c: &[u8],
    text: &[u8],
) -> [u8; 34]
    ensures { result ≡ signed_octets (record { w = W; p = P; ls = LS }) id.now q c.now text.now }
{
    let mut hasher = opened(id, q, 0x8181);
    hasher.update(c);
    hasher.update(text);
    with_checksum(&hasher.finalize(), W, LS)
}

// The digits of the octets that are signed, a place on each chain.
fn digits_in<const W: u32, const P: usize, const LS: u32>(
    _set: Ots<W, P, LS>,
    octets: &[u8; 34],
) -> [u8; P]
    ensures size { length result ≡ P }
    ensures digits { (i : ℕ) → i < P → slice_index result i ≡ coef_of octets.now i W }
{
    let mut digits = [0u8; P];
    for i in 0..P {
        digits[i] = coef(octets, i, W) as u8;
    }
    digits
}

// The values of all chains in a signature.
fn signed_values_in<const W: u32, const P: usize, const LS: u32>(
    set: Ots<W, P, LS>,
    key: &KeyPart,
    q: u32,
    octets: &[u8; 34],
) -> [[u8; 32]; P]
    ensures size { length result ≡ P }
    ensures values { (i : ℕ) → i < P → Settled (signed_value (record { w = W; p = P; ls = LS }) key.now.seed key.now.id q octets.now) result i }
{
    let mut starts = [[0u8; 32]; P];
    secrets(&key.seed, &key.id, q, &mut starts);
    let mut values = [[0u8; 32]; P];
    let to = digits_in(set, octets);
    ends(&key.id, q, &[0; P], &to, &starts, &mut values);
    values
}

// Appends the values of a signature. After an `Err` some of them stand behind what was there.
fn write_values<const W: u32, const P: usize, const LS: u32>(
    set: Ots<W, P, LS>,
    key: &KeyPart,
    q: u32,
    octets: &[u8; 34],
    out: &mut Octets,
) -> Result<(), AllocError>
    ensures ok { OnOk result (out.new ≡ out.old ++ joined (signed_value (record { w = W; p = P; ls = LS }) key.now.seed key.now.id q octets.now) P) }
    ensures err { OnErr result (take (length out.old) out.new ≡ out.old) }
{
    append_values(&signed_values_in(set, key, q, octets), out)
}

// Appends values one behind the other. After an `Err` some of them stand behind what was there.
fn append_values(values: &[[u8; 32]], out: &mut Octets) -> Result<(), AllocError>
    ensures ok { OnOk result (out.new ≡ out.old ++ joined (value_in values.now) (length values.now)) }
    ensures err { OnErr result (take (length out.old) out.new ≡ out.old) }
{
    for i in 0..values.len() {
        out.append(&values[i])?;
    }
    Ok(())
}

// C of a signature.
#[tactic(auto, unfolding(crate::specs::Chains::steps, crate::specs::Signatures::randomizer))]
fn randomizer_of(key: &KeyPart, q: u32) -> [u8; 32]
    ensures { result ≡ randomizer key.now.seed key.now.id q }
{
    secret_chain(&key.seed, &key.id, q, 0xfffd, 0)
}

// Appends a signature. After an `Err` a part of it stands behind what was there.
fn write_signature<const W: u32, const P: usize, const LS: u32>(
    set: Ots<W, P, LS>,
    key: &KeyPart,
    q: u32,
    text: &[u8],
    out: &mut Octets,
) -> Result<(), AllocError>
    ensures ok { OnOk result (out.new ≡ out.old ++ ots_signature (record { w = W; p = P; ls = LS }) key.now.ots key.now.seed key.now.id q text.now) }
    ensures err { OnErr result (take (length out.old) out.new ≡ out.old) }
{
    let c = randomizer_of(key, q);
    let octets = signed_octets_in(set, &key.id, q, &c, text);
    out.append(&key.ots.to_be_bytes())?;
    out.append(&c)?;
    write_values(set, key, q, &octets, out)
}

/// Appends the signature of `text` by one-time key `q` under a set (RFC 8554, 4.5). After an
/// `AllocError` `out` is as before.
pub fn sign_ots_in<const W: u32, const P: usize, const LS: u32>(
    set: Ots<W, P, LS>,
    key: &KeyPart,
    q: u32,
    text: &[u8],
    out: &mut Octets,
) -> Result<(), AllocError>
    ensures ok { OnOk result (out.new ≡ out.old ++ ots_signature (record { w = W; p = P; ls = LS }) key.now.ots key.now.seed key.now.id q text.now) }
    ensures err { OnErr result (out.new ≡ out.old) }
{
    let before = out.len();
    match write_signature(set, key, q, text, out) {
        Ok(()) => Ok(()),
        Err(fault) => {
            out.truncate(before);
            Err(fault)
        }
    }
}

/// Appends the signature of `text` by one-time key `q` (RFC 8554, 4.5). `BadSet` for a typecode
/// outside the table, `NoMemory` where memory runs out; after either `out` is as before.
pub fn sign_ots(key: &KeyPart, q: u32, text: &[u8], out: &mut Octets) -> Result<(), SignFault>
    ensures bad_set { (result ≡ Err SignFault.BadSet) ↔ (ots_row key.now.ots ≡ None) }
    ensures ok { OnOk result (IfSome (ots_row key.now.ots) (λ row. out.new ≡ out.old ++ ots_signature row key.now.ots key.now.seed key.now.id q text.now)) }
    ensures err { OnErr result (out.new ≡ out.old) }
{
    match with_ots!(key.ots, |set| sign_ots_in(set, key, q, text, out)) {
        None => Err(SignFault::BadSet),
        Some(Ok(())) => Ok(()),
        Some(Err(_)) => Err(SignFault::NoMemory),
    }
}

// The values of all chains in a signature that is at hand.
fn values_in<const W: u32, const P: usize, const LS: u32>(
    _set: Ots<W, P, LS>,
    sig: &[u8],
) -> [[u8; 32]; P]
    requires { length sig.now ≡ 36 + 32 * P }
    ensures size { length result ≡ P }
    ensures values { (i : ℕ) → i < P → Settled (y_of sig.now) result i }
{
    let mut values = [[0u8; 32]; P];
    for i in 0..P {
        values[i] = value_at(sig, i);
    }
    values
}

// The value of chain `i` in a signature that is at hand.
fn value_at(sig: &[u8], i: usize) -> [u8; 32]
    requires { 68 + 32 * i ≤ length sig.now }
    ensures { result ≡ y_of sig.now i }
{
    let mut value = [0u8; 32];
    value.copy_from_slice(&sig[36 + 32 * i..68 + 32 * i]);
    value
}

// The ends of all chains from their values in a signature.
fn recovered_ends_in<const W: u32, const P: usize, const LS: u32>(
    set: Ots<W, P, LS>,
    id: &[u8; 16],
    q: u32,
    octets: &[u8; 34],
    sig: &[u8],
) -> [[u8; 32]; P]
    requires { length sig.now ≡ 36 + 32 * P }
    ensures size { length result ≡ P }
    ensures values { (i : ℕ) → i < P → Settled (recovered_end (record { w = W; p = P; ls = LS }) id.now q octets.now sig.now) result i }
{
    let starts = values_in(set, sig);
    let mut values = [[0u8; 32]; P];
    let from = digits_in(set, octets);
    let to = [set.greatest() as u8; P];
    ends(id, q, &from, &to, &starts, &mut values);
    values
}

/// The public hash that a signature of `text` leads to, under a set, where the signature has the
/// set's length (RFC 8554, 4.6, algorithm 4b, step 3). It is for the caller to test the typecode.
pub fn recovered_hash<const W: u32, const P: usize, const LS: u32>(
    set: Ots<W, P, LS>,
    id: &[u8; 16],
    q: u32,
    text: &[u8],
    sig: &[u8],
) -> [u8; 32]
    requires { length sig.now ≡ 36 + 32 * P }
    ensures { result ≡ candidate_of (record { w = W; p = P; ls = LS }) id.now q text.now sig.now }
{
    let octets = signed_octets_in(set, id, q, &sig[4..36], text);
    hash_of_ends(id, q, &recovered_ends_in(set, id, q, &octets, sig))
}

// Whether a signature has its set's length and the typecode `code`.
fn has_form_in<const W: u32, const P: usize, const LS: u32>(
    _set: Ots<W, P, LS>,
    code: u32,
    sig: &[u8],
) -> bool
    ensures { result ≡ has_form (record { w = W; p = P; ls = LS }) code sig.now }
{
    sig.len() == 36 + 32 * P && u32::from_be_bytes([sig[0], sig[1], sig[2], sig[3]]) == code
}

/// The public hash that a signature of `text` leads to, under a set and its typecode. `None` where
/// the signature is not of the set's length or does not begin with the code.
pub fn candidate_in_set<const W: u32, const P: usize, const LS: u32>(
    set: Ots<W, P, LS>,
    code: u32,
    id: &[u8; 16],
    q: u32,
    text: &[u8],
    sig: &[u8],
) -> Option<[u8; 32]>
    ensures { result ≡ candidate_in (record { w = W; p = P; ls = LS }) code id.now q text.now sig.now }
{
    if has_form_in(set, code, sig) {
        Some(recovered_hash(set, id, q, text, sig))
    } else {
        None
    }
}

/// The public hash that the signature `sig` of `text` leads to, of one-time key `q` (RFC 8554,
/// 4.6, algorithm 4b). `None` where the typecode `ots` is not in the table, and where `sig` is not
/// of its length or does not begin with it. Takes no memory.
pub fn candidate(id: &[u8; 16], q: u32, ots: u32, text: &[u8], sig: &[u8]) -> Option<[u8; 32]>
    ensures { result ≡ candidate_if ots id.now q text.now sig.now }
{
    with_ots!(ots, |set| candidate_in_set(set, ots, id, q, text, sig))?
}

/// The signature of a text leads to the public hash of the key that made it: for each parameter
/// set, seed, identifier, `q` and text.
pub fn signature_leads_to_key()
    ensures { SignatureLeadsToKey }
{}
