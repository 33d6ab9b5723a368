//! Public keys with their algorithms.
ghost use Rattle.std.specs.Prelude.{◌≡◌, ◌^◌, ◌<◌, length, IfOk, Some};
ghost use Rattle.der_base.specs.Element.{IsElement};
ghost use Rattle.asn_fields.specs.Fields.{Gives};
ghost use Rattle.asn_types.specs.Key.{Key, FitsKey, spki_content, key_content, key_at};
ghost use Rattle.asn_types.specs.Algorithm.{algorithm_of};

use crate::algorithm::{AlgorithmId, put_algorithm, read_alg_content};
use crate::parts::{plain_bits, put_plain_bits};
use asn_fields::{BadForm, field, sole};
use cmp_values::Octets;
use der_base::Writer;
use std::alloc::{AllocError, Global};

/// A public key: its algorithm, its octets, and the content that both were read from.
#[derive(Clone, Copy, Debug, PartialEq, Eq)]
pub struct Spki<'a> {
    pub alg: AlgorithmId<'a>,
    pub key: &'a [u8],
    pub content: &'a [u8],
}

ghost use Rattle.asn_types.specs.Key.{key_of};

/// Reads a key and its algorithm.
#[tactic(auto, unfolding(crate::specs::Key::key_at))]
pub(crate) fn key_inside(content: &[u8]) -> Result<Spki<'_>, BadForm>
    ensures exact { Gives key_of result (key_at content.now) }
    ensures whole { IfOk result (λ s. s.content.now ≡ content.now) }
{
    let (sequence, rest) = field(0x30, content)?;
    let alg = read_alg_content(sequence.content)?;
    let string = sole(0x03, rest)?;
    let key = plain_bits(&string)?;
    Ok(Spki { alg, key, content })
}

/// Reads what stands in the SEQUENCE of a SubjectPublicKeyInfo (RFC 5280, 4.1.2.7), which CRMF gives another tag. `BadForm`
/// where the octets are no such content.
pub fn read_spki(content: &[u8]) -> Result<Spki<'_>, BadForm>
    // What is read is spelled so.
    ensures found { IfOk result (λ s. FitsKey (key_of s) × (content.now ≡ key_content (key_of s))) }
    // What is spelled so is read.
    ensures only { (k : Key) → FitsKey k → content.now ≡ key_content k → Gives key_of result (Some k) }
    ensures whole { IfOk result (λ s. s.content.now ≡ content.now) }
    ensures exact { Gives key_of result (key_at content.now) }
{
    key_inside(content)
}

/// Writes a SubjectPublicKeyInfo: the algorithm, and the key's octets as a BIT STRING with no unused bits. `AllocError` where
/// memory runs out.
#[tactic(auto, using(crate::proofs::LengthLemmas::lengths))]
pub fn write_spki(alloc: Global, alg: &AlgorithmId, key: &[u8]) -> Result<Octets, AllocError>
    requires { length (spki_content (algorithm_of alg.now) key.now) < 2 ^ 32 }
    ensures { IfOk result (λ octets. IsElement octets 0x30 (spki_content (algorithm_of alg.now) key.now)) }
{
    let mut writer = Writer::new(alloc);
    put_algorithm(&mut writer, alg)?;
    put_plain_bits(&mut writer, key)?;
    writer.wrap(0x30, 0)?;
    Ok(Octets::of(writer.finish()))
}
