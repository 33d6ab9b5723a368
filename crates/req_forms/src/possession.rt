//! Proofs of possession.
ghost use Rattle.std.specs.Prelude.{◌≡◌, ℕ, List, option_map};
ghost use Rattle.std.specs.Option.{option_copied};
ghost use Rattle.der_base.specs.Reading.{part_of};
ghost use Rattle.asn_fields.specs.Fields.{Gives, optional_with};
ghost use Rattle.asn_types.specs.Template.{anything_at};

use asn_fields::{BadForm, optional, sole};
use asn_parts::algorithm_field;
use asn_types::{AlgorithmId, plain_bits};
use der_base::{Element, read_element};

/// A signature that proves possession: the content of poposkInput where it is there, the algorithm, and the signature's octets.
#[derive(Clone, Copy, Debug)]
pub(crate) struct Signing<'a> {
    pub input: Option<&'a [u8]>,
    pub alg: AlgorithmId<'a>,
    pub sig: &'a [u8],
}

/// A proof of possession with all that stands in it, or none.
#[derive(Clone, Copy, Debug)]
pub(crate) enum Possession<'a> {
    Absent,
    RaVerified,
    Signature(Signing<'a>),
    KeyEncipherment(&'a [u8]),
    KeyAgreement(&'a [u8]),
}

/// The proof of possession of a request (RFC 4211, 4): none, an RA's word, a signature, or another one by the number of its
/// alternative.
#[derive(Clone, Copy, Debug, PartialEq, Eq)]
pub enum Popo<'a> {
    Absent,
    RaVerified,
    Signature {
        input: Option<&'a [u8]>,
        alg: AlgorithmId<'a>,
        sig: &'a [u8],
    },
    Other(u8),
}

ghost use Rattle.req_forms.specs.Possession.{SigningForm, ProofForm, signing_of, proof_of, popo_of, popo_shown, sole_signature_at, signing_at, proof_at, is_proof_tag, proof_front_at};

/// A signature that stands alone, as a BIT STRING with no unused bits.
#[tactic(auto, unfolding(crate::specs::Possession::sole_signature_at))]
pub(crate) fn sole_signature(bytes: &[u8]) -> Result<&[u8], BadForm>
    ensures { Gives (λ octets. octets.now) result (sole_signature_at bytes.now) }
{
    let string = sole(0x03, bytes)?;
    plain_bits(&string)
}

/// A poposkInput where one stands there, and the octets behind it.
#[tactic(auto, unfolding(asn_types::specs::Template::anything_at))]
fn input_field(bytes: &[u8]) -> Result<(Option<&[u8]>, &[u8]), BadForm>
    ensures { Gives (λ r. (option_copied r.0, r.1.now)) result (optional_with anything_at 0xA0 bytes.now) }
{
    let (element, rest) = optional(0xa0, bytes)?;
    match element {
        None => Ok((None, rest)),
        Some(element) => Ok((Some(element.content), rest)),
    }
}

/// Reads what stands in a POPOSigningKey.
#[tactic(auto, unfolding(crate::specs::Possession::signing_at))]
fn read_signing(bytes: &[u8]) -> Result<Signing<'_>, BadForm>
    ensures { Gives signing_of result (signing_at bytes.now) }
{
    let (input, rest) = input_field(bytes)?;
    let (alg, rest) = algorithm_field(rest)?;
    let sig = sole_signature(rest)?;
    Ok(Signing { input, alg, sig })
}

/// Reads an element that is a proof.
#[tactic(auto, unfolding(crate::specs::Possession::proof_at))]
fn read_proof<'a>(e: &Element<'a>) -> Result<Possession<'a>, BadForm>
    ensures { Gives proof_of result (proof_at (part_of e.now)) }
{
    match e.tag {
        0x80 if e.content.is_empty() => Ok(Possession::RaVerified),
        0xa1 => {
            let signing = read_signing(e.content)?;
            Ok(Possession::Signature(signing))
        }
        0xa2 => Ok(Possession::KeyEncipherment(e.content)),
        0xa3 => Ok(Possession::KeyAgreement(e.content)),
        _ => Err(BadForm),
    }
}

/// Whether a tag is that of a proof.
fn is_proof_tag(tag: u8) -> bool
    ensures { result ≡ is_proof_tag tag }
{
    tag == 0x80 || tag == 0xa1 || tag == 0xa2 || tag == 0xa3
}

/// A proof where one stands there, and the octets behind it.
#[tactic(auto, unfolding(crate::specs::Possession::proof_front_at))]
pub(crate) fn proof_field(bytes: &[u8]) -> Result<(Possession<'_>, &[u8]), BadForm>
    ensures { Gives {Y = ProofForm × List ℕ} (λ r. (proof_of r.0, r.1.now)) result (proof_front_at bytes.now) }
{
    match bytes {
        [] => Ok((Possession::Absent, bytes)),
        [first, ..] => {
            if !is_proof_tag(*first) {
                return Ok((Possession::Absent, bytes));
            }
            let (element, rest) = read_element(bytes)?;
            let proof = read_proof(&element)?;
            Ok((proof, rest))
        }
    }
}

/// What a request shows of its proof.
pub(crate) fn shown<'a>(proof: &Possession<'a>) -> Popo<'a>
    ensures { popo_of result ≡ popo_shown (proof_of proof.now) }
{
    match *proof {
        Possession::Absent => Popo::Absent,
        Possession::RaVerified => Popo::RaVerified,
        Possession::Signature(s) => Popo::Signature {
            input: s.input,
            alg: s.alg,
            sig: s.sig,
        },
        Possession::KeyEncipherment(_) => Popo::Other(2),
        Possession::KeyAgreement(_) => Popo::Other(3),
    }
}
