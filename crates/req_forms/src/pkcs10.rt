//! Certification requests of PKCS #10.
ghost use Rattle.std.specs.Prelude.{◌≡◌, ℕ, List, Some, IfOk};
ghost use Rattle.asn_fields.specs.Fields.{Gives};
ghost use Rattle.asn_types.specs.Key.{Key, key_of, key_at};
ghost use Rattle.asn_parts.specs.Parts.{required_with, sole_with};

use crate::attributes::{Attributes, attributes_inside};
use crate::possession::sole_signature;
use asn_fields::{BadForm, field, sole};
use asn_parts::{algorithm_field, integer_field, name_field};
use asn_types::{AlgorithmId, Extensions, Name, Spki, read_spki};

/// What is signed of a certification request.
#[derive(Clone, Copy, Debug)]
pub(crate) struct Info<'a> {
    pub version: &'a [u8],
    pub subject: Name<'a>,
    pub spki: Spki<'a>,
    pub attributes: Attributes<'a>,
}

/// A certification request of PKCS #10 (RFC 2986, 4): the whole info, which the signature is over, the content of its version, the
/// subject, the key, the content of the attributes, the extensions that they ask for, the algorithm and the signature's octets.
#[derive(Clone, Copy, Debug, PartialEq, Eq)]
pub struct P10<'a> {
    pub info: &'a [u8],
    pub version: &'a [u8],
    pub subject: Name<'a>,
    pub spki: Spki<'a>,
    pub attributes: &'a [u8],
    pub exts: Option<Extensions<'a>>,
    pub alg: AlgorithmId<'a>,
    pub sig: &'a [u8],
}

ghost use Rattle.req_forms.specs.Attributes.{attributes_of, attributes_at};
ghost use Rattle.req_forms.specs.Pkcs10.{InfoForm, P10Form, IsP10, info_of, p10_of, info_at, info_front_at, p10_inside_at, p10_at};

/// A key at the front, and the octets behind it.
fn key_field(bytes: &[u8]) -> Result<(Spki<'_>, &[u8]), BadForm>
    ensures { Gives {Y = Key × List ℕ} (λ r. (key_of r.0, r.1.now)) result (required_with key_at 0x30 bytes.now) }
{
    let (element, rest) = field(0x30, bytes)?;
    let spki = read_spki(element.content)?;
    Ok((spki, rest))
}

/// Attributes that stand alone.
fn attributes_alone(bytes: &[u8]) -> Result<Attributes<'_>, BadForm>
    ensures { Gives attributes_of result (sole_with attributes_at 0xA0 bytes.now) }
{
    let element = sole(0xa0, bytes)?;
    attributes_inside(element.content)
}

/// Reads what stands in the SEQUENCE of an info.
#[tactic(auto, unfolding(crate::specs::Pkcs10::info_at))]
fn info_inside(bytes: &[u8]) -> Result<Info<'_>, BadForm>
    ensures { Gives info_of result (info_at bytes.now) }
{
    let (version, rest) = integer_field(bytes)?;
    let (subject, rest) = name_field(rest)?;
    let (spki, rest) = key_field(rest)?;
    let attributes = attributes_alone(rest)?;
    Ok(Info {
        version,
        subject,
        spki,
        attributes,
    })
}

/// An info at the front: its octets, what is in it, and the octets behind it.
#[tactic(auto, unfolding(crate::specs::Pkcs10::info_front_at))]
fn info_field(bytes: &[u8]) -> Result<((&[u8], Info<'_>), &[u8]), BadForm>
    ensures { Gives {Y = (List ℕ × InfoForm) × List ℕ} (λ r. ((r.0.0.now, info_of r.0.1), r.1.now)) result (info_front_at bytes.now) }
{
    let (element, rest) = field(0x30, bytes)?;
    let info = info_inside(element.content)?;
    Ok(((element.whole, info), rest))
}

/// Reads what stands in the SEQUENCE of a certification request.
#[tactic(auto, unfolding(crate::specs::Pkcs10::p10_inside_at))]
fn p10_inside(bytes: &[u8]) -> Result<P10<'_>, BadForm>
    ensures { Gives p10_of result (p10_inside_at bytes.now) }
{
    let ((info, inside), rest) = info_field(bytes)?;
    let (alg, rest) = algorithm_field(rest)?;
    let sig = sole_signature(rest)?;
    Ok(P10 {
        info,
        version: inside.version,
        subject: inside.subject,
        spki: inside.spki,
        attributes: inside.attributes.octets,
        exts: inside.attributes.exts,
        alg,
        sig,
    })
}

/// A certification request that stands alone.
#[tactic(auto, unfolding(crate::specs::Pkcs10::p10_at))]
fn p10_alone(bytes: &[u8]) -> Result<P10<'_>, BadForm>
    ensures { Gives p10_of result (p10_at bytes.now) }
{
    let element = sole(0x30, bytes)?;
    p10_inside(element.content)
}

/// Reads a CertificationRequest (RFC 2986, 4.2). `BadForm` where the octets are none; so with two extensionRequests, or one that is
/// out of form.
pub fn read_p10(bytes: &[u8]) -> Result<P10<'_>, BadForm>
    // What is read is spelled so.
    ensures found { IfOk result (λ p. IsP10 bytes.now (p10_of p)) }
    // What is spelled so is read.
    ensures only { (p : P10Form) → IsP10 bytes.now p → Gives p10_of result (Some p) }
    ensures exact { Gives p10_of result (p10_at bytes.now) }
{
    p10_alone(bytes)
}
