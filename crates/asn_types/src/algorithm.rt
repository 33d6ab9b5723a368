//! Algorithm identifiers.
ghost use Rattle.std.specs.Prelude.{◌≡◌, ◌==◌, ◌^◌, ◌<◌, ◌++◌, length, IfOk, OnOk, Some, if◌then◌else◌};
ghost use Rattle.std.specs.Option.{option_copied};
ghost use Rattle.der_base.specs.Element.{IsElement, element};
ghost use Rattle.asn_fields.specs.Fields.{Gives};
ghost use Rattle.asn_types.specs.Algorithm.{Algorithm, FitsAlgorithm, algorithm_content, algorithm_at};

use crate::parts::{any, oid_field};
use asn_fields::BadForm;
use cmp_values::Octets;
use der_base::{Element, Writer};
use std::alloc::{AllocError, Global};

/// An algorithm: the content of its object identifier, and its parameters, a whole element, where there are some.
#[derive(Clone, Copy, Debug, PartialEq, Eq)]
pub struct AlgorithmId<'a> {
    pub oid: &'a [u8],
    pub params: Option<&'a [u8]>,
}

ghost use Rattle.asn_types.specs.Algorithm.{algorithm_of};

/// Reads what stands in the SEQUENCE of an AlgorithmIdentifier (RFC 5280, 4.1.1.2). `BadForm` where the octets are no such
/// content.
#[tactic(auto, unfolding(crate::specs::Algorithm::algorithm_at))]
pub fn read_alg_content(content: &[u8]) -> Result<AlgorithmId<'_>, BadForm>
    ensures { Gives algorithm_of result (algorithm_at content.now) }
{
    let (oid, rest) = oid_field(content)?;
    let params = any(rest)?;
    Ok(AlgorithmId { oid, params })
}

/// Reads an element that is an algorithm.
fn algorithm_element<'a>(e: &Element<'a>) -> Result<AlgorithmId<'a>, BadForm>
    ensures { Gives algorithm_of result (if e.now.tag == 0x30 then algorithm_at e.now.content.now else None) }
{
    if e.tag == 0x30 {
        read_alg_content(e.content)
    } else {
        Err(BadForm)
    }
}

/// Reads an AlgorithmIdentifier (RFC 5280, 4.1.1.2). `BadForm` where the element is none.
pub fn read_alg<'a>(e: &Element<'a>) -> Result<AlgorithmId<'a>, BadForm>
    // What is read is a SEQUENCE, and spelled so.
    ensures found { IfOk result (λ a. (e.now.tag ≡ 0x30) × FitsAlgorithm (algorithm_of a) × (e.now.content.now ≡ algorithm_content (algorithm_of a))) }
    // What is spelled so is read.
    ensures only { (a : Algorithm) → e.now.tag ≡ 0x30 → FitsAlgorithm a → e.now.content.now ≡ algorithm_content a
        → Gives algorithm_of result (Some a) }
    ensures exact { Gives algorithm_of result (if e.now.tag == 0x30 then algorithm_at e.now.content.now else None) }
{
    algorithm_element(e)
}

/// Puts the SEQUENCE of an algorithm behind the octets of a writer.
#[tactic(auto, using(crate::proofs::LengthLemmas::lengths))]
pub(crate) fn put_algorithm(writer: &mut Writer, alg: &AlgorithmId) -> Result<(), AllocError>
    requires oid { length alg.now.oid.now < 2 ^ 32 }
    requires counted { length (algorithm_content (algorithm_of alg.now)) < 2 ^ 32 }
    ensures { OnOk result (writer.new ≡ writer.old ++ element 0x30 (algorithm_content (algorithm_of alg.now))) }
{
    let from = writer.len();
    writer.put(0x06, alg.oid)?;
    if let Some(params) = alg.params {
        writer.put_whole(params)?;
    }
    writer.wrap(0x30, from)
}

/// Writes an AlgorithmIdentifier: the content of an object identifier, and the whole element of the parameters where there are
/// some. `AllocError` where memory runs out.
#[tactic(auto, using(crate::proofs::LengthLemmas::lengths))]
pub fn write_alg(alloc: Global, oid: &[u8], params: Option<&[u8]>) -> Result<Octets, AllocError>
    requires { length (algorithm_content (record { oid = oid.now; params = option_copied params })) < 2 ^ 32 }
    ensures { IfOk result (λ octets. IsElement octets 0x30 (algorithm_content (record { oid = oid.now; params = option_copied params.entry }))) }
{
    let mut writer = Writer::new(alloc);
    put_algorithm(&mut writer, &AlgorithmId { oid, params })?;
    Ok(Octets::of(writer.finish()))
}
