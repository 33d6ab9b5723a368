//! Confirmations of certificates.
ghost use Rattle.std.specs.Prelude.{◌≡◌, ℕ, ◌+◌, ◌≤◌, ◌^◌, ◌<◌, ◌++◌, List, Option, [], ◌∷◌, length, IfOk, OnOk, IfSome, Some, option_map};
ghost use Rattle.der_base.specs.Element.{element};
ghost use Rattle.der_base.specs.Reading.{part_of};
ghost use Rattle.asn_fields.specs.Fields.{Gives, optional_with};
ghost use Rattle.asn_fields.specs.Rows.{RowForm, row_of};
ghost use Rattle.asn_types.specs.Algorithm.{Algorithm, algorithm_of, algorithm_at};
ghost use Rattle.asn_types.specs.Template.{anything_at};
ghost use Rattle.asn_parts.specs.Parts.{required_with, sole_with};
ghost use Rattle.pki_parts.specs.Lists.{IsOne};
ghost use Rattle.pki_parts.specs.Status.{StatusForm, status_of, status_at};

use crate::identifier::put_id;
use crate::list::read_list;
use crate::status::{StatusInfo, status_inside};
use asn_fields::{BadForm, Entry, Row, field, optional, sole};
use asn_parts::{integer_field, number};
use asn_types::{AlgorithmId, read_alg_content};
use cmp_values::Octets;
use der_base::{Element, Writer};
use std::alloc::{AllocError, Global};

/// Whether a certificate is accepted (RFC 9810, 5.3.18): the octets of its hash, the content of certReqId, and the status and the
/// algorithm of the hash where they are there.
#[derive(Clone, Copy, Debug, PartialEq, Eq)]
pub struct CertStatus<'a> {
    pub hash: &'a [u8],
    pub id: &'a [u8],
    pub status: Option<StatusInfo<'a>>,
    pub hash_alg: Option<AlgorithmId<'a>>,
}

/// A confirmation of certificates (RFC 9810, 5.3.18): of how many, and the status of the first one. All of them were read.
#[derive(Clone, Copy, Debug, PartialEq, Eq)]
pub struct CertConfirm<'a> {
    pub count: u64,
    pub first: Option<CertStatus<'a>>,
}

ghost use Rattle.pki_parts.specs.Confirmation.{CertStatusForm, IsConfirm, cert_status_of, confirm_of, cert_status_at, confirm_at, status_octets, confirm_octets, written_status_of};

/// The octets of an OCTET STRING at the front, and those behind it.
#[tactic(auto, unfolding(asn_types::specs::Template::anything_at))]
fn hash_field(bytes: &[u8]) -> Result<(&[u8], &[u8]), BadForm>
    ensures { Gives {Y = List ℕ × List ℕ} (λ r. (r.0.now, r.1.now)) result (required_with anything_at 0x04 bytes.now) }
{
    let (element, rest) = field(0x04, bytes)?;
    Ok((element.content, rest))
}

/// A status where one stands at the front, and the octets behind it.
fn status_field(bytes: &[u8]) -> Result<(Option<StatusInfo<'_>>, &[u8]), BadForm>
    ensures { Gives {Y = Option StatusForm × List ℕ} (λ r. (option_map status_of r.0, r.1.now)) result (optional_with status_at 0x30 bytes.now) }
{
    let (element, rest) = optional(0x30, bytes)?;
    match element {
        None => Ok((None, rest)),
        Some(element) => {
            let status = status_inside(element.content)?;
            Ok((Some(status), rest))
        }
    }
}

/// The one algorithm that the octets are.
fn algorithm_alone(bytes: &[u8]) -> Result<AlgorithmId<'_>, BadForm>
    ensures { Gives algorithm_of result (sole_with algorithm_at 0x30 bytes.now) }
{
    let element = sole(0x30, bytes)?;
    read_alg_content(element.content)
}

/// The algorithm of a hash where one stands at the front, and the octets behind it.
fn algorithm_field(bytes: &[u8]) -> Result<(Option<AlgorithmId<'_>>, &[u8]), BadForm>
    ensures { Gives {Y = Option Algorithm × List ℕ} (λ r. (option_map algorithm_of r.0, r.1.now)) result (optional_with (sole_with algorithm_at 0x30) 0xA0 bytes.now) }
{
    let (element, rest) = optional(0xa0, bytes)?;
    match element {
        None => Ok((None, rest)),
        Some(element) => {
            let algorithm = algorithm_alone(element.content)?;
            Ok((Some(algorithm), rest))
        }
    }
}

/// Reads what stands in the SEQUENCE of a certificate's status.
#[tactic(auto, unfolding(crate::specs::Confirmation::cert_status_at))]
fn cert_status_inside(content: &[u8]) -> Result<CertStatus<'_>, BadForm>
    ensures { Gives cert_status_of result (cert_status_at content.now) }
{
    let (hash, rest) = hash_field(content)?;
    let (id, rest) = integer_field(rest)?;
    let (status, rest) = status_field(rest)?;
    let (hash_alg, rest) = algorithm_field(rest)?;
    if !rest.is_empty() {
        return Err(BadForm);
    }
    Ok(CertStatus {
        hash,
        id,
        status,
        hash_alg,
    })
}

impl<'a> Entry<'a> for CertStatus<'a> {
    ghost Form = { CertStatusForm };

    ghost form_of = { cert_status_of };

    ghost reading = { cert_status_at };

    fn read(content: &'a [u8]) -> Result<Self, BadForm> {
        cert_status_inside(content)
    }
}

/// Reads a confirmation by its entries.
fn confirm_entries<'a>(e: &Element<'a>) -> Result<CertConfirm<'a>, BadForm>
    ensures { Gives confirm_of result (confirm_at (part_of e.now)) }
{
    let row: Row<CertStatus<'_>> = read_list(e)?;
    Ok(CertConfirm {
        count: row.count,
        first: row.first,
    })
}

/// Reads a CertConfirmContent (RFC 9810, 5.3.18), the status of each certificate. `BadForm` where the element is none.
pub fn read_confirm<'a>(e: &Element<'a>) -> Result<CertConfirm<'a>, BadForm>
    // What is read is spelled so.
    ensures found { IfOk result (λ c. IsConfirm (part_of e.now) (confirm_of c)) }
    // What is spelled so is read.
    ensures only { (confirm : RowForm CertStatusForm) → IsConfirm (part_of e.now) confirm → Gives confirm_of result (Some confirm) }
    ensures exact { Gives confirm_of result (confirm_at (part_of e.now)) }
{
    confirm_entries(e)
}

/// Puts a status that is a number alone, where there is one.
#[tactic(auto, using(asn_types::proofs::LengthLemmas::short))]
fn put_status(writer: &mut Writer, status: Option<u8>) -> Result<(), AllocError>
    ensures put { OnOk result (writer.new ≡ writer.old ++ status_octets status) }
    ensures octet { IfSome status (λ n. n < 2 ^ 8) }
{
    match status {
        None => Ok(()),
        Some(status) => {
            let from = writer.len();
            writer.put(0x02, number(u64::from(status)).as_slice())?;
            writer.wrap(0x30, from)
        }
    }
}

/// The octets of a confirmation.
#[tactic(auto, using(asn_types::proofs::LengthLemmas::short, crate::proofs::ConfirmationLemmas::confirm_sizes))]
fn confirm_written(
    alloc: Global,
    hash: &[u8],
    id: i8,
    status: Option<u8>,
) -> Result<Octets, AllocError>
    requires { length hash.now + 64 < 2 ^ 32 }
    ensures written { IfOk result (λ octets. octets ≡ confirm_octets hash.now id status) }
    ensures octet { IfOk result (λ octets. IfSome status (λ n. n < 2 ^ 8)) }
{
    let mut writer = Writer::new(alloc);
    writer.put(0x04, hash)?;
    put_id(&mut writer, id)?;
    put_status(&mut writer, status)?;
    writer.wrap(0x30, 0)?;
    writer.wrap(0x30, 0)?;
    Ok(Octets::of(writer.finish()))
}

/// Writes a CertConfirmContent (RFC 9810, 5.3.18) for one certificate: the octets of its hash, certReqId, and a status or none. The
/// hash is that of the certificate's own signature algorithm, so hashAlg is left out. `AllocError` where memory runs out.
pub fn write_confirm(
    alloc: Global,
    hash: &[u8],
    id: i8,
    status: Option<u8>,
) -> Result<Octets, AllocError>
    requires { length hash.now + 64 < 2 ^ 32 }
    ensures written { IfOk result (λ octets. octets ≡ confirm_octets hash.now id status) }
    ensures size { IfOk result (λ octets. length octets ≤ length hash.now + 64) }
    // What is written is read again.
    ensures again { IfOk result (IsOne (λ p. IsConfirm p (row_of (written_status_of hash.now id status ∷ [])))) }
{
    confirm_written(alloc, hash, id, status)
}
