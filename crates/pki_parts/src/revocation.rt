//! Requests to revoke.
ghost use Rattle.std.specs.Prelude.{◌≡◌, ℕ, ◌+◌, ◌≤◌, ◌^◌, ◌<◌, ◌++◌, List, [], ◌∷◌, length, IfOk, OnOk, Some, option_map};
ghost use Rattle.der_base.specs.Element.{element};
ghost use Rattle.der_base.specs.Reading.{part_of};
ghost use Rattle.asn_fields.specs.Fields.{Gives, optional_with};
ghost use Rattle.asn_fields.specs.Rows.{RowForm, row_of};
ghost use Rattle.asn_types.specs.Extension.{is_extensions};
ghost use Rattle.asn_types.specs.Template.{TemplateForm, IsWholeName, template_of, template_at, tested_at, extensions_of};
ghost use Rattle.asn_parts.specs.Parts.{required_with};
ghost use Rattle.pki_parts.specs.Lists.{IsOne};
ghost use Rattle.pki_parts.specs.Reason.{IsReason, reason_extension};

use crate::list::read_list;
use crate::reason::put_reason;
use asn_fields::{BadForm, Entry, Row, field, optional};
use asn_parts::number;
use asn_types::{Extensions, Template, read_extensions, read_template};
use cmp_values::Octets;
use der_base::{Element, Writer};
use std::alloc::{AllocError, Global};

/// The details of a certificate that is to be revoked (RFC 9810, 5.3.9): a template, whose issuer and serial number name it, and
/// the extensions for the entry in the revocation list, where they are there.
#[derive(Clone, Copy, Debug, PartialEq, Eq)]
pub struct RevEntry<'a> {
    pub template: Template<'a>,
    pub exts: Option<Extensions<'a>>,
}

/// A request to revoke (RFC 9810, 5.3.9): how many certificates, and the details of the first one. All of them were read.
#[derive(Clone, Copy, Debug, PartialEq, Eq)]
pub struct RevReq<'a> {
    pub count: u64,
    pub first: Option<RevEntry<'a>>,
}

ghost use Rattle.pki_parts.specs.Revocation.{RevForm, IsRevReq, GivesReason, rev_of, rev_req_of, rev_at, rev_req_at, rev_template_octets, rev_req_octets, rev_details};

/// A template at the front, and the octets behind it.
fn template_field(bytes: &[u8]) -> Result<(Template<'_>, &[u8]), BadForm>
    ensures { Gives {Y = TemplateForm × List ℕ} (λ r. (template_of r.0, r.1.now)) result (required_with template_at 0x30 bytes.now) }
{
    let (element, rest) = field(0x30, bytes)?;
    let template = read_template(element.content)?;
    Ok((template, rest))
}

/// A row of extensions.
#[tactic(auto, unfolding(asn_types::specs::Template::tested_at))]
fn extensions_inside(octets: &[u8]) -> Result<Extensions<'_>, BadForm>
    ensures { Gives extensions_of result (tested_at is_extensions octets.now) }
{
    read_extensions(octets)
}

/// Extensions where they stand at the front, and the octets behind them.
fn extensions_field(bytes: &[u8]) -> Result<(Option<Extensions<'_>>, &[u8]), BadForm>
    ensures { Gives (λ r. (option_map extensions_of r.0, r.1.now)) result (optional_with (tested_at is_extensions) 0x30 bytes.now) }
{
    let (element, rest) = optional(0x30, bytes)?;
    match element {
        None => Ok((None, rest)),
        Some(element) => {
            let extensions = extensions_inside(element.content)?;
            Ok((Some(extensions), rest))
        }
    }
}

/// Reads what stands in the SEQUENCE of a certificate's details.
#[tactic(auto, unfolding(crate::specs::Revocation::rev_at))]
fn rev_inside(content: &[u8]) -> Result<RevEntry<'_>, BadForm>
    ensures { Gives rev_of result (rev_at content.now) }
{
    let (template, rest) = template_field(content)?;
    let (exts, rest) = extensions_field(rest)?;
    if !rest.is_empty() {
        return Err(BadForm);
    }
    Ok(RevEntry { template, exts })
}

impl<'a> Entry<'a> for RevEntry<'a> {
    ghost Form = { RevForm };

    ghost form_of = { rev_of };

    ghost reading = { rev_at };

    fn read(content: &'a [u8]) -> Result<Self, BadForm> {
        rev_inside(content)
    }
}

/// Reads a request by its entries.
fn rev_entries<'a>(e: &Element<'a>) -> Result<RevReq<'a>, BadForm>
    ensures { Gives rev_req_of result (rev_req_at (part_of e.now)) }
{
    let row: Row<RevEntry<'_>> = read_list(e)?;
    Ok(RevReq {
        count: row.count,
        first: row.first,
    })
}

/// Reads a RevReqContent (RFC 9810, 5.3.9), the details of each certificate. `BadForm` where the element is none.
pub fn read_rev_req<'a>(e: &Element<'a>) -> Result<RevReq<'a>, BadForm>
    // What is read is spelled so.
    ensures found { IfOk result (λ r. IsRevReq (part_of e.now) (rev_req_of r)) }
    // What is spelled so is read.
    ensures only { (request : RowForm RevForm) → IsRevReq (part_of e.now) request → Gives rev_req_of result (Some request) }
    ensures exact { Gives rev_req_of result (rev_req_at (part_of e.now)) }
{
    rev_entries(e)
}

/// Puts the template of a certificate.
#[tactic(auto, using(asn_types::proofs::LengthLemmas::short))]
fn put_template(writer: &mut Writer, issuer: &[u8], serial: u64) -> Result<(), AllocError>
    requires { length issuer.now + 128 < 2 ^ 32 }
    ensures { OnOk result (writer.new ≡ writer.old ++ element 0x30 (rev_template_octets issuer.now serial)) }
{
    let from = writer.len();
    writer.put(0x81, number(serial).as_slice())?;
    writer.put(0xa3, issuer)?;
    writer.wrap(0x30, from)
}

/// Puts the extensions of an entry.
#[tactic(auto, using(asn_types::proofs::LengthLemmas::short, crate::proofs::ReasonLemmas::reason_sizes))]
fn put_extensions(writer: &mut Writer, reason: u8) -> Result<(), AllocError>
    ensures { OnOk result (writer.new ≡ writer.old ++ element 0x30 (reason_extension reason)) }
{
    let from = writer.len();
    put_reason(writer, reason)?;
    writer.wrap(0x30, from)
}

/// The octets of a request.
#[tactic(auto, using(asn_types::proofs::LengthLemmas::short, crate::proofs::RevocationLemmas::details_sizes))]
fn rev_req_written(
    alloc: Global,
    issuer: &[u8],
    serial: u64,
    reason: u8,
) -> Result<Octets, AllocError>
    requires { length issuer.now + 128 < 2 ^ 32 }
    ensures { IfOk result (λ octets. octets ≡ rev_req_octets issuer.now serial reason) }
{
    let mut writer = Writer::new(alloc);
    put_template(&mut writer, issuer, serial)?;
    put_extensions(&mut writer, reason)?;
    writer.wrap(0x30, 0)?;
    writer.wrap(0x30, 0)?;
    Ok(Octets::of(writer.finish()))
}

/// Writes a RevReqContent (RFC 9810, 5.3.9) for the certificate of this issuer, a whole name, with this serial number, and the
/// reason as a reasonCode (RFC 5280, 5.3.1). `AllocError` where memory runs out.
pub fn write_rev_req(
    alloc: Global,
    issuer: &[u8],
    serial: u64,
    reason: u8,
) -> Result<Octets, AllocError>
    requires { length issuer.now + 128 < 2 ^ 32 }
    ensures written { IfOk result (λ octets. octets ≡ rev_req_octets issuer.now serial reason) }
    ensures size { IfOk result (λ octets. length octets ≤ length issuer.now + 128) }
    // What is written is read again.
    ensures again { IsWholeName issuer.now → IfOk result (IsOne (λ p. IsRevReq p (row_of (rev_details issuer.now serial reason ∷ [])))) }
    // And the extensions that are read give the reason.
    ensures reason { IsWholeName issuer.now → IsReason reason → IfOk result (λ octets. GivesReason octets reason) }
{
    rev_req_written(alloc, issuer, serial, reason)
}
