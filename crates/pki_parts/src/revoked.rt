//! Responses to requests to revoke.
ghost use Rattle.std.specs.Prelude.{◌≡◌, ℕ, ◌+◌, ◌≤◌, ◌^◌, ◌<◌, List, Option, [], ◌∷◌, length, IfOk, Some, option_map};
ghost use Rattle.std.specs.Option.{option_copied};
ghost use Rattle.der_base.specs.Element.{IsElement};
ghost use Rattle.der_base.specs.Reading.{part_of};
ghost use Rattle.asn_fields.specs.Fields.{Gives, optional_with};
ghost use Rattle.asn_fields.specs.Rows.{RowForm, row_of};
ghost use Rattle.pki_parts.specs.Lists.{IsOne};
ghost use Rattle.pki_parts.specs.Status.{StatusForm, FitsStatus, status_content, status_of};

use crate::status::StatusInfo;
use asn_fields::{BadForm, Row, field, optional, read_row};
use cmp_values::Octets;
use der_base::{Element, Writer, whole};
use std::alloc::{AllocError, Global};

/// The response to a request to revoke (RFC 9810, 5.3.10): of how many certificates, and the status of the first one. All of them
/// were read.
#[derive(Clone, Copy, Debug, PartialEq, Eq)]
pub struct RevRep<'a> {
    pub count: u64,
    pub first: Option<StatusInfo<'a>>,
}

ghost use Rattle.pki_parts.specs.Revoked.{IsRevRep, rev_rep_of, one_at, statuses_at, rev_rep_inside_at, rev_rep_at, rev_rep_octets};

/// The row of statuses at the front, and the octets behind it.
fn statuses_field(bytes: &[u8]) -> Result<(RevRep<'_>, &[u8]), BadForm>
    ensures { Gives {Y = RowForm StatusForm × List ℕ} (λ r. (rev_rep_of r.0, r.1.now)) result (statuses_at bytes.now) }
{
    let (element, rest) = field(0x30, bytes)?;
    let row: Row<StatusInfo<'_>> = read_row(0x30, element.content)?;
    let statuses = RevRep {
        count: row.count,
        first: row.first,
    };
    Ok((statuses, rest))
}

/// The one element that a content is.
#[tactic(auto, unfolding(crate::specs::Revoked::one_at))]
fn one_inside(content: &[u8]) -> Result<&[u8], BadForm>
    ensures { Gives (λ octets. octets.now) result (one_at content.now) }
{
    let element = whole(content)?;
    Ok(element.whole)
}

/// One element inside this tag where it stands at the front, and the octets behind it.
fn one_field(tag: u8, bytes: &[u8]) -> Result<(Option<&[u8]>, &[u8]), BadForm>
    ensures { Gives (λ r. (option_copied r.0, r.1.now)) result (optional_with one_at tag bytes.now) }
{
    let (element, rest) = optional(tag, bytes)?;
    match element {
        None => Ok((None, rest)),
        Some(element) => {
            let octets = one_inside(element.content)?;
            Ok((Some(octets), rest))
        }
    }
}

/// Reads what stands in the SEQUENCE of a response.
#[tactic(auto, unfolding(crate::specs::Revoked::rev_rep_inside_at))]
fn rev_rep_inside(content: &[u8]) -> Result<RevRep<'_>, BadForm>
    ensures { Gives rev_rep_of result (rev_rep_inside_at content.now) }
{
    let (statuses, rest) = statuses_field(content)?;
    let (_certs, rest) = one_field(0xa0, rest)?;
    let (_crls, rest) = one_field(0xa1, rest)?;
    if !rest.is_empty() {
        return Err(BadForm);
    }
    Ok(statuses)
}

/// Reads an element that is a response.
#[tactic(auto, unfolding(crate::specs::Revoked::rev_rep_at))]
fn rev_rep_element<'a>(e: &Element<'a>) -> Result<RevRep<'a>, BadForm>
    ensures { Gives rev_rep_of result (rev_rep_at (part_of e.now)) }
{
    if e.tag == 0x30 {
        rev_rep_inside(e.content)
    } else {
        Err(BadForm)
    }
}

/// Reads a RevRepContent (RFC 9810, 5.3.10), the status of each request; revCerts and crls are not looked into. `BadForm` where the
/// element is none.
pub fn read_rev_rep<'a>(e: &Element<'a>) -> Result<RevRep<'a>, BadForm>
    // What is read is spelled so.
    ensures found { IfOk result (λ r. IsRevRep (part_of e.now) (rev_rep_of r)) }
    // What is spelled so is read.
    ensures only { (response : RowForm StatusForm) → IsRevRep (part_of e.now) response → Gives rev_rep_of result (Some response) }
    ensures exact { Gives rev_rep_of result (rev_rep_at (part_of e.now)) }
{
    rev_rep_element(e)
}

/// The octets of a response.
#[tactic(auto, using(asn_types::proofs::LengthLemmas::short))]
fn rev_rep_written(alloc: Global, status: &[u8]) -> Result<Octets, AllocError>
    requires { length status.now + 64 < 2 ^ 32 }
    ensures { IfOk result (λ octets. octets ≡ rev_rep_octets status.now) }
{
    let mut writer = Writer::new(alloc);
    writer.put(0x30, status)?;
    writer.wrap(0x30, 0)?;
    Ok(Octets::of(writer.finish()))
}

/// Writes a RevRepContent (RFC 9810, 5.3.10) with one status, a whole PKIStatusInfo. `AllocError` where memory runs out.
pub fn write_rev_rep(alloc: Global, status: &[u8]) -> Result<Octets, AllocError>
    requires { length status.now + 64 < 2 ^ 32 }
    ensures written { IfOk result (λ octets. octets ≡ rev_rep_octets status.now) }
    ensures size { IfOk result (λ octets. length octets ≤ length status.now + 64) }
    // What is written over a status is read again.
    ensures again { (s : StatusForm) → FitsStatus s → IsElement status.now 0x30 (status_content s)
        → IfOk result (IsOne (λ p. IsRevRep p (row_of (s ∷ [])))) }
{
    rev_rep_written(alloc, status)
}
