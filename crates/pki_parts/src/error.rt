//! Messages that tell of an error.
ghost use Rattle.std.specs.Prelude.{◌≡◌, ◌^◌, ◌<◌, ◌≤◌, ◌+◌, ◌==◌, if◌then◌else◌, Some, None, length, IfOk};
ghost use Rattle.std.specs.Option.{option_copied};
ghost use Rattle.der_base.specs.Element.{element, IsElement};
ghost use Rattle.der_base.specs.Values.{is_integer};
ghost use Rattle.asn_fields.specs.Fields.{Gives, optional_with};
ghost use Rattle.asn_types.specs.Template.{tested_at};
ghost use Rattle.pki_parts.specs.Status.{StatusForm, FitsStatus, status_content};

use crate::status::{StatusInfo, status_field};
use crate::texts::texts_field;
use asn_fields::{BadForm, optional};
use asn_parts::integer_inside;
use cmp_values::Octets;
use der_base::{Element, Writer};
use std::alloc::{AllocError, Global};

/// What an error message says (ErrorMsgContent, RFC 9810, 5.3.21): the status, the content of errorCode where it is there, and that
/// of the SEQUENCE of texts in errorDetails where it is there.
#[derive(Clone, Copy, Debug, PartialEq, Eq)]
pub struct ErrorMsg<'a> {
    pub status: StatusInfo<'a>,
    pub code: Option<&'a [u8]>,
    pub text: Option<&'a [u8]>,
}

ghost use Rattle.pki_parts.specs.Error.{ErrorForm, FitsError, error_content, error_of, error_at, written_error};

/// The content of an INTEGER where one stands at the front, and the octets behind it.
fn code_field(bytes: &[u8]) -> Result<(Option<&[u8]>, &[u8]), BadForm>
    ensures { Gives (λ r. (option_copied r.0, r.1.now)) result (optional_with (tested_at is_integer) 0x02 bytes.now) }
{
    let (element, rest) = optional(0x02, bytes)?;
    match element {
        None => Ok((None, rest)),
        Some(element) => {
            let octets = integer_inside(element.content)?;
            Ok((Some(octets), rest))
        }
    }
}

/// Reads what stands in the SEQUENCE of an error message.
#[tactic(auto, unfolding(crate::specs::Error::error_at))]
fn error_inside(content: &[u8]) -> Result<ErrorMsg<'_>, BadForm>
    ensures { Gives error_of result (error_at content.now) }
{
    let (status, rest) = status_field(content)?;
    let (code, rest) = code_field(rest)?;
    let (text, rest) = texts_field(rest)?;
    if !rest.is_empty() {
        return Err(BadForm);
    }
    Ok(ErrorMsg { status, code, text })
}

/// Reads an element that is an error message.
fn error_element<'a>(e: &Element<'a>) -> Result<ErrorMsg<'a>, BadForm>
    ensures { Gives error_of result (if e.now.tag == 0x30 then error_at e.now.content.now else None) }
{
    if e.tag == 0x30 {
        error_inside(e.content)
    } else {
        Err(BadForm)
    }
}

/// Reads an error message (RFC 9810, 5.3.21): its fields in their order, nothing over. `BadForm` where the element is none.
pub fn read_error<'a>(e: &Element<'a>) -> Result<ErrorMsg<'a>, BadForm>
    // What is read is a SEQUENCE, and spelled so.
    ensures found { IfOk result (λ m. (e.now.tag ≡ 0x30) × FitsError (error_of m) × (e.now.content.now ≡ error_content (error_of m))) }
    // What is spelled so is read.
    ensures only { (m : ErrorForm) → e.now.tag ≡ 0x30 → FitsError m → e.now.content.now ≡ error_content m
        → Gives error_of result (Some m) }
    ensures exact { Gives error_of result (if e.now.tag == 0x30 then error_at e.now.content.now else None) }
{
    error_element(e)
}

/// The octets of an error message.
fn error_written(alloc: Global, status: &[u8]) -> Result<Octets, AllocError>
    requires { length status.now < 2 ^ 32 }
    ensures { IfOk result (λ octets. octets ≡ element 0x30 status.now) }
{
    let mut writer = Writer::new(alloc);
    writer.put(0x30, status)?;
    Ok(Octets::of(writer.finish()))
}

/// Writes an error message (RFC 9810, 5.3.21) of a status, a whole PKIStatusInfo, with no errorCode and no errorDetails.
/// `AllocError` where memory runs out.
#[tactic(auto, using(asn_types::proofs::LengthLemmas::length_element_le))]
pub fn write_error(alloc: Global, status: &[u8]) -> Result<Octets, AllocError>
    requires { length status.now < 2 ^ 32 }
    ensures written { IfOk result (λ octets. octets ≡ element 0x30 status.now) }
    ensures size { IfOk result (λ octets. length octets ≤ length status.now + 64) }
    // What is written of a status is read again: the element is of this form, and its fields have the forms of their types.
    ensures again { (s : StatusForm) → FitsStatus s → IsElement status.now 0x30 (status_content s)
        → IfOk result (λ octets. IsElement octets 0x30 (error_content (written_error s)) × FitsError (written_error s)) }
{
    error_written(alloc, status)
}
