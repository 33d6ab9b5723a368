//! The status of a request.
ghost use Rattle.std.specs.Prelude.{◌≡◌, ℕ, ◌^◌, ◌<◌, ◌≤◌, ◌+◌, ◌++◌, ◌==◌, if◌then◌else◌, List, Option, Some, None, length, IfOk, OnOk, option_map};
ghost use Rattle.std.specs.Option.{option_copied};
ghost use Rattle.der_base.specs.Element.{element, IsElement};
ghost use Rattle.der_base.specs.Values.{BitString, bit_string_of};
ghost use Rattle.asn_fields.specs.Fields.{Gives, optional_with};
ghost use Rattle.asn_fields.specs.Forms.{optional_spelling};
ghost use Rattle.asn_types.specs.Template.{same};
ghost use Rattle.asn_parts.specs.Parts.{required_with};

use crate::texts::texts_field;
use asn_fields::{BadForm, Entry, field, optional};
use asn_parts::{integer_field, number};
use cmp_values::{FailInfo, Octets};
use der_base::{Bits, Element, Writer, bits};
use std::alloc::{AllocError, Global};

/// The status of a request (PKIStatusInfo, RFC 9810, 5.2.3): the content of status, that of the SEQUENCE of texts where it is
/// there, and the bits of failInfo where it is there.
#[derive(Clone, Copy, Debug, PartialEq, Eq)]
pub struct StatusInfo<'a> {
    pub status: &'a [u8],
    pub text: Option<&'a [u8]>,
    pub fail: Option<Bits<'a>>,
}

ghost use Rattle.pki_parts.specs.Status.{StatusForm, FitsStatus, IsTextOrNone, status_content, status_of, bits_content, bits_inside_at, status_at, one_text, reason_bits, written_status, option_size};

/// A string of bits, by its content.
#[tactic(auto, unfolding(crate::specs::Status::bits_inside_at, der_base::specs::Values::bits_at))]
fn bits_inside(content: &[u8]) -> Result<Bits<'_>, BadForm>
    ensures { Gives bit_string_of result (bits_inside_at content.now) }
{
    let string = bits(&Element {
        tag: 0x03,
        content,
        whole: content,
    })?;
    Ok(string)
}

/// A string of bits where one stands at the front, and the octets behind it.
fn bits_field(bytes: &[u8]) -> Result<(Option<Bits<'_>>, &[u8]), BadForm>
    ensures { Gives {Y = Option BitString × List ℕ} (λ r. (option_map bit_string_of r.0, r.1.now)) result (optional_with bits_inside_at 0x03 bytes.now) }
{
    let (element, rest) = optional(0x03, bytes)?;
    match element {
        None => Ok((None, rest)),
        Some(element) => {
            let string = bits_inside(element.content)?;
            Ok((Some(string), rest))
        }
    }
}

/// Reads what stands in the SEQUENCE of a status.
#[tactic(auto, unfolding(crate::specs::Status::status_at))]
pub(crate) fn status_inside(content: &[u8]) -> Result<StatusInfo<'_>, BadForm>
    ensures { Gives status_of result (status_at content.now) }
{
    let (status, rest) = integer_field(content)?;
    let (text, rest) = texts_field(rest)?;
    let (fail, rest) = bits_field(rest)?;
    if !rest.is_empty() {
        return Err(BadForm);
    }
    Ok(StatusInfo { status, text, fail })
}

impl<'a> Entry<'a> for StatusInfo<'a> {
    ghost Form = { StatusForm };

    ghost form_of = { status_of };

    ghost reading = { status_at };

    fn read(content: &'a [u8]) -> Result<Self, BadForm> {
        status_inside(content)
    }
}

/// A status at the front, and the octets behind it.
pub(crate) fn status_field(bytes: &[u8]) -> Result<(StatusInfo<'_>, &[u8]), BadForm>
    ensures { Gives {Y = StatusForm × List ℕ} (λ r. (status_of r.0, r.1.now)) result (required_with status_at 0x30 bytes.now) }
{
    let (element, rest) = field(0x30, bytes)?;
    let status = status_inside(element.content)?;
    Ok((status, rest))
}

/// Reads an element that is a status.
fn status_element<'a>(e: &Element<'a>) -> Result<StatusInfo<'a>, BadForm>
    ensures { Gives status_of result (if e.now.tag == 0x30 then status_at e.now.content.now else None) }
{
    if e.tag == 0x30 {
        status_inside(e.content)
    } else {
        Err(BadForm)
    }
}

/// Reads a status (RFC 9810, 5.2.3): its fields in their order, nothing over. `BadForm` where the element is none. Bits of failInfo
/// that have no name are read like the others.
pub fn read_status<'a>(e: &Element<'a>) -> Result<StatusInfo<'a>, BadForm>
    // What is read is a SEQUENCE, and spelled so.
    ensures found { IfOk result (λ s. (e.now.tag ≡ 0x30) × FitsStatus (status_of s) × (e.now.content.now ≡ status_content (status_of s))) }
    // What is spelled so is read.
    ensures only { (s : StatusForm) → e.now.tag ≡ 0x30 → FitsStatus s → e.now.content.now ≡ status_content s
        → Gives status_of result (Some s) }
{
    status_element(e)
}

/// Puts one text in a SEQUENCE, where there is one.
#[tactic(auto, using(asn_types::proofs::LengthLemmas::lengths))]
fn put_text(writer: &mut Writer, text: Option<&[u8]>) -> Result<(), AllocError>
    requires { length (optional_spelling 0x30 same (option_map one_text (option_copied text))) < 2 ^ 32 }
    ensures { OnOk result (writer.new ≡ writer.old ++ optional_spelling 0x30 same (option_map one_text (option_copied text.entry))) }
{
    match text {
        None => Ok(()),
        Some(text) => {
            let from = writer.len();
            writer.put(0x0c, text)?;
            writer.wrap(0x30, from)
        }
    }
}

/// Puts a reason as a string of bits that ends with its one bit.
fn put_reason(writer: &mut Writer, fail: FailInfo) -> Result<(), AllocError>
    ensures { OnOk result (writer.new ≡ writer.old ++ element 0x03 (bits_content (reason_bits fail))) }
{
    let bit = fail.bit();
    let unused = 7 - bit % 8;
    let from = writer.len();
    writer.put_whole(&[unused])?;
    writer.put_whole(&[0; 3][..usize::from(bit / 8)])?;
    writer.put_whole(&[2u8.pow(u32::from(unused))])?;
    writer.wrap(0x03, from)
}

/// Puts a reason, where there is one.
fn put_fail(writer: &mut Writer, fail: Option<FailInfo>) -> Result<(), AllocError>
    ensures { OnOk result (writer.new ≡ writer.old ++ optional_spelling 0x03 bits_content (option_map reason_bits fail)) }
{
    match fail {
        None => Ok(()),
        Some(fail) => put_reason(writer, fail),
    }
}

/// The octets of a status.
#[tactic(auto, using(asn_types::proofs::LengthLemmas::lengths))]
fn status_written(
    alloc: Global,
    status: u8,
    text: Option<&[u8]>,
    fail: Option<FailInfo>,
) -> Result<Octets, AllocError>
    requires { length (status_content (written_status status (option_copied text) fail)) < 2 ^ 32 }
    ensures { IfOk result (λ octets. octets ≡ element 0x30 (status_content (written_status status (option_copied text.entry) fail))) }
{
    let mut writer = Writer::new(alloc);
    writer.put(0x02, number(u64::from(status)).as_slice())?;
    put_text(&mut writer, text)?;
    put_fail(&mut writer, fail)?;
    writer.wrap(0x30, 0)?;
    Ok(Octets::of(writer.finish()))
}

/// Writes a status (RFC 9810, 5.2.3) with one text or none, and one reason or none. `AllocError` where memory runs out.
#[tactic(auto, using(crate::proofs::StatusLemmas::sizes))]
pub fn write_status(
    alloc: Global,
    status: u8,
    text: Option<&[u8]>,
    fail: Option<FailInfo>,
) -> Result<Octets, AllocError>
    requires { option_size (option_copied text) + 64 < 2 ^ 32 }
    ensures written { IfOk result (λ octets. octets ≡ element 0x30 (status_content (written_status status (option_copied text.entry) fail))) }
    ensures size { IfOk result (λ octets. length octets ≤ option_size (option_copied text.entry) + 64) }
    // What is written is read again: the element is of this form, and its fields have the forms of their types.
    ensures again { IsTextOrNone (option_copied text.entry) → IfOk result (λ octets.
        IsElement octets 0x30 (status_content (written_status status (option_copied text.entry) fail))
        × FitsStatus (written_status status (option_copied text.entry) fail)) }
{
    status_written(alloc, status, text, fail)
}
