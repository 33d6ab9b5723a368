//! Reasons of revocations.
ghost use Rattle.std.specs.Prelude.{◌≡◌, ℕ, ◌+◌, ◌^◌, ◌<◌, ◌++◌, length, IfOk, OnOk, option_map};
ghost use Rattle.std.specs.Str.{bytes_eq};
ghost use Rattle.der_base.specs.Element.{element};
ghost use Rattle.der_base.specs.Row.{item_of};
ghost use Rattle.asn_fields.specs.Fields.{Gives};
ghost use Rattle.asn_fields.specs.Rows.{item_at};
ghost use Rattle.asn_types.specs.Extension.{extension_of, extension_at};
ghost use Rattle.asn_types.specs.Template.{extensions_of};
ghost use Rattle.asn_parts.specs.Number.{number_octets};
ghost use Rattle.pki_parts.specs.Reason.{IsReasonOf, reason_code_id, is_reason, reason_octet_at, reason_value_at, reason_in_at, reason_at, reason_extension};

use asn_fields::{BadForm, sole};
use asn_parts::number;
use asn_types::{Extension, Extensions, REASON_CODE, read_extension};
use der_base::{DerFault, Element, Items, Writer};
use std::alloc::AllocError;

/// Whether a number is that of a reason for which a certificate is revoked.
fn is_reason(n: u8) -> bool
    ensures { result ≡ is_reason n }
{
    n <= 6 || n == 9 || n == 10
}

/// Whether an identifier is that of a reasonCode.
#[tactic(auto, unfolding(crate::specs::Reason::reason_code_id))]
fn is_reason_code(oid: &[u8]) -> bool
    ensures { result ≡ bytes_eq oid.now reason_code_id }
{
    oid == REASON_CODE
}

/// The reason in the octets of an ENUMERATED.
#[tactic(auto, unfolding(crate::specs::Reason::reason_octet_at))]
fn reason_octet(content: &[u8]) -> Result<u8, BadForm>
    ensures { Gives (λ n. n) result (reason_octet_at content.now) }
{
    match content {
        [n] if is_reason(*n) => Ok(*n),
        _ => Err(BadForm),
    }
}

/// The reason in the value of a reasonCode.
fn reason_value(value: &[u8]) -> Result<u8, BadForm>
    ensures { Gives (λ n. n) result (reason_value_at value.now) }
{
    let element = sole(0x0a, value)?;
    reason_octet(element.content)
}

/// Reads an extension.
fn extension_item<'a>(item: Result<Element<'a>, DerFault>) -> Result<Extension<'a>, BadForm>
    ensures { Gives extension_of result (item_at extension_at 0x30 (item_of item.entry)) }
{
    let element = item?;
    read_extension(&element)
}

/// The reason among extensions.
#[tactic(auto, unfolding(crate::specs::Reason::reason_in_at, asn_fields::specs::Rows::entries_at))]
fn reason_inside(content: &[u8]) -> Result<u8, BadForm>
    ensures { Gives (λ n. n) result (reason_in_at content.now) }
{
    let mut found = None;
    for item in Items::new(content) {
        let extension = extension_item(item)?;
        if is_reason_code(extension.oid) {
            if found.is_some() {
                return Err(BadForm);
            }
            found = Some(reason_value(extension.value)?);
        }
    }
    Ok(found.unwrap_or(0))
}

/// The reason of what may be left out.
fn reason_inside_option(exts: Option<Extensions<'_>>) -> Result<u8, BadForm>
    ensures { Gives (λ n. n) result (reason_at (option_map extensions_of exts.entry)) }
{
    match exts {
        None => Ok(0),
        Some(exts) => reason_inside(exts.content),
    }
}

/// The reason that the extensions for the entry in the revocation list give (RFC 5280, 5.3.1): 0, unspecified, where they give
/// none. `BadForm` where a reasonCode stands there twice, is out of form, or is not one of 0 to 6, 9 and 10.
pub fn revocation_reason(exts: Option<Extensions<'_>>) -> Result<u8, BadForm>
    // What is answered is the reason.
    ensures found { IfOk result (IsReasonOf (option_map extensions_of exts.entry)) }
    // The reason is answered.
    ensures only { (n : ℕ) → IsReasonOf (option_map extensions_of exts.entry) n → result ≡ Ok n }
    ensures exact { Gives (λ n. n) result (reason_at (option_map extensions_of exts.entry)) }
{
    reason_inside_option(exts)
}

/// The identifier of a reasonCode.
#[tactic(auto, unfolding(crate::specs::Reason::reason_code_id))]
fn reason_code_oid() -> &'static [u8]
    ensures { result.now ≡ reason_code_id }
{
    REASON_CODE
}

/// Puts the value of a reasonCode.
#[tactic(auto, using(asn_types::proofs::LengthLemmas::short))]
fn put_value(writer: &mut Writer, reason: u8) -> Result<(), AllocError>
    ensures { OnOk result (writer.new ≡ writer.old ++ element 0x04 (element 0x0A (number_octets reason))) }
{
    let from = writer.len();
    writer.put(0x0a, number(u64::from(reason)).as_slice())?;
    writer.wrap(0x04, from)
}

/// Puts a reasonCode.
#[tactic(auto, using(asn_types::proofs::LengthLemmas::short, crate::proofs::ReasonLemmas::reason_sizes))]
pub(crate) fn put_reason(writer: &mut Writer, reason: u8) -> Result<(), AllocError>
    ensures { OnOk result (writer.new ≡ writer.old ++ reason_extension reason) }
{
    let from = writer.len();
    writer.put(0x06, reason_code_oid())?;
    put_value(writer, reason)?;
    writer.wrap(0x30, from)
}
