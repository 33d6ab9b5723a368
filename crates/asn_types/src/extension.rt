//! Extensions of certificates.
ghost use Rattle.std.specs.Prelude.{◌≡◌, ◌==◌, ◌↔◌, ◌^◌, ◌<◌, length, IsTrue, IsOk, IfOk, Some, if◌then◌else◌};
ghost use Rattle.std.specs.List.{list_all};
ghost use Rattle.der_base.specs.Element.{IsElement};
ghost use Rattle.der_base.specs.Reading.{part_of};
ghost use Rattle.der_base.specs.Row.{items_of};
ghost use Rattle.asn_fields.specs.Fields.{Gives};
ghost use Rattle.asn_types.specs.Rows.{passes};
ghost use Rattle.asn_types.specs.Extension.{ExtensionForm, FitsExtension, IsExtensions, extension_content, critical_at, extension_at, is_extension, is_extensions};

use crate::parts::oid_field;
use asn_fields::{BadForm, optional, sole};
use cmp_values::Octets;
use der_base::{Element, Items, Writer, boolean};
use std::alloc::{AllocError, Global};

/// An extension: the content of its object identifier, whether it is critical, the octets of its value, and its whole element.
#[derive(Clone, Copy, Debug, PartialEq, Eq)]
pub struct Extension<'a> {
    pub oid: &'a [u8],
    pub critical: bool,
    pub value: &'a [u8],
    pub whole: &'a [u8],
}

/// Extensions: a row of them, the content of their SEQUENCE.
#[derive(Clone, Copy, Debug, PartialEq, Eq)]
pub struct Extensions<'a> {
    pub content: &'a [u8],
}

ghost use Rattle.asn_types.specs.Extension.{extension_of};

/// Whether a BOOLEAN at the front says TRUE, and the octets behind it. FALSE is the default, which is not written.
#[tactic(auto, unfolding(crate::specs::Extension::critical_at))]
fn critical(bytes: &[u8]) -> Result<(bool, &[u8]), BadForm>
    ensures { Gives (λ r. (r.0, r.1.now)) result (critical_at bytes.now) }
{
    let (flag, rest) = optional(0x01, bytes)?;
    match flag {
        None => Ok((false, rest)),
        Some(flag) => {
            let is_set = boolean(&flag)?;
            if is_set {
                Ok((true, rest))
            } else {
                Err(BadForm)
            }
        }
    }
}

/// Reads what stands in the SEQUENCE of an extension.
#[tactic(auto, unfolding(crate::specs::Extension::extension_at))]
fn extension_inside<'a>(content: &'a [u8], whole: &'a [u8]) -> Result<Extension<'a>, BadForm>
    ensures exact { Gives extension_of result (extension_at content.now) }
    ensures whole { IfOk result (λ x. x.whole.now ≡ whole.now) }
{
    let (oid, rest) = oid_field(content)?;
    let (critical, rest) = critical(rest)?;
    let value = sole(0x04, rest)?;
    Ok(Extension {
        oid,
        critical,
        value: value.content,
        whole,
    })
}

/// Reads an element that is an extension.
fn extension_element<'a>(e: &Element<'a>) -> Result<Extension<'a>, BadForm>
    ensures exact { Gives extension_of result (if e.now.tag == 0x30 then extension_at e.now.content.now else None) }
    ensures whole { IfOk result (λ x. x.whole.now ≡ e.now.whole.now) }
{
    if e.tag == 0x30 {
        extension_inside(e.content, e.whole)
    } else {
        Err(BadForm)
    }
}

/// Reads an extension (RFC 5280, 4.1.2.9 and 4.2). `BadForm` where the element is none.
pub fn read_extension<'a>(e: &Element<'a>) -> Result<Extension<'a>, BadForm>
    // What is read is a SEQUENCE, and spelled so.
    ensures found { IfOk result (λ x. (e.now.tag ≡ 0x30) × FitsExtension (extension_of x) × (e.now.content.now ≡ extension_content (extension_of x))) }
    // What is spelled so is read.
    ensures only { (x : ExtensionForm) → e.now.tag ≡ 0x30 → FitsExtension x → e.now.content.now ≡ extension_content x
        → Gives extension_of result (Some x) }
    ensures whole { IfOk result (λ x. x.whole.now ≡ e.now.whole.now) }
    ensures exact { Gives extension_of result (if e.now.tag == 0x30 then extension_at e.now.content.now else None) }
{
    extension_element(e)
}

/// Whether an element is an extension.
#[tactic(auto, unfolding(crate::specs::Extension::is_extension))]
fn is_extension(e: &Element) -> bool
    ensures { result ≡ is_extension (part_of e.now) }
{
    read_extension(e).is_ok()
}

/// Whether a content is a row of extensions.
fn are_extensions(content: &[u8]) -> bool
    ensures { result ≡ list_all (passes is_extension) (items_of content.now) }
{
    for item in Items::new(content) {
        let Ok(p) = item else {
            return false;
        };
        if !is_extension(&p) {
            return false;
        }
    }
    true
}

/// Reads a row of extensions, not empty.
#[tactic(auto, unfolding(crate::specs::Extension::is_extensions))]
pub(crate) fn extensions_inside(content: &[u8]) -> Result<Extensions<'_>, BadForm>
    ensures exact { IsOk result ↔ IsTrue (is_extensions content.now) }
    ensures value { IfOk result (λ x. x.content.now ≡ content.now) }
{
    if content.is_empty() || !are_extensions(content) {
        return Err(BadForm);
    }
    Ok(Extensions { content })
}

/// Reads what stands in the SEQUENCE of Extensions (RFC 5280, 4.1.2.9), which CRMF gives another tag: a row of extensions, not
/// empty. `BadForm` where the octets are no such row.
pub fn read_extensions(content: &[u8]) -> Result<Extensions<'_>, BadForm>
    ensures reads { IsOk result ↔ IsExtensions content.now }
    ensures value { IfOk result (λ x. x.content.now ≡ content.now) }
    ensures exact { IsOk result ↔ IsTrue (is_extensions content.now) }
{
    extensions_inside(content)
}

/// Writes an extension: the content of an object identifier, whether it is critical, and the octets of its value. `AllocError`
/// where memory runs out.
#[tactic(auto, using(crate::proofs::LengthLemmas::lengths))]
pub fn write_extension(
    alloc: Global,
    oid: &[u8],
    critical: bool,
    value: &[u8],
) -> Result<Octets, AllocError>
    requires { length (extension_content (record { oid = oid.now; critical = critical; value = value.now })) < 2 ^ 32 }
    ensures { IfOk result (λ octets. IsElement octets 0x30 (extension_content (record { oid = oid.now; critical = critical; value = value.now }))) }
{
    let mut writer = Writer::new(alloc);
    writer.put(0x06, oid)?;
    if critical {
        writer.put(0x01, &[0xff])?;
    }
    writer.put(0x04, value)?;
    writer.wrap(0x30, 0)?;
    Ok(Octets::of(writer.finish()))
}

/// Writes Extensions over the whole elements of a row of extensions. `AllocError` where memory runs out.
pub fn write_extensions(alloc: Global, items: &[u8]) -> Result<Octets, AllocError>
    requires { length items.now < 2 ^ 32 }
    ensures { IfOk result (λ octets. IsElement octets 0x30 items.now) }
{
    let mut writer = Writer::new(alloc);
    writer.put(0x30, items)?;
    Ok(Octets::of(writer.finish()))
}
