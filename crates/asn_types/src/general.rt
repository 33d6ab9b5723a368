//! General names.
ghost use Rattle.std.specs.Prelude.{◌≡◌, ◌↔◌, ◌≢◌, ◌%◌, ◌^◌, ◌<◌, length, IsTrue, IsOk, IfOk};
ghost use Rattle.der_base.specs.Element.{IsElement};
ghost use Rattle.der_base.specs.Reading.{part_of, whole_at};
ghost use Rattle.asn_types.specs.General.{IsGeneral, is_general_tag, is_general, is_name_read};

use crate::name::is_name;
use asn_fields::BadForm;
use cmp_values::Octets;
use der_base::{Element, Writer, whole};
use std::alloc::{AllocError, Global};

/// A general name: its tag, its content and its whole element.
#[derive(Clone, Copy, Debug, PartialEq, Eq)]
pub struct GeneralName<'a> {
    pub tag: u8,
    pub content: &'a [u8],
    pub whole: &'a [u8],
}

/// Whether octets are one element, which is a name.
fn is_name_alone(octets: &[u8]) -> bool
    ensures { result ≡ is_name_read (whole_at octets.now) }
{
    match whole(octets) {
        Ok(p) => is_name(&p),
        Err(_) => false,
    }
}

/// Whether a tag is that of a general name: a context tag 0 to 8, primitive or constructed.
fn is_general_tag(tag: u8) -> bool
    ensures { result ≡ is_general_tag tag }
{
    (0x80..=0x88).contains(&tag) || (0xa0..=0xa8).contains(&tag)
}

/// Whether an element is a general name.
#[tactic(auto, unfolding(crate::specs::General::is_general))]
fn is_general(e: &Element) -> bool
    ensures { result ≡ is_general (part_of e.now) }
{
    is_general_tag(e.tag) && (e.tag != 0xa4 || is_name_alone(e.content))
}

/// Reads an element that is a general name.
fn general_element<'a>(e: &Element<'a>) -> Result<GeneralName<'a>, BadForm>
    ensures exact { IsOk result ↔ IsTrue (is_general (part_of e.now)) }
    ensures value { IfOk result (λ g. (g.tag ≡ e.now.tag) × (g.content.now ≡ e.now.content.now) × (g.whole.now ≡ e.now.whole.now)) }
{
    if !is_general(e) {
        return Err(BadForm);
    }
    Ok(GeneralName {
        tag: e.tag,
        content: e.content,
        whole: e.whole,
    })
}

/// Reads a general name (RFC 5280, 4.2.1.6). Of its kinds the directoryName alone is looked into. `BadForm` where the element
/// is none.
pub fn read_general<'a>(e: &Element<'a>) -> Result<GeneralName<'a>, BadForm>
    ensures reads { IsOk result ↔ IsGeneral (part_of e.now) }
    ensures value { IfOk result (λ g. (g.tag ≡ e.now.tag) × (g.content.now ≡ e.now.content.now) × (g.whole.now ≡ e.now.whole.now)) }
    ensures exact { IsOk result ↔ IsTrue (is_general (part_of e.now)) }
{
    general_element(e)
}

/// Writes a general name of this tag and content. `AllocError` where memory runs out.
pub fn write_general(alloc: Global, tag: u8, content: &[u8]) -> Result<Octets, AllocError>
    requires low_tag { tag % 32 ≢ 31 }
    requires counted { length content.now < 2 ^ 32 }
    ensures { IfOk result (λ octets. IsElement octets tag content.now) }
{
    let mut writer = Writer::new(alloc);
    writer.put(tag, content)?;
    Ok(Octets::of(writer.finish()))
}
