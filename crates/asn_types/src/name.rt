//! Names, whose values are not looked into.
ghost use Rattle.std.specs.Prelude.{◌≡◌, ◌↔◌, IsTrue, IsOk, IfOk};
ghost use Rattle.std.specs.List.{list_all};
ghost use Rattle.der_base.specs.Reading.{part_of};
ghost use Rattle.der_base.specs.Row.{items_of};
ghost use Rattle.asn_types.specs.Rows.{passes};
ghost use Rattle.asn_types.specs.Name.{IsName, is_attribute, is_relative_name, is_name};

use asn_fields::BadForm;
use der_base::{Element, Items, oid};

/// A name: its whole element. Names are equal where their octets are.
#[derive(Clone, Copy, Debug, PartialEq, Eq)]
pub struct Name<'a> {
    pub whole: &'a [u8],
}

/// Whether an element is a SEQUENCE of an object identifier and one element more.
fn is_attribute(p: &Element) -> bool
    ensures { result ≡ is_attribute (part_of p.now) }
{
    if p.tag != 0x30 {
        return false;
    }
    let mut items = Items::new(p.content);
    let Some(Ok(kind)) = items.next() else {
        return false;
    };
    let Some(Ok(_)) = items.next() else {
        return false;
    };
    items.next().is_none() && oid(&kind).is_ok()
}

/// Whether a content is a row of attributes.
fn are_attributes(content: &[u8]) -> bool
    ensures { result ≡ list_all (passes is_attribute) (items_of content.now) }
{
    for item in Items::new(content) {
        let Ok(p) = item else {
            return false;
        };
        if !is_attribute(&p) {
            return false;
        }
    }
    true
}

/// Whether an element is a SET of at least one attribute.
fn is_relative_name(p: &Element) -> bool
    ensures { result ≡ is_relative_name (part_of p.now) }
{
    p.tag == 0x31 && !p.content.is_empty() && are_attributes(p.content)
}

/// Whether a content is a row of relative names.
fn are_relative_names(content: &[u8]) -> bool
    ensures { result ≡ list_all (passes is_relative_name) (items_of content.now) }
{
    for item in Items::new(content) {
        let Ok(p) = item else {
            return false;
        };
        if !is_relative_name(&p) {
            return false;
        }
    }
    true
}

/// Whether an element is a name.
#[tactic(auto, unfolding(crate::specs::Name::is_name))]
pub(crate) fn is_name(p: &Element) -> bool
    ensures { result ≡ is_name (part_of p.now) }
{
    p.tag == 0x30 && are_relative_names(p.content)
}

/// Reads an element that is a name.
fn name_element<'a>(e: &Element<'a>) -> Result<Name<'a>, BadForm>
    ensures exact { IsOk result ↔ IsTrue (is_name (part_of e.now)) }
    ensures value { IfOk result (λ n. n.whole.now ≡ e.now.whole.now) }
{
    if is_name(e) {
        Ok(Name { whole: e.whole })
    } else {
        Err(BadForm)
    }
}

/// Reads a name (RFC 5280, 4.1.2.4). `BadForm` where the element is none.
pub fn read_name<'a>(e: &Element<'a>) -> Result<Name<'a>, BadForm>
    ensures reads { IsOk result ↔ IsName (part_of e.now) }
    ensures value { IfOk result (λ n. n.whole.now ≡ e.now.whole.now) }
    ensures exact { IsOk result ↔ IsTrue (is_name (part_of e.now)) }
{
    name_element(e)
}
