ghost use Rattle.std.specs.Prelude.{◌≡◌, ℕ, ◌+◌, ◌%◌, ◌^◌, ◌<◌, ◌≤◌, ◌≢◌, ◌++◌, List, length, IfOk, Some};
ghost use Rattle.der_base.specs.Element.{IsElement, element};
ghost use Rattle.der_base.specs.Reading.{Part, part, part_of};
ghost use Rattle.asn_fields.specs.Fields.{Gives, field_at, sole_at, optional_at, optional_with, field_view, optional_view};

use crate::fault::BadForm;
use der_base::{Element, read_element};

/// Reads an element with this tag from the front. Returns it and the octets behind it.
#[tactic(auto, unfolding(crate::specs::Fields::field_at))]
pub fn field(tag: u8, bytes: &[u8]) -> Result<(Element<'_>, &[u8]), BadForm>
    // What is read is an element with the tag, and stands at the front.
    ensures found { IfOk result (λ r.
        IsElement r.0.whole.now tag r.0.content.now × (bytes.now ≡ r.0.whole.now ++ r.1.now)) }
    // An element with the tag at the front is read.
    ensures only { (octets content rest : List ℕ) → IsElement octets tag content → bytes.now ≡ octets ++ rest
        → Gives {Y = Part × List ℕ} field_view result (Some (part tag content, rest)) }
    ensures exact { Gives field_view result (field_at tag bytes.now) }
    ensures lengths { IfOk result (λ r.
        (length r.0.whole.now + length r.1.now ≡ length bytes.now) × (length r.0.content.now + 2 ≤ length r.0.whole.now)) }
{
    let (element, rest) = read_element(bytes)?;
    if element.tag == tag {
        Ok((element, rest))
    } else {
        Err(BadForm)
    }
}

/// Reads a field with nothing behind it.
#[tactic(auto, unfolding(crate::specs::Fields::sole_at))]
fn field_alone(tag: u8, bytes: &[u8]) -> Result<Element<'_>, BadForm>
    ensures exact { Gives part_of result (sole_at tag bytes.now) }
    ensures lengths { IfOk result (λ e. length e.content.now + 2 ≤ length bytes.now) }
{
    let (element, rest) = field(tag, bytes)?;
    if rest.is_empty() {
        Ok(element)
    } else {
        Err(BadForm)
    }
}

/// Reads the one element that the octets are, which has this tag.
pub fn sole(tag: u8, bytes: &[u8]) -> Result<Element<'_>, BadForm>
    ensures found { IfOk result (λ e. IsElement bytes.now tag e.content.now × (e.whole.now ≡ bytes.now)) }
    ensures only { (content : List ℕ) → IsElement bytes.now tag content
        → Gives part_of result (Some (part tag content)) }
    ensures exact { Gives part_of result (sole_at tag bytes.now) }
    ensures lengths { IfOk result (λ e. length e.content.now + 2 ≤ length bytes.now) }
{
    field_alone(tag, bytes)
}

/// Reads an element with this tag from the front, where one stands there. Returns it and the octets behind it.
#[tactic(auto, unfolding(crate::specs::Fields::optional_at))]
pub fn optional(tag: u8, bytes: &[u8]) -> Result<(Option<Element<'_>>, &[u8]), BadForm>
    ensures exact { Gives optional_view result (optional_at tag bytes.now) }
    ensures lengths { IfOk result (λ r. length r.1.now ≤ length bytes.now) }
{
    match bytes {
        [] => Ok((None, bytes)),
        [first, ..] => {
            if *first == tag {
                let (element, rest) = field(tag, bytes)?;
                return Ok((Some(element), rest));
            }
            Ok((None, bytes))
        }
    }
}

/// Reads an element with this tag around one element with the inner tag from the front, where one with the outer tag stands
/// there. Returns the inner one and the octets behind the outer one.
pub fn explicit(tag: u8, inner: u8, bytes: &[u8]) -> Result<(Option<Element<'_>>, &[u8]), BadForm>
    ensures exact { Gives optional_view result (optional_with (sole_at inner) tag bytes.now) }
    ensures lengths { IfOk result (λ r. length r.1.now ≤ length bytes.now) }
{
    let (outer, rest) = optional(tag, bytes)?;
    match outer {
        None => Ok((None, rest)),
        Some(outer) => {
            let element = sole(inner, outer.content)?;
            Ok((Some(element), rest))
        }
    }
}
