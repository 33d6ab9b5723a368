//! Rows of texts.
ghost use Rattle.std.specs.Prelude.{◌≡◌};
ghost use Rattle.std.specs.Option.{option_copied};
ghost use Rattle.der_base.specs.Reading.{part_of};
ghost use Rattle.asn_fields.specs.Fields.{Gives, optional_with};
ghost use Rattle.asn_types.specs.Template.{tested_at};
ghost use Rattle.pki_parts.specs.Texts.{is_text, are_texts};

use asn_fields::{BadForm, optional};
use der_base::{Element, Items, utf8};

/// Whether an element is a text.
#[tactic(auto, unfolding(crate::specs::Texts::is_text))]
fn is_text(e: &Element) -> bool
    ensures { result ≡ is_text (part_of e.now) }
{
    utf8(e).is_ok()
}

/// Whether a content is a row of texts.
#[tactic(auto, unfolding(crate::specs::Texts::are_texts))]
fn are_texts(content: &[u8]) -> bool
    ensures { result ≡ are_texts content.now }
{
    for item in Items::new(content) {
        let Ok(p) = item else {
            return false;
        };
        if !is_text(&p) {
            return false;
        }
    }
    true
}

/// A row of texts.
#[tactic(auto, unfolding(asn_types::specs::Template::tested_at))]
fn texts_inside(content: &[u8]) -> Result<&[u8], BadForm>
    ensures { Gives (λ octets. octets.now) result (tested_at are_texts content.now) }
{
    if are_texts(content) {
        Ok(content)
    } else {
        Err(BadForm)
    }
}

/// The content of a SEQUENCE of texts where one stands at the front, and the octets behind it.
pub(crate) fn texts_field(bytes: &[u8]) -> Result<(Option<&[u8]>, &[u8]), BadForm>
    ensures { Gives (λ r. (option_copied r.0, r.1.now)) result (optional_with (tested_at are_texts) 0x30 bytes.now) }
{
    let (element, rest) = optional(0x30, bytes)?;
    match element {
        None => Ok((None, rest)),
        Some(element) => {
            let octets = texts_inside(element.content)?;
            Ok((Some(octets), rest))
        }
    }
}
