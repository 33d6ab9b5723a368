//! Rows of texts.
ghost use Rattle.std.specs.Prelude.{◌≡◌, ◌↔◌, IsTrue};
ghost use Rattle.der_base.specs.Reading.{part_of};
ghost use Rattle.asn_types.specs.Rows.{IsRowOf};
ghost use Rattle.asn_parts.specs.Text.{IsText, is_text, are_texts};

use der_base::{Element, Items, utf8};

/// Whether an element is a UTF8String.
#[tactic(auto, unfolding(crate::specs::Text::is_text))]
fn is_text(e: &Element) -> bool
    ensures { result ≡ is_text (part_of e.now) }
{
    utf8(e).is_ok()
}

/// Whether a content is a row of texts, none or more.
#[tactic(auto, unfolding(crate::specs::Text::are_texts))]
fn row_of_texts(content: &[u8]) -> bool
    ensures { result ≡ are_texts content.now }
{
    for item in Items::new(content) {
        let Ok(p) = item else {
            return false;
        };
        if !is_text(&p) {
            return false;
        }
    }
    true
}

/// Whether a content is a row of UTF8Strings, none or more, and nothing over.
pub fn are_texts(content: &[u8]) -> bool
    ensures row { IsTrue result ↔ IsRowOf IsText content.now }
    ensures exact { result ≡ are_texts content.now }
{
    row_of_texts(content)
}
