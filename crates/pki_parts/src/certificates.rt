//! Certificates as messages carry them.
ghost use Rattle.std.specs.Prelude.{◌≡◌, ◌↔◌, IsTrue};
ghost use Rattle.der_base.specs.Reading.{part_of};
ghost use Rattle.pki_parts.specs.Certificates.{IsCertificates, are_elements, is_certificate, are_certificates};

use der_base::{Element, Items};

/// Whether a content is whole elements, one behind the other, nothing over.
#[tactic(auto, unfolding(crate::specs::Certificates::are_elements))]
pub(crate) fn are_elements(content: &[u8]) -> bool
    ensures { result ≡ are_elements content.now }
{
    for item in Items::new(content) {
        if item.is_err() {
            return false;
        }
    }
    true
}

/// Whether an element is a SEQUENCE of whole elements.
#[tactic(auto, unfolding(crate::specs::Certificates::is_certificate))]
fn is_certificate(e: &Element) -> bool
    ensures { result ≡ is_certificate (part_of e.now) }
{
    e.tag == 0x30 && are_elements(e.content)
}

/// Whether each element of a content is a certificate.
#[tactic(auto, unfolding(crate::specs::Certificates::are_certificates))]
fn all_certificates(content: &[u8]) -> bool
    ensures { result ≡ are_certificates content.now }
{
    for item in Items::new(content) {
        let Ok(p) = item else {
            return false;
        };
        if !is_certificate(&p) {
            return false;
        }
    }
    true
}

/// Whether a content is a row of certificates, nothing over. A certificate is a SEQUENCE of whole elements here, and is not looked
/// into further.
pub fn are_certificates(content: &[u8]) -> bool
    ensures means { IsTrue result ↔ IsCertificates content.now }
    ensures exact { result ≡ are_certificates content.now }
{
    all_certificates(content)
}
