//! The key in a SubjectPublicKeyInfo (RFC 5280, 4.1.2.7) and the text of the authority's Name.
ghost use Rattle.std.specs.Prelude.{◌≡◌, Option, Some, option_map, option_copied};
ghost use Rattle.std.specs.Str.{bytes_eq, is_utf8};
ghost use Rattle.deal_changes.specs.Spki.{content_at, only_at, are_parameters, PublicKey, public_key, whole_octets, is_spki, common_name_oid, is_name_text, common_name, is_ca_name};
ghost use Rattle.deal_changes.specs.PublicKeys.{public_key_of};
ghost use Rattle.der_base.specs.Values.{is_oid};

use der_base::{Element, oid, read_element, whole};

/// The key of a SubjectPublicKeyInfo and its algorithm.
#[derive(Clone, Copy, Debug)]
pub struct PublicKey<'a> {
    /// The content of the algorithm's OBJECT IDENTIFIER.
    pub algorithm: &'a [u8],
    /// The parameters as they stand; no octets where they are absent.
    pub parameters: &'a [u8],
    /// The octets of the BIT STRING.
    pub key: &'a [u8],
}

/// 2.5.4.3, a common name (X.520, 6.2.2).
const COMMON_NAME: [u8; 3] = [85, 4, 3];

/// The content of the element at the front, where it has this tag, and the octets after it.
#[tactic(auto, unfolding(crate::specs::Spki::content_at))]
fn content_at(tag: u8, octets: &[u8]) -> Option<(&[u8], &[u8])>
    ensures { option_map (λ r. (r.0.now, r.1.now)) result ≡ content_at tag octets.now }
{
    match read_element(octets) {
        Ok((element, rest)) => {
            if element.tag == tag {
                Some((element.content, rest))
            } else {
                None
            }
        }
        Err(_) => None,
    }
}

/// The content of the one element that the octets are, where it has this tag.
#[tactic(auto, unfolding(crate::specs::Spki::only_at))]
fn only_at(tag: u8, octets: &[u8]) -> Option<&[u8]>
    ensures { option_copied result ≡ only_at tag octets.now }
{
    let (content, rest) = content_at(tag, octets)?;
    if rest.is_empty() { Some(content) } else { None }
}

/// Whether these octets are the content of an OBJECT IDENTIFIER.
#[tactic(auto, unfolding(der_base::specs::Values::oid_at))]
fn is_oid(content: &[u8]) -> bool
    ensures { result ≡ is_oid content.now }
{
    let element = Element {
        tag: 6,
        content,
        whole: content,
    };
    match oid(&element) {
        Ok(_) => true,
        Err(_) => false,
    }
}

/// Whether these octets are the parameters of an algorithm.
#[tactic(auto, unfolding(crate::specs::Spki::are_parameters))]
fn are_parameters(octets: &[u8]) -> bool
    ensures { result ≡ are_parameters octets.now }
{
    if octets.is_empty() {
        return true;
    }
    match whole(octets) {
        Ok(_) => true,
        Err(_) => false,
    }
}

/// The octets of a BIT STRING without unused bits.
fn whole_octets(bits: &[u8]) -> Option<&[u8]>
    ensures { option_copied result ≡ whole_octets bits.now }
{
    match bits {
        [0, octets @ ..] => Some(octets),
        _ => None,
    }
}

/// The key of a SubjectPublicKeyInfo; none where the octets are no SubjectPublicKeyInfo.
#[tactic(auto, unfolding(crate::specs::Spki::public_key))]
pub fn public_key(octets: &[u8]) -> Option<PublicKey<'_>>
    ensures { option_map public_key_of result ≡ public_key octets.now }
{
    let fields = only_at(0x30, octets)?;
    let (algorithm, rest) = content_at(0x30, fields)?;
    let (identifier, parameters) = content_at(6, algorithm)?;
    let bits = only_at(3, rest)?;
    let key = whole_octets(bits)?;
    if is_oid(identifier) && are_parameters(parameters) {
        Some(PublicKey {
            algorithm: identifier,
            parameters,
            key,
        })
    } else {
        None
    }
}

/// Whether the octets are a SubjectPublicKeyInfo.
#[tactic(auto, unfolding(crate::specs::Spki::is_spki))]
pub fn is_spki(octets: &[u8]) -> bool
    ensures { result ≡ is_spki octets.now }
{
    match public_key(octets) {
        Some(_) => true,
        None => false,
    }
}

/// Whether octets are UTF-8.
pub fn is_text(content: &[u8]) -> bool
    ensures { result ≡ is_utf8 content.now }
{
    match str::from_utf8(content) {
        Ok(_) => true,
        Err(_) => false,
    }
}

/// Whether a text may be the name of the authority: 1 to 58 octets of UTF-8.
#[tactic(auto, unfolding(crate::specs::Spki::is_name_text))]
fn is_name_text(text: &[u8]) -> bool
    ensures { result ≡ is_name_text text.now }
{
    !text.is_empty() && text.len() <= 58 && is_text(text)
}

/// The text of a Name that is one common name of 1 to 58 octets; none where the octets are no such Name.
#[tactic(auto, unfolding(crate::specs::Spki::common_name))]
pub fn common_name(octets: &[u8]) -> Option<&[u8]>
    ensures { option_copied result ≡ common_name octets.now }
{
    let sets = only_at(0x30, octets)?;
    let set = only_at(0x31, sets)?;
    let attribute = only_at(0x30, set)?;
    let (identifier, rest) = content_at(6, attribute)?;
    let text = only_at(12, rest)?;
    if identifier == COMMON_NAME.as_slice() && is_name_text(text) {
        Some(text)
    } else {
        None
    }
}

/// Whether the octets are a Name that the authority may have.
#[tactic(auto, unfolding(crate::specs::Spki::is_ca_name))]
pub fn is_ca_name(octets: &[u8]) -> bool
    ensures { result ≡ is_ca_name octets.now }
{
    match common_name(octets) {
        Some(_) => true,
        None => false,
    }
}
