ghost use Rattle.std.specs.Prelude.{◌≡◌, ℕ, ◌+◌, ◌≤◌, ◌<◌, ◌↔◌, ◌∷◌, [], length, if◌then◌else◌, IsTrue, IfOk};
ghost use Rattle.std.specs.Str.{is_utf8};
ghost use Rattle.der_base.specs.Reading.{part_of, Reads};
ghost use Rattle.der_base.specs.Values.{IsOid, is_boolean, is_integer, is_bits, is_octets, is_null, is_oid, bit_string_of, ReadsAs, boolean_at, integer_at, bits_at, octets_at, null_at, oid_at, utf8_at};

use crate::bit_string::Bits;
use crate::element::Element;
use crate::fault::DerFault;

/// Reads a BOOLEAN. `BadTag` where the tag is another, else `BadLength` where the content is not of the form (X.690, 8.2 and 11.1);
/// so in each of these readers.
#[tactic(auto, unfolding(crate::specs::Values::boolean_at))]
pub fn boolean(e: &Element) -> Result<bool, DerFault>
    ensures form { ReadsAs 1 is_boolean (λ content b. content ≡ (if b then 255 else 0) ∷ []) e.now result }
    ensures exact { Reads (λ b. b) result (boolean_at (part_of e.now)) }
{
    if e.tag != 0x01 {
        return Err(DerFault::BadTag);
    }
    match e.content {
        [0x00] => Ok(false),
        [0xff] => Ok(true),
        _ => Err(DerFault::BadLength),
    }
}

/// Reads an INTEGER of at most 20 octets: its content (X.690, 8.3).
#[tactic(auto, unfolding(crate::specs::Values::integer_at))]
pub fn integer<'a>(e: &Element<'a>) -> Result<&'a [u8], DerFault>
    ensures form { ReadsAs 2 is_integer (λ content octets. octets.now ≡ content) e.now result }
    ensures exact { Reads (λ octets. octets.now) result (integer_at (part_of e.now)) }
    ensures lengths { IfOk result (λ octets. (0 < length octets.now) × (length octets.now ≤ 20)) }
{
    if e.tag != 0x02 {
        return Err(DerFault::BadTag);
    }
    match e.content {
        [] => Err(DerFault::BadLength),
        [_] => Ok(e.content),
        [a, b, more @ ..] => {
            if more.len() > 18 || (*a == 0 && *b < 128) || (*a == 255 && *b >= 128) {
                return Err(DerFault::BadLength);
            }
            Ok(e.content)
        }
    }
}

/// Reads a BIT STRING (X.690, 8.6 and 11.2).
#[tactic(auto, unfolding(crate::specs::Values::bits_at))]
pub fn bits<'a>(e: &Element<'a>) -> Result<Bits<'a>, DerFault>
    ensures form { ReadsAs 3 is_bits (λ content bits. content ≡ bits.unused ∷ bits.octets.now) e.now result }
    ensures exact { Reads bit_string_of result (bits_at (part_of e.now)) }
{
    if e.tag != 0x03 {
        return Err(DerFault::BadTag);
    }
    match e.content {
        [] => Err(DerFault::BadLength),
        [0] => Ok(Bits {
            unused: 0,
            octets: &[],
        }),
        [_] => Err(DerFault::BadLength),
        [unused, octets @ ..] => {
            if *unused > 7
                || u32::from(octets[octets.len() - 1]) % 2u32.pow(u32::from(*unused)) != 0
            {
                return Err(DerFault::BadLength);
            }
            Ok(Bits {
                unused: *unused,
                octets,
            })
        }
    }
}

/// Reads an OCTET STRING (X.690, 8.7).
#[tactic(auto, unfolding(crate::specs::Values::octets_at))]
pub fn octets<'a>(e: &Element<'a>) -> Result<&'a [u8], DerFault>
    ensures form { ReadsAs 4 is_octets (λ content octets. octets.now ≡ content) e.now result }
    ensures exact { Reads (λ octets. octets.now) result (octets_at (part_of e.now)) }
{
    if e.tag == 0x04 {
        Ok(e.content)
    } else {
        Err(DerFault::BadTag)
    }
}

/// Reads a NULL (X.690, 8.8).
#[tactic(auto, unfolding(crate::specs::Values::null_at))]
pub fn null(e: &Element) -> Result<(), DerFault>
    ensures form { ReadsAs 5 is_null (λ content u. content ≡ []) e.now result }
    ensures exact { Reads (λ u. u) result (null_at (part_of e.now)) }
{
    if e.tag != 0x05 {
        return Err(DerFault::BadTag);
    }
    if e.content.is_empty() {
        Ok(())
    } else {
        Err(DerFault::BadLength)
    }
}

/// Whether a content is that of an object identifier.
#[tactic(auto, unfolding(crate::specs::Values::is_oid))]
fn is_oid(content: &[u8]) -> bool
    ensures parts { IsTrue result ↔ IsOid content.now }
    ensures test { result ≡ is_oid content.now }
{
    let mut begins = true;
    for b in content {
        if begins && *b == 128 {
            return false;
        }
        begins = *b < 128;
    }
    begins && !content.is_empty()
}

/// Reads an OBJECT IDENTIFIER: its content (X.690, 8.19).
#[tactic(auto, unfolding(crate::specs::Values::oid_at))]
pub fn oid<'a>(e: &Element<'a>) -> Result<&'a [u8], DerFault>
    ensures form { ReadsAs 6 is_oid (λ content octets. IsOid content × (octets.now ≡ content)) e.now result }
    ensures exact { Reads (λ octets. octets.now) result (oid_at (part_of e.now)) }
{
    if e.tag != 0x06 {
        return Err(DerFault::BadTag);
    }
    if is_oid(e.content) {
        Ok(e.content)
    } else {
        Err(DerFault::BadLength)
    }
}

/// Whether a content is UTF-8.
fn is_text(content: &[u8]) -> bool
    ensures { result ≡ is_utf8 content.now }
{
    match str::from_utf8(content) {
        Ok(_) => true,
        Err(_) => false,
    }
}

/// Reads a UTF8String: its content, which is UTF-8 (X.690, 8.23).
#[tactic(auto, unfolding(crate::specs::Values::utf8_at))]
pub fn utf8<'a>(e: &Element<'a>) -> Result<&'a [u8], DerFault>
    ensures form { ReadsAs 12 is_utf8 (λ content octets. octets.now ≡ content) e.now result }
    ensures exact { Reads (λ octets. octets.now) result (utf8_at (part_of e.now)) }
{
    if e.tag != 0x0c {
        return Err(DerFault::BadTag);
    }
    if is_text(e.content) {
        Ok(e.content)
    } else {
        Err(DerFault::BadLength)
    }
}
