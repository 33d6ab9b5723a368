//! Fields that several types have.
ghost use Rattle.std.specs.Prelude.{◌≡◌, ◌≢◌, ℕ, ◌+◌, ◌%◌, ◌^◌, ◌<◌, ◌≤◌, ◌++◌, ◌∷◌, List, length, OnOk, OnErr};
ghost use Rattle.der_base.specs.Element.{element};
ghost use Rattle.std.specs.Option.{option_copied};
ghost use Rattle.der_base.specs.Reading.{part_of};
ghost use Rattle.asn_fields.specs.Fields.{Gives};
ghost use Rattle.asn_types.specs.Algorithm.{any_at, oid_field_at};
ghost use Rattle.asn_types.specs.Key.{plain_bits_at};

use asn_fields::{BadForm, field};
use der_base::{Element, Writer, bits, oid, whole};
use std::alloc::AllocError;

/// The one element that the octets are, of any form, where there are octets.
#[tactic(auto, unfolding(crate::specs::Algorithm::any_at))]
pub fn any(bytes: &[u8]) -> Result<Option<&[u8]>, BadForm>
    ensures { Gives option_copied result (any_at bytes.now) }
{
    if bytes.is_empty() {
        return Ok(None);
    }
    let element = whole(bytes)?;
    Ok(Some(element.whole))
}

/// An object identifier at the front: its content, and the octets behind it.
#[tactic(auto, unfolding(crate::specs::Algorithm::oid_field_at))]
pub fn oid_field(bytes: &[u8]) -> Result<(&[u8], &[u8]), BadForm>
    ensures { Gives (λ r. (r.0.now, r.1.now)) result (oid_field_at bytes.now) }
{
    let (element, rest) = field(0x06, bytes)?;
    let identifier = oid(&element)?;
    Ok((identifier, rest))
}

/// The octets of a BIT STRING with no unused bits.
#[tactic(auto, unfolding(crate::specs::Key::plain_bits_at))]
pub fn plain_bits<'a>(e: &Element<'a>) -> Result<&'a [u8], BadForm>
    ensures { Gives (λ octets. octets.now) result (plain_bits_at (part_of e.now)) }
{
    let string = bits(e)?;
    if string.unused == 0 {
        Ok(string.octets)
    } else {
        Err(BadForm)
    }
}

/// Puts octets behind those of a writer, as a BIT STRING with no unused bits.
#[tactic(auto, using(crate::proofs::LengthLemmas::lengths))]
pub fn put_plain_bits(writer: &mut Writer, octets: &[u8]) -> Result<(), AllocError>
    requires { length octets.now + 1 < 2 ^ 32 }
    ensures { OnOk result (writer.new ≡ writer.old ++ element 0x03 (0 ∷ octets.now)) }
{
    let from = writer.len();
    writer.put_whole(&[0])?;
    writer.put_whole(octets)?;
    writer.wrap(0x03, from)
}
