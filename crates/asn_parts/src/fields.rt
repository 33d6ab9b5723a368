//! Fields that must be there.
ghost use Rattle.std.specs.Prelude.{◌≡◌, ℕ, List};
ghost use Rattle.der_base.specs.Reading.{Part};
ghost use Rattle.der_base.specs.Values.{is_integer};
ghost use Rattle.asn_fields.specs.Fields.{Gives};
ghost use Rattle.asn_types.specs.Algorithm.{Algorithm, algorithm_of, algorithm_at};
ghost use Rattle.asn_types.specs.Template.{tested_at, name_of};
ghost use Rattle.asn_parts.specs.Parts.{required_with, name_front_at, general_front_at, general_part};

use asn_fields::{BadForm, field};
use asn_types::{AlgorithmId, GeneralName, Name, read_alg_content, read_general, read_name};
use der_base::{Element, integer, read_element};

/// The content of an INTEGER, which the octets are.
#[tactic(auto, unfolding(asn_types::specs::Template::tested_at, der_base::specs::Values::integer_at))]
pub fn integer_inside(content: &[u8]) -> Result<&[u8], BadForm>
    ensures { Gives (λ octets. octets.now) result (tested_at is_integer content.now) }
{
    let octets = integer(&Element {
        tag: 0x02,
        content,
        whole: content,
    })?;
    Ok(octets)
}

/// Reads an INTEGER from the front: its content, and the octets behind it. `BadForm` where none stands there.
pub fn integer_field(bytes: &[u8]) -> Result<(&[u8], &[u8]), BadForm>
    ensures { Gives {Y = List ℕ × List ℕ} (λ r. (r.0.now, r.1.now)) result (required_with (tested_at is_integer) 0x02 bytes.now) }
{
    let (element, rest) = field(0x02, bytes)?;
    let octets = integer_inside(element.content)?;
    Ok((octets, rest))
}

/// Reads an AlgorithmIdentifier from the front, and the octets behind it (RFC 5280, 4.1.1.2). `BadForm` where none stands
/// there.
pub fn algorithm_field(bytes: &[u8]) -> Result<(AlgorithmId<'_>, &[u8]), BadForm>
    ensures { Gives {Y = Algorithm × List ℕ} (λ r. (algorithm_of r.0, r.1.now)) result (required_with algorithm_at 0x30 bytes.now) }
{
    let (element, rest) = field(0x30, bytes)?;
    let algorithm = read_alg_content(element.content)?;
    Ok((algorithm, rest))
}

/// Reads a name from the front, and the octets behind it (RFC 5280, 4.1.2.4). `BadForm` where none stands there.
#[tactic(auto, unfolding(crate::specs::Parts::name_front_at))]
pub fn name_field(bytes: &[u8]) -> Result<(Name<'_>, &[u8]), BadForm>
    ensures { Gives {Y = List ℕ × List ℕ} (λ r. (name_of r.0, r.1.now)) result (name_front_at bytes.now) }
{
    let (element, rest) = field(0x30, bytes)?;
    let name = read_name(&element)?;
    Ok((name, rest))
}

/// Reads a general name from the front, and the octets behind it (RFC 5280, 4.2.1.6). `BadForm` where none stands there.
#[tactic(auto, unfolding(crate::specs::Parts::general_front_at))]
pub fn general_field(bytes: &[u8]) -> Result<(GeneralName<'_>, &[u8]), BadForm>
    ensures { Gives {Y = Part × List ℕ} (λ r. (general_part r.0, r.1.now)) result (general_front_at bytes.now) }
{
    let (element, rest) = read_element(bytes)?;
    let general = read_general(&element)?;
    Ok((general, rest))
}
