//! Certificate templates.
ghost use Rattle.std.specs.Prelude.{◌≡◌, ◌==◌, if◌then◌else◌, option_map, IfOk, IsTrue, Some};
ghost use Rattle.std.specs.Option.{option_copied};
ghost use Rattle.der_base.specs.Values.{is_integer, is_bits};
ghost use Rattle.asn_fields.specs.Fields.{Gives, optional_with};
ghost use Rattle.asn_types.specs.Algorithm.{algorithm_of, algorithm_at};
ghost use Rattle.asn_types.specs.Key.{key_of, key_at};
ghost use Rattle.asn_types.specs.Extension.{is_extensions};
ghost use Rattle.asn_types.specs.Template.{TemplateForm, FitsTemplate, template_content, tested_at, anything_at, name_at, template_at, bits_content, name_of, extensions_of};

use crate::algorithm::{AlgorithmId, read_alg_content};
use crate::extension::{Extensions, extensions_inside};
use crate::name::{Name, is_name};
use crate::spki::{Spki, key_inside};
use asn_fields::{BadForm, optional, sole};
use der_base::{Bits, Element, bits, integer};

/// A certificate template: what a requester asks for. Where a field stands there: the content of its element, of a name the
/// whole element, and of a unique identifier its octets and the count of unused bits apart.
#[derive(Clone, Copy, Debug, PartialEq, Eq)]
pub struct Template<'a> {
    pub version: Option<&'a [u8]>,
    pub serial: Option<&'a [u8]>,
    pub alg: Option<AlgorithmId<'a>>,
    pub issuer: Option<Name<'a>>,
    pub validity: Option<&'a [u8]>,
    pub subject: Option<Name<'a>>,
    pub key: Option<Spki<'a>>,
    pub issuer_uid: Option<Bits<'a>>,
    pub subject_uid: Option<Bits<'a>>,
    pub exts: Option<Extensions<'a>>,
}

ghost use Rattle.asn_types.specs.Template.{template_of};

/// A field with this tag where one stands there, read inside by a reader, and the octets behind it.
macro_rules! field_inside {
    ($tag:expr, $bytes:expr, $read:path) => {{
        let (element, rest) = optional($tag, $bytes)?;
        match element {
            None => Ok((None, rest)),
            Some(element) => {
                let value = $read(element.content)?;
                Ok((Some(value), rest))
            }
        }
    }};
}

/// The content of an INTEGER.
#[tactic(auto, unfolding(crate::specs::Template::tested_at, der_base::specs::Values::integer_at))]
fn integer_inside(content: &[u8]) -> Result<&[u8], BadForm>
    ensures { Gives (λ octets. octets.now) result (tested_at is_integer content.now) }
{
    let octets = integer(&Element {
        tag: 0x02,
        content,
        whole: content,
    })?;
    Ok(octets)
}

fn integer_field(tag: u8, bytes: &[u8]) -> Result<(Option<&[u8]>, &[u8]), BadForm>
    ensures { Gives (λ r. (option_copied r.0, r.1.now)) result (optional_with (tested_at is_integer) tag bytes.now) }
{
    field_inside!(tag, bytes, integer_inside)
}

/// A BIT STRING, by its content.
#[tactic(auto, unfolding(crate::specs::Template::tested_at, der_base::specs::Values::bits_at))]
fn bits_inside(content: &[u8]) -> Result<Bits<'_>, BadForm>
    ensures { Gives bits_content result (tested_at is_bits content.now) }
{
    let string = bits(&Element {
        tag: 0x03,
        content,
        whole: content,
    })?;
    Ok(string)
}

fn bits_field(tag: u8, bytes: &[u8]) -> Result<(Option<Bits<'_>>, &[u8]), BadForm>
    ensures { Gives (λ r. (option_map bits_content r.0, r.1.now)) result (optional_with (tested_at is_bits) tag bytes.now) }
{
    field_inside!(tag, bytes, bits_inside)
}

/// Any content.
#[tactic(auto, unfolding(crate::specs::Template::anything_at))]
fn anything_inside(content: &[u8]) -> Result<&[u8], BadForm>
    ensures { Gives (λ octets. octets.now) result (anything_at content.now) }
{
    Ok(content)
}

fn anything_field(tag: u8, bytes: &[u8]) -> Result<(Option<&[u8]>, &[u8]), BadForm>
    ensures { Gives (λ r. (option_copied r.0, r.1.now)) result (optional_with anything_at tag bytes.now) }
{
    field_inside!(tag, bytes, anything_inside)
}

/// The one name that the content is.
#[tactic(auto, unfolding(crate::specs::Template::name_at))]
fn name_inside(content: &[u8]) -> Result<Name<'_>, BadForm>
    ensures { Gives name_of result (name_at content.now) }
{
    let element = sole(0x30, content)?;
    if is_name(&element) {
        Ok(Name {
            whole: element.whole,
        })
    } else {
        Err(BadForm)
    }
}

fn name_field(tag: u8, bytes: &[u8]) -> Result<(Option<Name<'_>>, &[u8]), BadForm>
    ensures { Gives (λ r. (option_map name_of r.0, r.1.now)) result (optional_with name_at tag bytes.now) }
{
    field_inside!(tag, bytes, name_inside)
}

fn algorithm_field(tag: u8, bytes: &[u8]) -> Result<(Option<AlgorithmId<'_>>, &[u8]), BadForm>
    ensures { Gives (λ r. (option_map algorithm_of r.0, r.1.now)) result (optional_with algorithm_at tag bytes.now) }
{
    field_inside!(tag, bytes, read_alg_content)
}

fn key_field(tag: u8, bytes: &[u8]) -> Result<(Option<Spki<'_>>, &[u8]), BadForm>
    ensures { Gives (λ r. (option_map key_of r.0, r.1.now)) result (optional_with key_at tag bytes.now) }
{
    field_inside!(tag, bytes, key_inside)
}

/// A row of extensions.
#[tactic(auto, unfolding(crate::specs::Template::tested_at))]
fn row_inside(content: &[u8]) -> Result<Extensions<'_>, BadForm>
    ensures { Gives extensions_of result (tested_at is_extensions content.now) }
{
    extensions_inside(content)
}

fn extensions_field(tag: u8, bytes: &[u8]) -> Result<(Option<Extensions<'_>>, &[u8]), BadForm>
    ensures { Gives (λ r. (option_map extensions_of r.0, r.1.now)) result (optional_with (tested_at is_extensions) tag bytes.now) }
{
    field_inside!(tag, bytes, row_inside)
}

/// Reads what stands in the SEQUENCE of a template.
#[tactic(auto, unfolding(crate::specs::Template::template_at))]
fn template_inside(content: &[u8]) -> Result<Template<'_>, BadForm>
    ensures { Gives template_of result (template_at content.now) }
{
    let (version, rest) = integer_field(0x80, content)?;
    let (serial, rest) = integer_field(0x81, rest)?;
    let (alg, rest) = algorithm_field(0xa2, rest)?;
    let (issuer, rest) = name_field(0xa3, rest)?;
    let (validity, rest) = anything_field(0xa4, rest)?;
    let (subject, rest) = name_field(0xa5, rest)?;
    let (key, rest) = key_field(0xa6, rest)?;
    let (issuer_uid, rest) = bits_field(0x87, rest)?;
    let (subject_uid, rest) = bits_field(0x88, rest)?;
    let (exts, rest) = extensions_field(0xa9, rest)?;
    if !rest.is_empty() {
        return Err(BadForm);
    }
    Ok(Template {
        version,
        serial,
        alg,
        issuer,
        validity,
        subject,
        key,
        issuer_uid,
        subject_uid,
        exts,
    })
}

/// Reads what stands in the SEQUENCE of a CertTemplate (RFC 4211, 5): optional fields in their order, nothing over. `BadForm`
/// where the octets are no such content.
pub fn read_template(content: &[u8]) -> Result<Template<'_>, BadForm>
    // What is read is spelled so.
    ensures found { IfOk result (λ t. FitsTemplate (template_of t) × (content.now ≡ template_content (template_of t))) }
    // What is spelled so is read.
    ensures only { (t : TemplateForm) → FitsTemplate t → content.now ≡ template_content t → Gives template_of result (Some t) }
    ensures exact { Gives template_of result (template_at content.now) }
{
    template_inside(content)
}
