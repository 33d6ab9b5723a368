//! Attributes of a PKCS #10 request.
ghost use Rattle.std.specs.Prelude.{◌≡◌};
ghost use Rattle.std.specs.Str.{bytes_eq};
ghost use Rattle.der_base.specs.Row.{item_of};
ghost use Rattle.asn_fields.specs.Fields.{Gives};
ghost use Rattle.asn_fields.specs.Rows.{item_at};
ghost use Rattle.asn_types.specs.Extension.{is_extensions};
ghost use Rattle.asn_types.specs.Template.{tested_at, extensions_of};
ghost use Rattle.asn_parts.specs.Parts.{sole_with};

use crate::requests::elements_inside;
use asn_fields::{BadForm, sole};
use asn_types::{EXTENSION_REQUEST, Extensions, oid_field, read_extensions};
use der_base::{DerFault, Element, Items};

/// An attribute.
#[derive(Clone, Copy, Debug)]
pub(crate) enum Attribute<'a> {
    ExtensionRequest(Extensions<'a>),
    Other(&'a [u8], &'a [u8]),
}

/// Attributes: their octets, and the extensions that they ask for.
#[derive(Clone, Copy, Debug)]
pub(crate) struct Attributes<'a> {
    pub octets: &'a [u8],
    pub exts: Option<Extensions<'a>>,
}

ghost use Rattle.req_forms.specs.Attributes.{attribute_of, attributes_of, attribute_at, attributes_at, extension_request_id};

/// A row of extensions.
#[tactic(auto, unfolding(asn_types::specs::Template::tested_at))]
fn extensions_inside(octets: &[u8]) -> Result<Extensions<'_>, BadForm>
    ensures { Gives extensions_of result (tested_at is_extensions octets.now) }
{
    read_extensions(octets)
}

/// The one Extensions that the octets are.
fn extensions_alone(bytes: &[u8]) -> Result<Extensions<'_>, BadForm>
    ensures { Gives extensions_of result (sole_with (tested_at is_extensions) 0x30 bytes.now) }
{
    let element = sole(0x30, bytes)?;
    extensions_inside(element.content)
}

/// Whether an identifier is that of an extensionRequest.
#[tactic(auto, unfolding(crate::specs::Attributes::extension_request_id))]
fn is_request(oid: &[u8]) -> bool
    ensures { result ≡ bytes_eq oid.now extension_request_id }
{
    oid == EXTENSION_REQUEST
}

/// Reads what stands in the SEQUENCE of an attribute.
#[tactic(auto, unfolding(crate::specs::Attributes::attribute_at))]
fn read_attribute(bytes: &[u8]) -> Result<Attribute<'_>, BadForm>
    ensures { Gives attribute_of result (attribute_at bytes.now) }
{
    let (oid, rest) = oid_field(bytes)?;
    if is_request(oid) {
        let element = sole(0x31, rest)?;
        let extensions = extensions_alone(element.content)?;
        return Ok(Attribute::ExtensionRequest(extensions));
    }
    let element = sole(0x31, rest)?;
    let values = elements_inside(element.content)?;
    Ok(Attribute::Other(oid, values))
}

/// Reads an attribute.
fn attribute_item<'a>(item: Result<Element<'a>, DerFault>) -> Result<Attribute<'a>, BadForm>
    ensures { Gives attribute_of result (item_at attribute_at 0x30 (item_of item.entry)) }
{
    let element = item?;
    if element.tag == 0x30 {
        read_attribute(element.content)
    } else {
        Err(BadForm)
    }
}

/// Reads what stands in the tag of attributes (RFC 2986, 4.1). Each of them is read, and a second extensionRequest is refused.
#[tactic(auto, unfolding(crate::specs::Attributes::attributes_at, asn_fields::specs::Rows::entries_at))]
pub(crate) fn attributes_inside(octets: &[u8]) -> Result<Attributes<'_>, BadForm>
    ensures { Gives attributes_of result (attributes_at octets.now) }
{
    let mut exts = None;
    for item in Items::new(octets) {
        let attribute = attribute_item(item)?;
        if let Attribute::ExtensionRequest(found) = attribute {
            if exts.is_some() {
                return Err(BadForm);
            }
            exts = Some(found);
        }
    }
    Ok(Attributes { octets, exts })
}
