//! The extensions that a request for a certificate asks for.
ghost use Rattle.std.specs.Prelude.{◌≡◌, false, find, is_some, None, option_map};
ghost use Rattle.std.specs.List.{list_all, list_any};
ghost use Rattle.std.specs.Option.{option_copied};
ghost use Rattle.der_base.specs.Reading.{part_of};
ghost use Rattle.der_base.specs.Row.{item_of, items_of, items_left};
ghost use Rattle.der_base.specs.Values.{is_integer};
ghost use Rattle.asn_fields.specs.Fields.{Gives};
ghost use Rattle.asn_fields.specs.Rows.{item_at, each_at, entries_at};
ghost use Rattle.asn_types.specs.Extension.{extension_of, extension_at};
ghost use Rattle.asn_types.specs.General.{is_general};
ghost use Rattle.asn_types.specs.Rows.{passes};
ghost use Rattle.asn_types.specs.Template.{tested_at};
ghost use Rattle.asn_parts.specs.Parts.{sole_with};
ghost use Rattle.intake.specs.Told.{any_in, first_in, twice_in, same_oid};
ghost use Rattle.intake.specs.Wishes.{is_key_usage, is_alt_name, is_constraints, is_usage_value, is_names_value, is_leaf_value, is_bad_extension, are_bad_extensions, extensions_in, is_dropped};

use asn_fields::{BadForm, sole};
use asn_parts::integer_inside;
use asn_types::{
    BASIC_CONSTRAINTS, Extension, KEY_USAGE, SUBJECT_ALT_NAME, read_extension, read_general,
};
use der_base::{DerFault, Element, Items, bits, whole};

/// Whether an extension is keyUsage.
fn is_key_usage(x: &Extension) -> bool
    ensures { result ≡ is_key_usage (extension_of x.now) }
{
    x.oid == KEY_USAGE
}

/// Whether an extension is subjectAltName.
fn is_alt_name(x: &Extension) -> bool
    ensures { result ≡ is_alt_name (extension_of x.now) }
{
    x.oid == SUBJECT_ALT_NAME
}

/// Whether an extension is basicConstraints.
fn is_constraints(x: &Extension) -> bool
    ensures { result ≡ is_constraints (extension_of x.now) }
{
    x.oid == BASIC_CONSTRAINTS
}

/// Whether a value is that of keyUsage: a BIT STRING.
fn is_usage_value(value: &[u8]) -> bool
    ensures { result ≡ is_usage_value value.now }
{
    match whole(value) {
        Ok(string) => bits(&string).is_ok(),
        Err(_) => false,
    }
}

/// Whether an element is a general name.
fn is_general(e: &Element) -> bool
    ensures { result ≡ is_general (part_of e.now) }
{
    read_general(e).is_ok()
}

/// Whether a content is a row of general names.
fn are_generals(content: &[u8]) -> bool
    ensures { result ≡ list_all (passes is_general) (items_of content.now) }
{
    for item in Items::new(content) {
        let Ok(name) = item else {
            return false;
        };
        if !is_general(&name) {
            return false;
        }
    }
    true
}

/// Whether a value is that of subjectAltName: a SEQUENCE of one or more general names.
fn is_names_value(value: &[u8]) -> bool
    ensures { result ≡ is_names_value value.now }
{
    match sole(0x30, value) {
        Ok(names) => !names.content.is_empty() && are_generals(names.content),
        Err(_) => false,
    }
}

/// Whether a content is one INTEGER.
fn is_integer_alone(content: &[u8]) -> bool
    ensures { result ≡ is_some (sole_with (tested_at is_integer) 0x02 content.now) }
{
    match sole(0x02, content) {
        Ok(number) => integer_inside(number.content).is_ok(),
        Err(_) => false,
    }
}

/// Whether a value is that of basicConstraints which ask for no authority.
fn is_leaf_value(value: &[u8]) -> bool
    ensures { result ≡ is_leaf_value value.now }
{
    match sole(0x30, value) {
        Ok(constraints) => {
            constraints.content.is_empty() || is_integer_alone(constraints.content)
        }
        Err(_) => false,
    }
}

/// Whether an extension is out of form, or asks for an authority.
fn is_bad(x: &Extension) -> bool
    ensures { result ≡ is_bad_extension (extension_of x.now) }
{
    (is_key_usage(x) && !is_usage_value(x.value))
        || (is_alt_name(x) && !is_names_value(x.value))
        || (is_constraints(x) && !is_leaf_value(x.value))
}

/// Whether an extension isn't copied, though it asks for something.
fn is_dropped(x: &Extension) -> bool
    ensures { result ≡ is_dropped (extension_of x.now) }
{
    !(is_key_usage(x) || is_alt_name(x) || is_constraints(x))
}

/// Reads an extension.
fn extension_item<'a>(item: Result<Element<'a>, DerFault>) -> Result<Extension<'a>, BadForm>
    ensures { Gives extension_of result (item_at extension_at 0x30 (item_of item.entry)) }
{
    let element = item?;
    read_extension(&element)
}

/// Whether one of the extensions in a row is out of form, or asks for an authority; not where one of them can't be read.
#[tactic(auto, unfolding(asn_fields::specs::Rows::entries_at))]
fn has_bad(content: &[u8]) -> bool
    ensures { result ≡ any_in is_bad_extension false (entries_at extension_at 0x30 content.now) }
{
    let mut found = false;
    for item in Items::new(content) {
        let Ok(extension) = extension_item(item) else {
            return false;
        };
        found = found || is_bad(&extension);
    }
    found
}

/// Whether one of the extensions in a row isn't copied, though it asks for something; not where one of them can't be read.
#[tactic(auto, unfolding(asn_fields::specs::Rows::entries_at))]
fn has_dropped(content: &[u8]) -> bool
    ensures { result ≡ any_in is_dropped false (entries_at extension_at 0x30 content.now) }
{
    let mut found = false;
    for item in Items::new(content) {
        let Ok(extension) = extension_item(item) else {
            return false;
        };
        found = found || is_dropped(&extension);
    }
    found
}

/// The first keyUsage in a row of extensions; none where one of them can't be read.
#[tactic(auto, unfolding(asn_fields::specs::Rows::entries_at))]
fn first_usage(content: &[u8]) -> Option<Extension<'_>>
    ensures { option_map extension_of result ≡ first_in is_key_usage None (entries_at extension_at 0x30 content.now) }
{
    let mut first = None;
    for item in Items::new(content) {
        let Ok(extension) = extension_item(item) else {
            return None;
        };
        if is_key_usage(&extension) {
            first = first.or(Some(extension));
        }
    }
    first
}

/// The first subjectAltName in a row of extensions; none where one of them can't be read.
#[tactic(auto, unfolding(asn_fields::specs::Rows::entries_at))]
fn first_alt_name(content: &[u8]) -> Option<Extension<'_>>
    ensures { option_map extension_of result ≡ first_in is_alt_name None (entries_at extension_at 0x30 content.now) }
{
    let mut first = None;
    for item in Items::new(content) {
        let Ok(extension) = extension_item(item) else {
            return None;
        };
        if is_alt_name(&extension) {
            first = first.or(Some(extension));
        }
    }
    first
}

/// Whether an extension with this identifier is among those that are left; not where one of them can't be read.
fn stands_in(oid: &[u8], left: Items) -> bool
    ensures { result ≡ any_in (same_oid oid.now) false (each_at extension_at 0x30 (items_left left.entry)) }
{
    let mut found = false;
    for item in left {
        let Ok(extension) = extension_item(item) else {
            return false;
        };
        found = found || oid == extension.oid;
    }
    found
}

/// Whether one extension stands twice in a row of them; not where one of them can't be read.
#[tactic(auto, unfolding(asn_fields::specs::Rows::entries_at))]
fn has_twice(content: &[u8]) -> bool
    ensures { result ≡ twice_in false (entries_at extension_at 0x30 content.now) }
{
    let mut left = Items::new(content);
    let mut found = false;
    while let Some(item) = left.next() {
        let Ok(extension) = extension_item(item) else {
            return false;
        };
        found = found || stands_in(extension.oid, left);
    }
    found
}

/// Whether an extension that is asked for stands twice, is out of form, or asks for an authority. Takes time by the square of how many
/// there are.
#[tactic(auto, using(crate::proofs::Found::any_read, crate::proofs::Found::twice_read))]
pub(crate) fn are_bad(exts: Option<&[u8]>) -> bool
    ensures { result ≡ are_bad_extensions (extensions_in (option_copied exts.entry)) }
{
    match exts {
        None => false,
        Some(content) => has_bad(content) || has_twice(content),
    }
}

/// Whether an extension that is asked for isn't copied, though it asks for something.
#[tactic(auto, using(crate::proofs::Found::any_read))]
pub(crate) fn are_dropped(exts: Option<&[u8]>) -> bool
    ensures { result ≡ list_any is_dropped (extensions_in (option_copied exts.entry)) }
{
    match exts {
        None => false,
        Some(content) => has_dropped(content),
    }
}

/// The first keyUsage that is asked for.
#[tactic(auto, using(crate::proofs::Found::first_read))]
pub(crate) fn usage(exts: Option<&[u8]>) -> Option<Extension<'_>>
    ensures { option_map extension_of result ≡ find is_key_usage (extensions_in (option_copied exts.entry)) }
{
    match exts {
        None => None,
        Some(content) => first_usage(content),
    }
}

/// The first subjectAltName that is asked for.
#[tactic(auto, using(crate::proofs::Found::first_read))]
pub(crate) fn alt_name(exts: Option<&[u8]>) -> Option<Extension<'_>>
    ensures { option_map extension_of result ≡ find is_alt_name (extensions_in (option_copied exts.entry)) }
{
    match exts {
        None => None,
        Some(content) => first_alt_name(content),
    }
}
