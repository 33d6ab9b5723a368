//! The forms of a value.
ghost use Rattle.std.specs.Prelude.{◌≡◌, ◌<◌, ◌≤◌, length, count_by, option_copied, option_and_then, is_some, IfSome, IsSome, IsTrue};
ghost use Rattle.std.specs.List.{list_all};
ghost use Rattle.std.specs.Str.{is_utf8};
ghost use Rattle.toml.specs.Data.{as_table};
ghost use Rattle.deal_model.specs.Keys.{key_id};
ghost use Rattle.deal_model.specs.Rules.{IsListedKey};
ghost use Rattle.toml.specs.View.{view, items_view};
ghost use Rattle.registry.specs.Forms.{text_in, number_in, hex_in, kind_of, kind_in, of_kinds, kind_among, IsAmong, has_known_types, key_in, data_of, is_word, rights_sum, rights_of, rights_in, tables_of, tables_in};

use cmp_values::Short;
use deal_answers::{levels_of, ots_of, tree_of};
use deal_model::Kind;
use toml::Value;

/// The most octets in hex.
const HEX_MOST: usize = 64;

/// A text of at least and at most so many octets.
#[tactic(auto, using(crate::proofs::HexLemmas::text_is))]
pub fn text_in(value: &Value, least: usize, most: usize) -> Option<&str>
    ensures value { option_copied result ≡ text_in least most (view value.now) }
    ensures sized { IfSome result (λ text. (least ≤ length text.now) × (length text.now ≤ most)) }
    ensures text { IfSome result (λ text. IsTrue (is_utf8 text.now)) }
{
    let text = value.as_str()?;
    if least <= text.len() && text.len() <= most {
        Some(text)
    } else {
        None
    }
}

/// A number within these bounds, both included.
pub fn number_in(value: &Value, least: u32, most: u32) -> Option<u32>
    ensures value { result ≡ number_in least most (view value.now) }
    ensures bounds { IfSome result (λ number. (least ≤ number) × (number ≤ most)) }
{
    let number = u32::try_from(value.as_integer()?).ok()?;
    if least <= number && number <= most {
        Some(number)
    } else {
        None
    }
}

/// At least and at most so many octets, which are 64 at most, in hex digits of either case (RFC 4648, 8).
#[tactic(auto, using(crate::proofs::HexLemmas::few, crate::proofs::HexLemmas::many))]
pub fn hex_in(value: &Value, least: usize, most: usize) -> Option<Short>
    requires { most ≤ 64 }
    ensures value { result ≡ hex_in least most (view value.now) }
    ensures sized { IfSome result (λ octets. (least ≤ length octets) × (length octets ≤ most)) }
{
    let digits = value.as_str()?;
    let size = digits.len() / 2;
    if size < least || size > most {
        return None;
    }
    let mut octets = [0u8; HEX_MOST];
    match hex::decode_to_slice(digits, &mut octets[..size]) {
        Ok(()) => Short::of(&octets[..size]),
        Err(_) => None,
    }
}

/// The kinds of credentials that are in form.
#[derive(Clone, Copy, Debug, PartialEq, Eq)]
pub enum Kinds {
    /// Shared secrets and HSS/LMS keys.
    MacOrLms,
    /// Shared secrets alone.
    MacAlone,
}

/// The kind, where it is one of these.
fn of_kinds(kinds: Kinds, kind: Kind) -> Option<Kind>
    ensures value { result ≡ of_kinds kinds kind }
    ensures among { IfSome result (IsAmong kinds) }
{
    match (kinds, kind) {
        (Kinds::MacOrLms, kind) => Some(kind),
        (Kinds::MacAlone, Kind::Mac) => Some(Kind::Mac),
        (Kinds::MacAlone, Kind::Lms) => None,
    }
}

/// How a credential of one of these kinds protects a message: `mac` or `lms`.
pub fn kind_among(kinds: Kinds, value: &Value) -> Option<Kind>
    ensures value { result ≡ kind_among kinds (view value.now) }
    ensures among { IfSome result (IsAmong kinds) }
{
    of_kinds(kinds, kind_in(value)?)
}

/// How a credential protects a message: `mac` or `lms`.
pub fn kind_in(value: &Value) -> Option<Kind>
    ensures { result ≡ kind_in (view value.now) }
{
    match value.as_str()? {
        "mac" => Some(Kind::Mac),
        "lms" => Some(Kind::Lms),
        _ => None,
    }
}

/// Whether a key has 1 to 8 levels, and known types of its first tree and of that tree's one-time signatures.
fn has_known_types(key: &[u8]) -> bool
    requires { 12 ≤ length key.now }
    ensures value { result ≡ has_known_types key.now }
    ensures types { IsTrue result → length key.now ≡ 60 → IsListedKey (key_id key.now) key.now }
{
    let levels = levels_of(key);
    let tree = tree_of(key);
    let ots = ots_of(key);
    levels >= 1 && levels <= 8 && tree >= 5 && tree <= 9 && ots >= 1 && ots <= 4
}

/// An HSS/LMS key: 60 octets in hex digits, with 1 to 8 levels and known types (RFC 8554, 5.1, 4.1 and 6.1).
pub fn key_in(value: &Value) -> Option<Short>
    ensures value { result ≡ key_in (view value.now) }
    ensures listed { IfSome result (λ key. IsListedKey (key_id key) key) }
{
    let key = hex_in(value, 60, 60)?;
    if has_known_types(key.as_slice()) {
        Some(key)
    } else {
        None
    }
}

/// How many items of an array are this word.
fn times(word: &str, items: &[Value]) -> usize
    ensures { result ≡ count_by (λ v. is_word word.now (view v)) items.now }
{
    items
        .iter()
        .filter(|item| item.as_str() == Some(word))
        .count()
}

/// The sum of the rights, each named so often, among so many items.
#[tactic(auto, unfolding(crate::specs::Forms::rights_sum))]
fn rights_sum(enrol: usize, vouch: usize, wrap: usize, revoke: usize, items: usize) -> Option<u8>
    ensures value { result ≡ rights_sum enrol vouch wrap revoke items }
    ensures bound { IfSome result (λ rights. rights < 16) }
{
    if enrol > 1 || vouch > 1 || wrap > 1 || revoke > 1 {
        return None;
    }
    if enrol + vouch + wrap + revoke != items {
        return None;
    }
    Some((enrol + 2 * vouch + 4 * wrap + 8 * revoke) as u8)
}

/// The rights that the items of an array name.
fn rights_of(items: &[Value]) -> Option<u8>
    ensures value { result ≡ rights_of (data_of (items_view items.now)) }
    ensures bound { IfSome result (λ rights. rights < 16) }
{
    let enrol = times("enrol", items);
    let vouch = times("vouch", items);
    let wrap = times("wrap", items);
    let revoke = times("revoke", items);
    rights_sum(enrol, vouch, wrap, revoke, items.len())
}

/// The rights of a credential: an array of `enrol`, `vouch`, `wrap` and `revoke`, each at most once.
pub fn rights_in(value: &Value) -> Option<u8>
    ensures value { result ≡ rights_in (view value.now) }
    ensures bound { IfSome result (λ rights. rights < 16) }
{
    rights_of(value.as_array()?.as_slice())
}

/// Whether each item of an array is a table.
fn are_tables(items: &[Value]) -> bool
    ensures { result ≡ list_all (λ v. is_some (as_table (view v))) items.now }
{
    items.iter().all(|item| item.is_table())
}

/// The items of an array of at least and at most so many tables, and nothing else.
#[tactic(auto, using(crate::proofs::TableLemmas::no_tables, crate::proofs::TableLemmas::some_tables, crate::proofs::TableLemmas::sized_tables, crate::proofs::TableLemmas::few_tables, crate::proofs::TableLemmas::many_tables), unfolding(crate::specs::Forms::tables_in))]
pub fn tables_in(value: &Value, least: usize, most: usize) -> Option<&[Value]>
    ensures value { option_and_then (λ items. tables_of (data_of (items_view items.now))) result ≡ tables_in least most (view value.now) }
    ensures sized { IfSome result (λ items. (least ≤ length items.now) × (length items.now ≤ most)) }
    ensures tables { IfSome result (λ items. IsSome (tables_of (data_of (items_view items.now)))) }
{
    let items = value.as_array()?.as_slice();
    if !are_tables(items) || items.len() < least || most < items.len() {
        return None;
    }
    Some(items)
}
