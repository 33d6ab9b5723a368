//! The credentials that an operator lists.
ghost use Rattle.std.specs.Prelude.{◌≡◌, ◌≢◌, ◌<◌, ◌≤◌, Ok, Err, false, [], option_map, option_and_then, map, ok_or, length, codes, IfOk, IfErr, IfSome, IsSome, IsTrue};
ghost use Rattle.std.specs.List.{list_any, AllByRecursion};
ghost use Rattle.std.specs.Str.{is_utf8};
ghost use Rattle.deal_model.specs.Keys.{key_id};
ghost use Rattle.deal_model.specs.Rules.{IsListedKey, IsNamed};
ghost use Rattle.toml.specs.Data.{get_member};
ghost use Rattle.toml.specs.View.{view, items_view, table_view};
ghost use Rattle.registry.specs.Forms.{IsAmong, text_in, hex_in, key_in, rights_in, hold_in, data_of, tables_of, tables_in};
ghost use Rattle.registry.specs.Files.{Gives};
ghost use Rattle.registry.specs.Credentials.{value_of, needed, kind_told, keys_for, known, material_of, credential_of, next_of, behind, listed, credentials_of, credentials_in, macs_in, AreFit, AreListable};
ghost use Rattle.deal_model.specs.Views.{same_kind, is_entry};

use crate::fault::{CredCause, RegFault};
use crate::file::{has_only, read_table, value_at};
use crate::forms::{Kinds, hex_in, key_in, kind_among, rights_in, tables_in, text_in};
use cmp_values::Short;
use deal_answers::key_id;
use deal_model::{Credential, CredentialList, HOLD, Kind};
use std::alloc::Global;
use toml::{Table, Value};

/// What stands at the key of a cause.
fn value_of(key: CredCause, table: &Table) -> Option<&Value>
    ensures { option_map (λ v. view v.now) result ≡ value_of key (table_view table.now) }
{
    value_at(table, key.word())
}

/// The kind that a table tells, of these.
fn kind_told(kinds: Kinds, table: &Table) -> Option<Kind>
    ensures value { result ≡ kind_told kinds (table_view table.now) }
    ensures among { IfSome result (IsAmong kinds) }
{
    kind_among(kinds, value_of(CredCause::Kind, table)?)
}

/// The keys of a table of this kind; those of both kinds where it tells none.
fn keys_for(kind: Option<Kind>) -> &'static [&'static str]
    ensures { map (λ word. word.now) result.now ≡ keys_for kind }
{
    match kind {
        Some(Kind::Mac) => &["kind", "reference", "secret", "rights", "hold"],
        Some(Kind::Lms) => &["kind", "key", "rights", "hold"],
        None => &["kind", "reference", "secret", "key", "rights", "hold"],
    }
}

/// Whether a table has only keys of its kind.
fn known(kinds: Kinds, table: &Table) -> Result<(), CredCause>
    ensures { result ≡ known kinds (table_view table.now) }
{
    if has_only(keys_for(kind_told(kinds, table)), table) {
        Ok(())
    } else {
        Err(CredCause::Unknown)
    }
}

/// The reference of a shared secret.
fn reference_of(table: &Table) -> Result<Short, CredCause>
    ensures value { result ≡ needed CredCause.Reference (text_in 1 64) (table_view table.now) }
    ensures form { IfOk result (λ kid. (1 ≤ length kid) × (length kid ≤ 64) × IsTrue (is_utf8 kid)) }
{
    let Some(value) = value_of(CredCause::Reference, table) else {
        return Err(CredCause::Reference);
    };
    let Some(text) = text_in(value, 1, 64) else {
        return Err(CredCause::Reference);
    };
    Short::of(text.as_bytes()).ok_or(CredCause::Reference)
}

/// A shared secret.
fn secret_of(table: &Table) -> Result<Short, CredCause>
    ensures value { result ≡ needed CredCause.Secret (hex_in 8 64) (table_view table.now) }
    ensures form { IfOk result (λ secret. (8 ≤ length secret) × (length secret ≤ 64)) }
{
    let Some(value) = value_of(CredCause::Secret, table) else {
        return Err(CredCause::Secret);
    };
    hex_in(value, 8, 64).ok_or(CredCause::Secret)
}

/// An HSS/LMS key.
fn key_of(table: &Table) -> Result<Short, CredCause>
    ensures value { result ≡ needed CredCause.Key key_in (table_view table.now) }
    ensures form { IfOk result (λ key. IsListedKey (key_id key) key) }
{
    let Some(value) = value_of(CredCause::Key, table) else {
        return Err(CredCause::Key);
    };
    key_in(value).ok_or(CredCause::Key)
}

/// The identifier, and the secret or key.
fn material_of(kind: Kind, table: &Table) -> Result<(Short, Short), CredCause>
    ensures value { result ≡ material_of kind (table_view table.now) }
    ensures form { IfOk result (λ material. IsNamed kind material.0 material.1) }
{
    match kind {
        Kind::Mac => {
            let reference = reference_of(table)?;
            let secret = secret_of(table)?;
            Ok((reference, secret))
        }
        Kind::Lms => {
            let key = key_of(table)?;
            let id = key_id(key.as_slice());
            let Some(kid) = Short::of(&id) else {
                return Err(CredCause::Key);
            };
            Ok((kid, key))
        }
    }
}

/// The rights of a credential.
fn rights_of(table: &Table) -> Result<u8, CredCause>
    ensures value { result ≡ needed CredCause.Rights rights_in (table_view table.now) }
    ensures bound { IfOk result (λ rights. rights < 16) }
{
    let Some(value) = value_of(CredCause::Rights, table) else {
        return Err(CredCause::Rights);
    };
    rights_in(value).ok_or(CredCause::Rights)
}

/// Whether the requests of a credential wait for an order.
fn hold_of(table: &Table) -> Result<bool, CredCause>
    ensures { result ≡ ok_or (hold_in (value_of CredCause.Hold (table_view table.now))) CredCause.Hold }
{
    match value_of(CredCause::Hold, table) {
        None => Ok(false),
        Some(value) => value.as_bool().ok_or(CredCause::Hold),
    }
}

/// The credential of a table, of one of these kinds.
#[tactic(auto, unfolding(crate::specs::Credentials::credential_of))]
fn credential_of(kinds: Kinds, table: &Table) -> Result<Credential, CredCause>
    ensures value { result ≡ credential_of kinds (table_view table.now) }
    ensures form { IfOk result (λ c. IsNamed c.kind c.kid c.material) }
    ensures bound { IfOk result (λ c. c.rights < 32) }
    ensures among { IfOk result (λ c. IsAmong kinds c.kind) }
{
    known(kinds, table)?;
    let Some(kind) = kind_told(kinds, table) else {
        return Err(CredCause::Kind);
    };
    let (kid, material) = material_of(kind, table)?;
    let rights = rights_of(table)?;
    let hold = hold_of(table)?;
    Ok(Credential {
        kind,
        kid,
        material,
        rights: if hold { rights + HOLD } else { rights },
    })
}

fn same_kind(a: Kind, b: Kind) -> bool
    ensures { result ≡ same_kind a b }
{
    match (a, b) {
        (Kind::Mac, Kind::Mac) => true,
        (Kind::Lms, Kind::Lms) => true,
        (Kind::Mac, Kind::Lms) => false,
        (Kind::Lms, Kind::Mac) => false,
    }
}

/// Whether a credential stands among others, by its kind and identifier.
fn stands(before: &[Credential], c: &Credential) -> bool
    ensures { result ≡ list_any (is_entry c.now.kind c.now.kid) before.now }
{
    before.iter().any(|other| same_kind(other.kind, c.kind)
        && other.kid.as_slice() == c.kid.as_slice())
}

/// The credential of a table that stands behind these.
fn next_credential(
    kinds: Kinds,
    before: &[Credential],
    table: &Table,
) -> Result<Credential, CredCause>
    ensures value { result ≡ next_of kinds before.now (table_view table.now) }
    ensures form { IfOk result (λ c. IsNamed c.kind c.kid c.material) }
    ensures bound { IfOk result (λ c. c.rights < 32) }
    ensures among { IfOk result (λ c. IsAmong kinds c.kind) }
    ensures new { IfOk result (λ c. list_any (is_entry c.kind c.kid) before.now ≡ false) }
{
    let credential = credential_of(kinds, table)?;
    if stands(before, &credential) {
        Err(CredCause::Duplicate)
    } else {
        Ok(credential)
    }
}

/// The credentials of the tables that the items are.
fn list_of(alloc: Global, kinds: Kinds, items: &[Value]) -> Result<Vec<Credential>, RegFault>
    requires { length items.now ≤ 256 }
    ensures value { IfSome (tables_of (data_of (items_view items.now))) (λ tables. Gives (λ list. list.items) result (behind kinds [] tables)) }
    ensures sized { IfOk result (λ list. length list.items ≡ length items.now) }
    ensures fit { IfOk result (λ list. AreFit list.items) }
    ensures among { IfOk result (λ list. AllByRecursion (λ c. IsAmong kinds c.kind) list.items) }
{
    let mut list = Vec::new(alloc);
    for item in items {
        let Some(table) = item.as_table() else {
            return Err(RegFault::BadCount);
        };
        match next_credential(kinds, list.as_slice(), table) {
            Ok(credential) => list.push(credential)?,
            Err(cause) => {
                let index = list.len() as u32;
                return Err(RegFault::BadCredential { index, cause });
            }
        }
    }
    Ok(list)
}

/// The array `credential`, where no other key stands beside it.
#[tactic(auto, unfolding(crate::specs::Credentials::listed))]
fn listed(table: &Table) -> Option<&[Value]>
    ensures value { option_and_then (λ items. tables_of (data_of (items_view items.now))) result ≡ listed (table_view table.now) }
    ensures sized { IfSome result (λ items. (1 ≤ length items.now) × (length items.now ≤ 256)) }
    ensures tables { IfSome result (λ items. IsSome (tables_of (data_of (items_view items.now)))) }
{
    if has_only(&["credential"], table) {
        tables_in(value_at(table, "credential")?, 1, 256)
    } else {
        None
    }
}

/// The credentials of a table.
fn credentials_of(alloc: Global, table: &Table) -> Result<Vec<Credential>, RegFault>
    ensures value { Gives (λ list. list.items) result (credentials_of (table_view table.now)) }
    ensures listable { IfOk result (λ list. AreListable list.items) }
{
    match listed(table) {
        Some(items) => list_of(alloc, Kinds::MacOrLms, items),
        None => Err(RegFault::BadCount),
    }
}

/// The array `credential`, whatever other keys stand beside it.
fn array_in(table: &Table) -> Option<&[Value]>
    ensures value { option_and_then (λ items. tables_of (data_of (items_view items.now))) result ≡ option_and_then (tables_in 1 256) (get_member (codes "credential") (table_view table.now)) }
    ensures sized { IfSome result (λ items. (1 ≤ length items.now) × (length items.now ≤ 256)) }
    ensures tables { IfSome result (λ items. IsSome (tables_of (data_of (items_view items.now)))) }
{
    tables_in(value_at(table, "credential")?, 1, 256)
}

/// The credentials of an array of tables, of kind mac alone.
fn macs_of(alloc: Global, table: &Table) -> Result<Vec<Credential>, RegFault>
    ensures value { Gives (λ list. list.items) result (macs_in (table_view table.now)) }
    ensures listable { IfOk result (λ list. AreListable list.items) }
    ensures among { IfOk result (λ list. AllByRecursion (λ c. IsAmong Kinds.MacAlone c.kind) list.items) }
{
    match array_in(table) {
        Some(items) => list_of(alloc, Kinds::MacAlone, items),
        None => Err(RegFault::BadCount),
    }
}

/// The credentials in the array `credential` of a table, 1 to 256 tables as `read_credentials` takes them, but of kind `mac` alone.
/// Other keys of the table aren't asked. The first fault is told, and `lms` is no kind; `NoMemory` where memory runs out.
pub fn macs_in(alloc: Global, table: &Table) -> Result<CredentialList, RegFault>
    // What is read is what the table says.
    ensures read { IfOk result (λ list. macs_in (table_view table.now) ≡ Ok list) }
    // A fault but want of memory is the table's first.
    ensures refused { IfErr result (λ f. f ≢ RegFault.NoMemory → macs_in (table_view table.now) ≡ Err f) }
    // What is read may be listed, and is of kind mac.
    ensures listable { IfOk result AreListable }
    ensures macs { IfOk result (λ list. AllByRecursion (λ c. c.kind ≡ Kind.Mac) list) }
{
    let list = macs_of(alloc, table)?;
    Ok(CredentialList::of(list))
}

/// Reads the credentials of a file: an array `credential` of 1 to 256 tables.
///
/// Each has its `kind`, `mac` or `lms`; for `mac` a `reference` (a text of 1 to 64 octets) and a `secret` (8 to 64 octets in
/// hex), for `lms` a `key` (the 60 octets of an HSS key in hex: RFC 8554, 6.1), whose identifier is the credential's; `rights`,
/// an array of `enrol`, `vouch`, `wrap` and `revoke`; and `hold`, a boolean, where its requests wait for an order. The first
/// fault is told, table by table, and in a table in this order.
pub fn read_credentials(alloc: Global, toml: &[u8]) -> Result<CredentialList, RegFault>
    // What is read is what the file says.
    ensures read { IfOk result (λ list. credentials_in toml.now ≡ Ok list) }
    // A fault but want of memory is the file's first.
    ensures refused { IfErr result (λ f. f ≢ RegFault.NoMemory → credentials_in toml.now ≡ Err f) }
    // What is read may be listed.
    ensures listable { IfOk result AreListable }
{
    let table = read_table(alloc, toml)?;
    let list = credentials_of(alloc, &table)?;
    Ok(CredentialList::of(list))
}
