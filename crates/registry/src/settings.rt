//! The settings of a service.
ghost use Rattle.std.specs.Prelude.{◌≡◌, ◌≢◌, ◌≤◌, Ok, Err, length, IfOk, IfErr, IsTrue};
ghost use Rattle.std.specs.Str.{is_utf8};
ghost use Rattle.toml.specs.View.{table_view};
ghost use Rattle.registry.specs.Forms.{text_in, number_in, has_only};
ghost use Rattle.registry.specs.Files.{Reads};
ghost use Rattle.registry.specs.Settings.{setting, setting_keys, blank_key, settings_of, settings_in, settings_with, AreWithin, MayFound, AreUnmade};

use crate::fault::{RegFault, SettingKey};
use crate::file::{has_only, read_table, value_at};
use crate::forms::{number_in, text_in};
use asn_types::write_cn;
use deal_model::Settings;
use std::alloc::{AllocError, Global};
use toml::Table;

/// The keys of a file of settings.
const KEYS: [&str; 10] = [
    "name",
    "issue_tree",
    "reply_tree",
    "issue_ots",
    "reply_ots",
    "wait",
    "skew",
    "rounds",
    "check_after",
    "days",
];

/// The text at a key.
fn text_at(table: &Table, key: SettingKey, least: usize, most: usize) -> Result<&str, SettingKey>
    ensures value { Reads (λ text. text.now) result (setting key (text_in least most) (table_view table.now)) }
    ensures sized { IfOk result (λ text. (least ≤ length text.now) × (length text.now ≤ most)) }
    ensures text { IfOk result (λ text. IsTrue (is_utf8 text.now)) }
{
    let Some(value) = value_at(table, key.word()) else {
        return Err(key);
    };
    text_in(value, least, most).ok_or(key)
}

/// The number at a key.
fn number_at(table: &Table, key: SettingKey, least: u32, most: u32) -> Result<u32, SettingKey>
    ensures value { result ≡ setting key (number_in least most) (table_view table.now) }
    ensures bounds { IfOk result (λ number. (least ≤ number) × (number ≤ most)) }
{
    let Some(value) = value_at(table, key.word()) else {
        return Err(key);
    };
    number_in(value, least, most).ok_or(key)
}

/// Whether each key of a table is a setting's.
fn has_only_settings(table: &Table) -> bool
    ensures { result ≡ has_only setting_keys (table_view table.now) }
{
    has_only(&KEYS, table)
}

/// An HSS key that isn't made yet, by its type codes.
fn blank_key(tree: u32, ots: u32) -> [u8; 60]
    ensures { result ≡ blank_key tree ots }
{
    let mut key = [0u8; 60];
    key[..4].copy_from_slice(&1u32.to_be_bytes());
    key[4..8].copy_from_slice(&tree.to_be_bytes());
    key[8..12].copy_from_slice(&ots.to_be_bytes());
    key
}

/// What a file of settings says.
#[derive(Clone, Copy)]
struct Fields<'a> {
    name: &'a str,
    issue_tree: u32,
    reply_tree: u32,
    issue_ots: u32,
    reply_ots: u32,
    wait: u32,
    skew: u32,
    rounds: u32,
    check_after: u32,
    days: u32,
}

/// The fields of a table, by the order of their keys.
#[tactic(auto, unfolding(crate::specs::Settings::settings_of))]
fn fields_of(table: &Table) -> Result<Fields<'_>, SettingKey>
    ensures value { Reads settings_with result (settings_of (table_view table.now)) }
    ensures within { IfOk result AreWithin }
{
    let name = text_at(table, SettingKey::Name, 1, 58)?;
    let issue_tree = number_at(table, SettingKey::IssueTree, 5, 7)?;
    let reply_tree = number_at(table, SettingKey::ReplyTree, 5, 7)?;
    let issue_ots = number_at(table, SettingKey::IssueOts, 1, 4)?;
    let reply_ots = number_at(table, SettingKey::ReplyOts, 1, 4)?;
    let wait = number_at(table, SettingKey::Wait, 1, 604_800)?;
    let skew = number_at(table, SettingKey::Skew, 0, 86_400)?;
    let rounds = number_at(table, SettingKey::Rounds, 1, 200_000)?;
    let check_after = number_at(table, SettingKey::CheckAfter, 1, 86_400)?;
    let days = number_at(table, SettingKey::Days, 1, 36_500)?;
    if !has_only_settings(table) {
        return Err(SettingKey::Unknown);
    }
    Ok(Fields {
        name,
        issue_tree,
        reply_tree,
        issue_ots,
        reply_ots,
        wait,
        skew,
        rounds,
        check_after,
        days,
    })
}

/// The settings that fields are, at no time yet.
fn settings_with(alloc: Global, fields: &Fields<'_>) -> Result<Settings, AllocError>
    requires { AreWithin fields.now }
    ensures value { IfOk result (λ s. s ≡ settings_with fields.now) }
    ensures founds { IfOk result MayFound }
    ensures unmade { IfOk result AreUnmade }
{
    Ok(Settings {
        time: 0,
        name: write_cn(alloc, fields.name.as_bytes())?,
        issue_key: blank_key(fields.issue_tree, fields.issue_ots),
        reply_key: blank_key(fields.reply_tree, fields.reply_ots),
        wait: fields.wait,
        skew: fields.skew,
        rounds: fields.rounds,
        check_after: fields.check_after,
        days: fields.days,
    })
}

/// Reads the settings of a file. They have time 0, and blank keys: one level and the chosen type codes, and zeros behind them
/// (RFC 8554, 5.3 and 6.1). The first key that is absent or out of its form is told, in the order of `SettingKey`.
pub fn read_settings(alloc: Global, toml: &[u8]) -> Result<Settings, RegFault>
    // What is read is what the file says.
    ensures read { IfOk result (λ s. settings_in toml.now ≡ Ok s) }
    // A fault but want of memory is the file's first.
    ensures refused { IfErr result (λ f. f ≢ RegFault.NoMemory → settings_in toml.now ≡ Err f) }
    // What is read may found a service, once its keys are made.
    ensures founds { IfOk result MayFound }
    // They aren't made yet.
    ensures unmade { IfOk result AreUnmade }
{
    let table = read_table(alloc, toml)?;
    let fields = fields_of(&table)?;
    Ok(settings_with(alloc, &fields)?)
}
