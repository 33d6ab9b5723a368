//! A file as a table, and what stands at a key.
ghost use Rattle.std.specs.Prelude.{◌≡◌, ok_or, option_map, map, string_bytes};
ghost use Rattle.toml.specs.Data.{get_member};
ghost use Rattle.toml.specs.View.{view, table_view};
ghost use Rattle.registry.specs.Files.{table_in, Gives};
ghost use Rattle.registry.specs.Forms.{has_only};
ghost use Rattle.std.specs.List.{list_any, list_all};
ghost use Rattle.std.specs.Str.{bytes_eq};
ghost use Rattle.std.specs.BTreeMap.{keys};
ghost use Rattle.registry.specs.declared.fault.RegFault.TheVariants.{BadToml};

use crate::fault::RegFault;
use std::alloc::Global;
use toml::{Table, Value};

/// The most octets of a file.
const FILE_LIMIT: usize = 65_536;

/// The table of a file of at most 65,536 octets of TOML 1.1. `BadToml` where it is none, `NoMemory` where memory runs out.
#[tactic(auto, using(crate::proofs::FileLemmas::table_long, crate::proofs::FileLemmas::table_read, crate::proofs::FileLemmas::table_none))]
pub fn read_table(alloc: Global, file: &[u8]) -> Result<Table, RegFault>
    ensures { Gives table_view result (ok_or (table_in file.now) BadToml) }
{
    if file.len() > FILE_LIMIT {
        return Err(RegFault::BadToml);
    }
    match toml::table_from_slice(alloc, file) {
        Ok(table) => Ok(table),
        Err(error) if error.is_memory() => Err(RegFault::NoMemory),
        Err(_) => Err(RegFault::BadToml),
    }
}

/// What stands at a key of a table; none where the key doesn't stand there.
pub fn value_at<'a>(table: &'a Table, key: &str) -> Option<&'a Value>
    ensures { option_map (λ v. view v.now) result ≡ get_member key.now (table_view table.now) }
{
    table.get(key)
}

/// Whether a key is one of these words.
fn is_among(words: &[&str], key: &str) -> bool
    ensures { result ≡ list_any (λ word. bytes_eq key.now word.now) words.now }
{
    words.iter().any(|word| key == *word)
}

/// Whether each key of a table is one of these words.
fn are_among(words: &[&str], table: &Table) -> bool
    ensures { result ≡ list_all (λ key. list_any (λ word. bytes_eq (string_bytes key) word.now) words.now) (keys table.now) }
{
    table.keys().all(|key| is_among(words, key.as_str()))
}

/// Whether each key of a table is one of these words.
pub fn has_only(words: &[&str], table: &Table) -> bool
    ensures { result ≡ has_only (map (λ word. word.now) words.now) (table_view table.now) }
{
    are_among(words, table)
}
