//! The operator's files: the settings of a service, and the credentials that it is to know, as TOML.
//!
//! A file is read whole. It gives all that it says, or the first fault by the order of its table.
#![tactic(auto)]

mod credentials;
mod fault;
mod file;
mod forms;
mod settings;
#[cfg(test)]
mod tests;

pub use credentials::{macs_in, read_credentials};
pub use fault::{CredCause, RegFault, SettingKey};
pub use file::{has_only, read_table, value_at};
pub use forms::{
    Kinds, hex_in, key_in, kind_among, kind_in, number_in, rights_in, tables_in, text_in,
};
pub use settings::read_settings;
