//! The changes of which the service's history is made, and their octets. A history is a list of changes, each of which
//! is written once and never altered; all that the service answers is computed from it.
#![tactic(auto)]

mod change;
mod copying;
mod fault;
mod parts;
mod payload;
mod reading;
mod spki;
#[cfg(test)]
mod tests;
mod times;
mod writing;

pub use change::{Body4, Change, Credential, CredentialList, Kind, Settings, Stamp, Who, Wish};
pub use fault::ChangeFault;
pub use payload::{read_blob, read_short, read_u64, write_blob, write_short, write_u64};
pub use reading::read_change;
pub use spki::{PublicKey, common_name, is_ca_name, is_spki, is_text, public_key};
pub use writing::write_change;
