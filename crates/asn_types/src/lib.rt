//! The types that certificates and messages share: names, times, algorithms, keys and extensions (RFC 5280, 4.1 and 4.2),
//! read from octets that they borrow, and written.
#![tactic(auto)]

mod algorithm;
mod common_name;
mod extension;
mod general;
mod key_identifier;
mod laws;
mod name;
mod oids;
mod parts;
mod spki;
mod template;
mod time;

pub use algorithm::{AlgorithmId, read_alg, read_alg_content, write_alg};
pub use asn_fields::BadForm;
pub use cmp_time::{LAST_GENERALIZED, LAST_UTC, generalized, utc};
pub use common_name::write_cn;
pub use extension::{
    Extension, Extensions, read_extension, read_extensions, write_extension, write_extensions,
};
pub use general::{GeneralName, read_general, write_general};
pub use key_identifier::key_id;
pub use laws::oids_are_spelled;
pub use name::{Name, read_name};
pub use oids::{
    AUTHORITY_KEY_IDENTIFIER, BASIC_CONSTRAINTS, CA_CERTS, CERT_REQ_TEMPLATE, COMMON_NAME,
    CONFIRM_WAIT_TIME, EXTENSION_REQUEST, HMAC_SHA256, HSS_LMS, IMPLICIT_CONFIRM, KEY_USAGE,
    OLD_CERT_ID, ORIG_PKI_MESSAGE, PBKDF2, PBMAC1, REASON_CODE, SHA256, SUBJECT_ALT_NAME,
    SUBJECT_KEY_IDENTIFIER,
};
pub use parts::{any, oid_field, plain_bits};
pub use spki::{Spki, read_spki, write_spki};
pub use template::{Template, read_template};
pub use time::read_time;

#[cfg(test)]
mod tests;
