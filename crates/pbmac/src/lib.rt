//! PBMAC1 with PBKDF2 and HMAC-SHA-256 (RFC 8018, 7.1; RFC 9481, 6.1.2): its parameters, and the check and the making of a MAC.
#![tactic(auto)]

mod algorithm_id;
mod fault;
mod mac;
mod params;

pub use algorithm_id::read_alg;
pub use asn_fields::BadForm;
pub use asn_types::AlgorithmId;
pub use fault::BadAlg;
pub use mac::{mac_ok, mac_ok_over, make_mac, make_mac_over};
pub use params::{MacParams, read_params};

#[cfg(test)]
mod tests;
