//! Certificates of version 3 (RFC 5280, 4.1), read from octets that they borrow, and written under HSS/LMS (RFC 9802).
#![tactic(auto)]

mod cert;
mod plan;
mod validity;

pub use cert::{Cert, read_cert};
pub use plan::{CertPlan, write_cert, write_tbs, written_is_read};

#[cfg(test)]
mod tests;
