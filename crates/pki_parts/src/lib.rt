//! The parts of CMP messages' bodies (RFC 9810, 5.2.3 and 5.3), read from octets that they borrow, and written.
#![tactic(auto)]

mod cert_rep;
mod certificates;
mod confirmation;
mod error;
mod fail_info;
mod identifier;
mod list;
mod polling;
mod reason;
mod revocation;
mod revoked;
mod status;
mod texts;

pub use asn_fields::BadForm;
pub use cert_rep::{CertRep, CertResponse, read_cert_rep, write_cert_rep};
pub use certificates::are_certificates;
pub use confirmation::{CertConfirm, CertStatus, read_confirm, write_confirm};
pub use error::{ErrorMsg, read_error, write_error};
pub use fail_info::first_reason;
pub use polling::{
    PollEntry, PollRep, PollReq, read_poll_rep, read_poll_req, write_poll_rep, write_poll_req,
};
pub use reason::revocation_reason;
pub use revocation::{RevEntry, RevReq, read_rev_req, write_rev_req};
pub use revoked::{RevRep, read_rev_rep, write_rev_rep};
pub use status::{StatusInfo, read_status, write_status};
