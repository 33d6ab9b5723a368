//! Certificate requests: CRMF (RFC 4211) and PKCS #10 (RFC 2986), read from octets that they borrow, and written.
#![tactic(auto)]

mod attributes;
mod controls;
mod pkcs10;
mod possession;
mod requests;
mod wish;

pub use asn_fields::BadForm;
pub use controls::OldCert;
pub use pkcs10::{P10, read_p10};
pub use possession::Popo;
pub use requests::{CrmfList, CrmfReq, read_crmf};
pub use wish::{
    CrmfWish, Proof, write_around, write_crmf, write_p10, write_p10_info, write_request,
};
