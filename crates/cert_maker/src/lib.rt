//! The certificates of the service (RFC 5280, 4.1), under HSS/LMS (RFC 9802): the authority's own, that of its replies, and those
//! that it grants.
#![tactic(auto)]

mod certificate;
mod extensions;
mod granted;
mod plans;
mod tbs;
#[cfg(test)]
mod tests;

pub use certificate::{cert_of, cert_of_plan, tbs_of};
pub use plans::{reply_plan, root_plan};
pub use tbs::tbs_of_plan;
