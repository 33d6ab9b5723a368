//! One message, one answer: octets are checked and decided over the history that a clerk keeps, and answered under the keys of the
//! authority (RFC 9810).
#![tactic(auto)]

mod asking;
mod deciding;
mod device;
mod drawing;
mod front;
mod guards;
mod handing;
mod reply;
mod serving;

pub use device::Device;
pub use front::Front;
