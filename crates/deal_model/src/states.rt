//! The answers of a history.

use cmp_values::Short;
use deal_changes::Who;

/// A secret of 8 to 64 octets, or an HSS/LMS key of 60.
pub type Key60 = Short;

/// One of the service's two keys.
#[derive(Clone, Copy, Debug, PartialEq, Eq)]
pub enum Key {
    /// Signs certificates.
    Issue,
    /// Signs replies.
    Reply,
}

/// Why a certificate is revoked.
#[derive(Clone, Copy, Debug, PartialEq, Eq)]
pub enum Reason {
    /// Its requester rejected it.
    Rejected,
    /// It was not confirmed in time.
    Timeout,
    /// Somebody asked for it, with this reason (RFC 5280, 5.3.1).
    Asked(u8),
}

/// How a certificate stands.
#[derive(Clone, Copy, Debug, PartialEq, Eq)]
pub enum CertificateState {
    /// It waits for its confirmation until this time.
    Open { deadline: u64 },
    /// It is in force.
    Confirmed,
    /// It is revoked.
    Revoked { reason: Reason },
}

/// How a transaction stands.
#[derive(Clone, Copy, Debug, PartialEq, Eq)]
pub enum DealState {
    /// No request has its identifier.
    Unused,
    /// Its request waits for an order.
    Held,
    /// Its request was released, and is answered when it is asked for again.
    Released,
    /// Its request was denied.
    Denied,
    /// Its certificate, with this serial number, waits for confirmation until the deadline.
    Open { serial: u64, deadline: u64 },
    /// Its certificate is confirmed or revoked.
    Closed,
    /// It revoked a certificate.
    Other,
}

/// The right to enrol.
pub const ENROL: u8 = 1;
/// The right to vouch for another's possession of a key (RFC 9810, 5.2.8).
pub const VOUCH: u8 = 2;
/// The right to wrap messages of others (RFC 9810, 5.1.3.5).
pub const WRAP: u8 = 4;
/// The right to revoke what is another's.
pub const REVOKE: u8 = 8;
/// What makes requests wait for an order.
pub const HOLD: u8 = 16;

/// To whom a credential belongs, and what it may do.
#[derive(Clone, Copy, Debug)]
pub struct Owner {
    pub who: Who,
    pub key: Key60,
    /// The sum of `ENROL`, `VOUCH`, `WRAP`, `REVOKE` and `HOLD`, as far as it has them.
    pub rights: u8,
}

/// How a credential stands.
#[derive(Clone, Copy, Debug)]
pub enum Standing {
    /// Nobody has it.
    Unknown,
    /// It stands only as a credential of the other kind.
    OtherKind,
    /// It was dismissed, or its certificate is not confirmed or is over.
    Barred,
    /// It is good.
    Good { who: Who, key: Key60, rights: u8 },
}
