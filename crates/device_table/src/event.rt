//! What a device is told.

use cmp_values::{FailInfo, Octets};

/// What the body of a reply says, as far as a device asks.
#[derive(Debug, Drop)]
pub enum Word {
    /// An error, with its reason: of the names whose bits are set the one with the lowest bit, or none (RFC 9810, 5.3.21).
    Errs(Option<FailInfo>),
    /// The request waits: after so many seconds is the time to ask again (RFC 9810, 5.3.22).
    Delays(u32),
    /// The request is rejected (RFC 9810, 5.2.3).
    Denies,
    /// A certificate is issued, and whether it is one that was asked for: over the key, and certified by the root that the device
    /// trusts (RFC 9810, 5.3.2).
    Issues { cert: Octets, is_asked_for: bool },
    /// The confirmation is accepted (RFC 9810, 5.3.17).
    Confirms,
    /// Another body.
    SaysOther,
}

/// What a reply says, as far as a device asks.
#[derive(Debug, Drop)]
pub struct Heard {
    /// Whether the octets are a message of the profile.
    pub is_message: bool,
    /// The transactionID.
    pub tid: Option<Octets>,
    /// The senderNonce.
    pub nonce: Option<Octets>,
    /// The recipNonce: the senderNonce of the message that it answers.
    pub answers: Option<Octets>,
    /// Whether its protection holds, under a key that the device trusts.
    pub verifies: bool,
    /// Whether it grants implicit confirmation (RFC 9810, 5.1.1.1).
    pub is_implicit: bool,
    pub word: Word,
}

/// What happens to a device.
#[derive(Debug, Drop)]
pub enum Event {
    /// It is to begin.
    Begin,
    /// A reply came.
    Hears(Heard),
    /// No reply to the message that is out came.
    Lost,
    /// The time to ask again has come.
    Wake,
}
