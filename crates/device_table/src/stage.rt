//! How far a device has come.

use cmp_values::Octets;

/// What the first message of a transaction was sent with.
#[derive(Clone, Copy, Debug)]
pub struct Deal {
    /// The transactionID.
    pub tid: [u8; 16],
    /// The senderNonce.
    pub nonce: [u8; 16],
}

/// The message that is out: it was sent, and no reply to it was heard.
#[derive(Debug, Drop)]
pub struct Out {
    /// The whole message.
    pub octets: Octets,
    /// Its senderNonce.
    pub nonce: [u8; 16],
    /// How often it was lost.
    pub lost: u32,
}

/// What the message that is out is about.
#[derive(Debug, Drop)]
pub enum Phase {
    /// The request.
    Asked,
    /// A pollReq.
    Polling,
    /// A certConf that accepts this certificate.
    Confirming(Octets),
    /// A certConf that rejects a certificate.
    Rejecting,
}

/// How far a device has come.
#[derive(Debug, Drop)]
pub enum Stage {
    Start,
    /// A message is out.
    Talks(Out, Phase),
    /// The request waits; the senderNonce of the reply that said so.
    Waits(Option<Octets>),
    Ended,
}
