//! What a change says.
ghost use Rattle.std.specs.Prelude.{◌≡◌, length, IfOk};

use cmp_values::{Octets, Short};
use std::alloc::{AllocError, Global};
use std::marker::Model;

/// How a listed credential protects a message.
#[derive(Clone, Copy, Debug, PartialEq, Eq)]
pub enum Kind {
    /// By a shared secret (PBMAC1, RFC 9481, 6.1.2).
    Mac,
    /// By a hash-based signature (HSS/LMS, RFC 8554).
    Lms,
}

/// Whose message it was.
#[derive(Clone, Copy, Debug)]
pub enum Who {
    /// A listed credential, by its kind and identifier: a reference of 1 to 64 octets, or a key identifier of 20.
    Listed(Kind, Short),
    /// The holder of a certificate, by its serial number.
    Cert(u64),
}

/// The body of a certificate request (RFC 9810, 5.1.2).
#[derive(Clone, Copy, Debug, PartialEq, Eq)]
pub enum Body4 {
    /// Initialization request.
    Ir,
    /// Certification request.
    Cr,
    /// Certification request in the form of PKCS #10.
    P10cr,
    /// Key update request.
    Kur,
}

/// A listed credential.
#[derive(Clone, Copy, Debug)]
pub struct Credential {
    pub kind: Kind,
    /// The reference, 1 to 64 octets, or the key identifier, 20 octets.
    pub kid: Short,
    /// The secret, 8 to 64 octets, or the HSS key, 60 octets.
    pub material: Short,
    /// Bits: enrol 1, vouch 2, wrap 4, revoke 8, hold 16.
    pub rights: u8,
}

/// A list of credentials. Contracts see it as the list.
#[derive(Debug, Drop)]
pub struct CredentialList {
    items: Vec<Credential>,
}

impl Model for CredentialList {
    ghost use Rattle.std.specs.Prelude.{List};
    ghost use Rattle.deal_changes.specs.declared.change.Credential.{Credential};

    ghost Value = { List Credential };

    ghost view = { λ l. l.items.items };
}

impl CredentialList {
    /// These credentials. Takes no memory.
    pub fn of(items: Vec<Credential>) -> CredentialList
        ensures { result ≡ items.items }
    {
        CredentialList { items }
    }

    /// The credentials, borrowed.
    pub fn as_slice(&self) -> &[Credential]
        ensures { result.now ≡ self.now }
    {
        self.items.as_slice()
    }

    /// How many credentials there are.
    pub fn len(&self) -> usize
        ensures { result ≡ length self.now }
    {
        self.items.len()
    }

    /// A copy. `AllocError` where memory runs out.
    pub fn copy_of(alloc: Global, items: &[Credential]) -> Result<CredentialList, AllocError>
        ensures { IfOk result (λ list. list ≡ items.now) }
    {
        Ok(CredentialList {
            items: Vec::from_slice(alloc, items)?,
        })
    }
}

/// What a message leaves in the history: what its reply needs, and what later messages are held against.
#[derive(Debug, Drop)]
pub struct Stamp {
    /// The transactionID, 1 to 64 octets (RFC 9810, 5.1.1).
    pub tid: Short,
    /// SHA-256 of the message as it was received.
    pub digest: [u8; 32],
    pub who: Who,
    /// The sender of the message's header, a GeneralName as it stands.
    pub sender: Octets,
    /// The version of the reply.
    pub pvno: u8,
    /// The senderNonce of the message, 16 to 64 octets.
    pub sender_nonce: Short,
    /// What the service drew for the reply; the first 16 octets are its senderNonce.
    pub words: [u8; 32],
    /// Seconds since 1970.
    pub time: u64,
    /// The leaf of the reply key that signs the reply, where it is signed.
    pub leaf: Option<u32>,
}

/// What a certificate was asked for.
#[derive(Debug, Drop)]
pub struct Wish {
    /// The subject, a Name as it stands.
    pub subject: Octets,
    /// The SubjectPublicKeyInfo as it stands.
    pub spki: Octets,
    /// The Extension elements that are copied into the certificate, in a row.
    pub exts: Octets,
    /// Whether implicit confirmation was asked for (RFC 9810, 5.1.1.1).
    pub implicit: bool,
    /// Whether the certificate differs from what was asked for.
    pub mods: bool,
}

/// What the service was founded with.
#[derive(Debug, Drop)]
pub struct Settings {
    /// Seconds since 1970.
    pub time: u64,
    /// The name of the authority, a Name of one CN of 1 to 58 octets.
    pub name: Octets,
    /// The HSS key that signs certificates.
    pub issue_key: [u8; 60],
    /// The HSS key that signs replies.
    pub reply_key: [u8; 60],
    /// How long a certificate waits for its confirmation, in seconds.
    pub wait: u32,
    /// How far a message's time may be from the service's, in seconds.
    pub skew: u32,
    /// The iterations of a reply's MAC.
    pub rounds: u32,
    /// After how many seconds a held request is to be asked for again.
    pub check_after: u32,
    /// How many days a certificate is valid.
    pub days: u32,
}

/// One entry of the history.
#[derive(Debug, Drop)]
pub enum Change {
    /// The service was founded.
    Found(Settings),
    /// Credentials were listed.
    Enlist {
        time: u64,
        list: CredentialList,
    },
    /// A listed credential was dismissed.
    Dismiss {
        time: u64,
        who: Who,
    },
    /// A certificate was granted, with this serial number and signed by this leaf of the issuing key.
    Grant {
        stamp: Stamp,
        body: Body4,
        wish: Wish,
        serial: u64,
        leaf: u32,
    },
    /// A request waits for an order.
    Hold {
        stamp: Stamp,
        body: Body4,
        wish: Wish,
    },
    /// A held request was released.
    Release {
        time: u64,
        tid: Short,
    },
    /// A held request was denied.
    Deny {
        time: u64,
        tid: Short,
    },
    /// The requester was told of the denial.
    Turned(Stamp),
    /// The requester asked for a held request again.
    Polled(Stamp),
    /// The requester accepted or rejected its certificate.
    Settled {
        stamp: Stamp,
        accepted: bool,
    },
    /// A certificate was revoked (reason as in RFC 5280, 5.3.1).
    Revoke {
        stamp: Stamp,
        serial: u64,
        reason: u8,
    },
    /// A certificate was not confirmed in time.
    Lapse {
        time: u64,
        tid: Short,
    },
}
