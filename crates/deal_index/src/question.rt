//! What may be asked of a history: the first change that does something with a transaction, a certificate, a message or a
//! credential.
use crate::identifier::Identifier;

/// What a change does with a transaction.
#[derive(Clone, Copy, Debug, PartialEq, Eq, Hash)]
pub enum DealDeed {
    Grants,
    Holds,
    Releases,
    Denies,
    /// Its requester was told that it is denied.
    Turns,
    Settles,
    Revokes,
    Lapses,
}

/// What a change does with a certificate.
#[derive(Clone, Copy, Debug, PartialEq, Eq, Hash)]
pub enum CertificateDeed {
    Grants,
    Revokes,
}

/// What a change does with the reference of a shared secret, or with the identifier of a key.
#[derive(Clone, Copy, Debug, PartialEq, Eq, Hash)]
pub enum CredentialDeed {
    /// Lists the shared secret with this reference.
    ListsMac,
    /// Dismisses the shared secret with this reference.
    DismissesMac,
    /// Lists the key with this identifier.
    ListsLms,
    /// Dismisses the key with this identifier.
    DismissesLms,
    /// Gives the key with this identifier an owner: lists it, or grants a certificate for it.
    GivesLms,
    /// Has a key with this identifier.
    TakesKey,
}

/// What is asked of a history: the first change that does this.
#[derive(Clone, Copy, Debug, PartialEq, Eq, Hash)]
pub enum Question {
    /// Does it with the transaction of this transactionID.
    Deal(DealDeed, Identifier),
    /// Does it with the certificate of this serial number.
    Certificate(CertificateDeed, u64),
    /// Was made by the message of this SHA-256 digest.
    Message([u8; 32]),
    /// Does it with this reference or key identifier.
    Named(CredentialDeed, Identifier),
}
