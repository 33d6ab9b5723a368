//! Why a file was not read.
ghost use Rattle.std.specs.Prelude.{◌≡◌};
ghost use Rattle.registry.specs.declared.fault.RegFault.TheVariants as fault;

use std::alloc::{AllocError, AllocFailed};

/// A key of the settings.
#[derive(Clone, Copy, Debug, PartialEq, Eq)]
pub enum SettingKey {
    /// The name of the authority, a text of 1 to 58 octets.
    Name,
    /// The type code of the tree of the issuing key, 5 to 7 (RFC 8554, 5.1).
    IssueTree,
    /// The type code of the tree of the reply key, 5 to 7.
    ReplyTree,
    /// The type code of the issuing key's one-time signatures, 1 to 4 (RFC 8554, 4.1).
    IssueOts,
    /// The type code of the reply key's one-time signatures, 1 to 4.
    ReplyOts,
    /// How long a certificate waits for its confirmation: 1 to 604,800 seconds.
    Wait,
    /// How far a message's time may be from the service's: 0 to 86,400 seconds.
    Skew,
    /// The iterations of a reply's MAC: 1 to 200,000.
    Rounds,
    /// After how many seconds a held request is to be asked for again: 1 to 86,400.
    CheckAfter,
    /// How many days a certificate is valid: 1 to 36,500.
    Days,
    /// A key that the settings don't have.
    Unknown,
}

impl SettingKey {
    ghost use Rattle.registry.specs.Words.{setting_word};

    /// The key's word.
    pub fn word(self) -> &'static str
        ensures { result.now ≡ setting_word self }
    {
        match self {
            SettingKey::Name => "name",
            SettingKey::IssueTree => "issue_tree",
            SettingKey::ReplyTree => "reply_tree",
            SettingKey::IssueOts => "issue_ots",
            SettingKey::ReplyOts => "reply_ots",
            SettingKey::Wait => "wait",
            SettingKey::Skew => "skew",
            SettingKey::Rounds => "rounds",
            SettingKey::CheckAfter => "check_after",
            SettingKey::Days => "days",
            SettingKey::Unknown => "unknown",
        }
    }
}

/// What is at fault in a credential.
#[derive(Clone, Copy, Debug, PartialEq, Eq)]
pub enum CredCause {
    /// A key that a credential of its kind doesn't have.
    Unknown,
    /// The kind: `mac` or `lms`.
    Kind,
    /// The reference of a shared secret: a text of 1 to 64 octets.
    Reference,
    /// The shared secret: 8 to 64 octets in hex.
    Secret,
    /// The HSS/LMS key: 60 octets in hex.
    Key,
    /// The rights: `enrol`, `vouch`, `wrap` and `revoke`, each at most once.
    Rights,
    /// Whether requests wait for an order.
    Hold,
    /// The reference or key stands earlier in the file.
    Duplicate,
}

impl CredCause {
    ghost use Rattle.registry.specs.Words.{cause_word};

    /// The cause's word.
    pub fn word(self) -> &'static str
        ensures { result.now ≡ cause_word self }
    {
        match self {
            CredCause::Unknown => "unknown",
            CredCause::Kind => "kind",
            CredCause::Reference => "reference",
            CredCause::Secret => "secret",
            CredCause::Key => "key",
            CredCause::Rights => "rights",
            CredCause::Hold => "hold",
            CredCause::Duplicate => "duplicate",
        }
    }
}

/// Why a file was not read.
#[derive(Clone, Copy, Debug, PartialEq, Eq)]
pub enum RegFault {
    /// More than 65,536 octets, or no TOML.
    BadToml,
    /// No array `credential` of 1 to 256 tables, or another key beside it.
    BadCount,
    /// A credential at fault.
    BadCredential {
        /// Its place in the array, from 0.
        index: u32,
        cause: CredCause,
    },
    /// A setting at fault.
    BadSetting(SettingKey),
    /// Memory ran out.
    NoMemory,
}

impl From<SettingKey> for RegFault {
    ghost from_gives = { λ key f. f ≡ fault.BadSetting key };

    fn from(key: SettingKey) -> RegFault {
        RegFault::BadSetting(key)
    }
}

impl From<AllocError> for RegFault {
    ghost from_gives = { λ _ f. f ≡ fault.NoMemory };

    fn from(_e: AllocError) -> RegFault {
        RegFault::NoMemory
    }
}

impl<T: Drop> From<AllocFailed<T>> for RegFault {
    ghost from_gives = { λ _ f. f ≡ fault.NoMemory };

    fn from(_e: AllocFailed<T>) -> RegFault {
        RegFault::NoMemory
    }
}
