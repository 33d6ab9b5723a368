//! What a device asks for.

use cmp_values::{Octets, Short};
use deal_changes::Body4;

/// By what a device shows who it is.
#[derive(Debug, Drop)]
pub enum DeviceGuard {
    /// A secret, which is known by a reference.
    Mac { reference: Short, secret: Short },
    /// The device's own key, by the whole certificate that it has for it.
    Signed { cert: Octets },
}

/// What is to be certified.
#[derive(Debug, Drop)]
pub enum Target {
    /// The device's own key, whose next leaf shows that it has the private key.
    Book,
    /// Another HSS key, 60 octets (RFC 8554, 6.1), with the signature of the proof's text under it.
    Made { key: [u8; 60], proof: Octets },
}

/// What a device asks for.
#[derive(Debug, Drop)]
pub struct DevicePlan {
    /// The kind of its request.
    pub body: Body4,
    /// The authority's Name, whole.
    pub ca: Octets,
    /// The Name that is to be certified, whole.
    pub subject: Octets,
    pub guard: DeviceGuard,
    pub target: Target,
    /// The HSS key of the authority, by which certificates are trusted.
    pub root: Option<[u8; 60]>,
    /// Whether implicit confirmation is asked for (RFC 9810, 5.1.1.1).
    pub implicit: bool,
    /// The iterations of its MACs.
    pub rounds: u32,
}

/// The key that is to be certified, 60 octets, and the signature of the proof's text that shows its possession. Only a request has the
/// signature.
#[derive(Debug, Drop)]
pub struct Claim {
    pub key: [u8; 60],
    pub proof: Octets,
}

/// When something is said, in seconds since 1970, and the words that are drawn for it.
#[derive(Clone, Copy, Debug)]
pub struct Turn {
    pub time: u64,
    pub words: [u8; 32],
}
