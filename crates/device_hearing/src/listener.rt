//! What a device listens for.

use cmp_values::Short;
use deal_changes::Body4;

/// By what a device trusts a reply.
#[derive(Clone, Copy, Debug)]
pub enum ReplyGuard {
    /// The MAC of a secret that the authority has too (RFC 9810, 5.1.3.1).
    Mac(Short),
    /// The signature of the authority's key for replies, which the root certified (RFC 9810, 5.1.3.3).
    Signed,
}

/// What a device listens for: the reply to its request, and by what it trusts that and the certificate in it.
#[derive(Debug, Drop)]
pub struct Listener {
    /// The kind of the request.
    pub request: Body4,
    pub guard: ReplyGuard,
    /// The HSS key of the authority, by which certificates are trusted, where the device knows it.
    pub root: Option<[u8; 60]>,
    /// The HSS key that is to be certified (RFC 8554, 6.1).
    pub key: [u8; 60],
}
