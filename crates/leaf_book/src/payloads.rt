//! The payloads of a book's log.
ghost use Rattle.std.specs.Prelude.{◌≡◌, length};
ghost use Rattle.leaf_book.specs.Leaves.{key_payload, leaf_payload};

/// What the payload of a key begins with.
pub(crate) const KEY_MARK: u8 = 1;

/// What the payload of a leaf begins with.
pub(crate) const LEAF_MARK: u8 = 2;

/// The octets of a key (RFC 8554, 5.3).
pub(crate) const KEY_OCTETS: usize = 56;

/// The octets of a leaf's payload before the digest.
pub(crate) const LEAF_HEAD: usize = 5;

/// The octets of a leaf's payload.
pub(crate) const LEAF_OCTETS: usize = 37;

/// The payload of a key.
#[tactic(auto, unfolding(crate::specs::Leaves::key_payload))]
pub(crate) fn key_payload(key: &[u8; 56]) -> [u8; 57]
    ensures { result ≡ key_payload key.now }
{
    let mut octets = [KEY_MARK; KEY_OCTETS + 1];
    octets[1..].copy_from_slice(key);
    octets
}

/// The payload of a leaf that is given to a text of this SHA-256.
#[tactic(auto, unfolding(crate::specs::Leaves::leaf_payload))]
pub(crate) fn leaf_payload(leaf: u32, digest: &[u8; 32]) -> [u8; 37]
    ensures { result ≡ leaf_payload leaf digest.now }
{
    let mut octets = [LEAF_MARK; LEAF_OCTETS];
    octets[1..LEAF_HEAD].copy_from_slice(&leaf.to_be_bytes());
    octets[LEAF_HEAD..].copy_from_slice(digest);
    octets
}
