//! A leaf with the one text that it signs.
ghost use Rattle.std.specs.Prelude.{◌≡◌, ◌<◌};
ghost use Rattle.lms_tree.specs.Verifies.{u32_at};
ghost use Rattle.hss_sig.specs.OneLevel.{leaf_count};

use cmp_values::Octets;

/// A leaf that a book has reserved for one text. Only `LeafBook::reserve` makes one, once the leaf is on the disk, and only
/// `LeafBook::sign` uses it. It can't be copied.
#[derive(Debug, Drop)]
pub struct Warrant {
    pub(crate) leaf: u32,
    pub(crate) text: Octets,
    pub(crate) key: [u8; 60],
    ghost below: { leaf < leaf_count (u32_at key 4) },
}

impl Warrant {
    /// The leaf, from 0 on.
    pub fn leaf(&self) -> u32
        ensures { result ≡ self.now.leaf }
    {
        self.leaf
    }

    /// The text.
    pub fn text(&self) -> &[u8]
        ensures { result.now ≡ self.now.text }
    {
        self.text.as_slice()
    }

    /// The public key of the book that reserved the leaf, 60 octets (RFC 8554, 6.1).
    pub fn key(&self) -> [u8; 60]
        ensures { result ≡ self.now.key }
    {
        self.key
    }

    /// The text, without the leaf, which stays used.
    pub fn into_text(self) -> Octets
        ensures { result ≡ self.text }
    {
        self.text
    }
}
