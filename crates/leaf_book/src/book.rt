//! A leaf book: a key of one level, and the leaves that it has given.
ghost use Rattle.std.specs.Prelude.{◌≡◌, length};
ghost use Rattle.std.proofs.Props.{props};
ghost use Rattle.cmp_ports.specs.Disk.{Every};
ghost use Rattle.hss_sig.specs.OneLevel.{hss_key};
ghost use Rattle.leaf_book.specs.Leaves.{lms_key, AreDigests, IsOwnSet};
ghost use Rattle.leaf_book.specs.Images.{Keeps, RecoversWith, IsDoubt};

use cmp_ports::Disk;
use hss_sig::{LeafSigner, OneLevel};
use journal_core::Journal;

/// A private key of one tree with the leaves that it has given, on a disk that the book keeps: each leaf is given to one text. After
/// a call that failed at the disk the next leaf may be in doubt: it may stand on the disk as given or not. It has signed nothing,
/// and the next call that writes settles that it isn't given. After a stop that kept it, it counts as used.
///
/// Its promise rests on its disk: one book a disk at a time, and no disk copied or taken back to an earlier state.
#[derive(Drop)]
pub struct LeafBook<D: Disk> {
    pub(crate) disk: D,
    pub(crate) journal: Journal,
    pub(crate) key: OneLevel,
    pub(crate) given: Vec<[u8; 32]>,
    pub(crate) doubt: Option<[u8; 32]>,
    ghost kept: { ∥ Keeps key given.items doubt journal (D.images disk) ∥₁ },
    ghost own: { IsOwnSet key },
    ghost size: { length (lms_key key) ≡ 56 },
    ghost sized: { AreDigests given.items } by { Prim.hlevel props },
}

impl<D: Disk> LeafBook<D> {
    ghost use Rattle.leaf_book.specs.Calls.{given_of};

    /// The public key, 60 octets (RFC 8554, 6.1). Takes no memory.
    pub fn public(&self) -> [u8; 60]
        ensures { result ≡ hss_key self.now.key }
    {
        self.key.public()
    }

    /// What a book is: each image of its disk recovers to its key and the leaves that it has given, or to these with the leaf in
    /// doubt behind them.
    pub fn stands_for_its_disk(&self)
        ensures images { Every (D.images self.now.disk) (RecoversWith self.now.key (given_of self.now) (IsDoubt self.now.doubt)) }
        ensures own { IsOwnSet self.now.key }
    {}

    /// The disk.
    pub fn into_disk(self) -> D
        ensures { result ≡ self.disk }
    {
        self.disk
    }
}
