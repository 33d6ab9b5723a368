//! Gives the next leaf to a text: first on the disk, then in memory.
ghost use Rattle.std.specs.Prelude.{◌≡◌, ◌≢◌, ◌<◌, ◌≤◌, ◌^◌, ◌↔◌, ◌++◌, ◌∷◌, [], length, IfOk, IfErr, OnOk, OnErr, IsErrOf, MatchResult, IsSome, IsTrue, Some, None, Err, vec_len, vec_capacity};
ghost use Rattle.cmp_ports.specs.Disk.{Every, LeavesOnly};
ghost use Rattle.cmp_ports.specs.Faults.{Rose, HasCause};
ghost use Rattle.sha2.specs.Sha256.{sha256};
ghost use Rattle.hss_sig.specs.OneLevel.{hss_key, leaf_count};
ghost use Rattle.leaf_book.specs.Leaves.{leaf_payload};
ghost use Rattle.leaf_book.specs.Images.{Recovers, RecoversWith, IsDoubt, DoubtOr};
ghost use Rattle.leaf_book.specs.Calls.{given_of, IsLeft};

use crate::book::LeafBook;
use crate::fault::ReserveFault;
use crate::payloads::leaf_payload;
use crate::warrant::Warrant;
use cmp_ports::Disk;
use cmp_values::Octets;
use hss_sig::LeafSigner;
use journal_core::{AppendFault, DiskFault, Record};
use sha2::{Digest, Sha256};

impl<D: Disk> LeafBook<D> {
    /// Whether all leaves are used.
    fn is_spent(&self) -> bool
        ensures { IsTrue result ↔ (leaf_count self.now.key.tree ≤ length (given_of self.now)) }
    {
        self.given.len() >= self.key.leaves() as usize
    }

    /// Settles that the leaf in doubt isn't given.
    fn settle(&mut self) -> Result<(), DiskFault>
        ensures same { self.new.given ≡ self.old.given }
        ensures given { given_of self.new ≡ given_of self.old }
        ensures key { self.new.key ≡ self.old.key }
        ensures clear { OnOk result (self.new.doubt ≡ None) }
        ensures still { OnErr result (IsSome self.old.doubt × (self.new.doubt ≡ self.old.doubt)) }
        ensures moments { LeavesOnly D.moment D.left_since self.old.disk self.new.disk (RecoversWith self.old.key (given_of self.old) (IsDoubt self.old.doubt)) }
        ensures cause { HasCause (D.faults self.old.disk) (D.faults self.new.disk) result }
        ensures loan { D.loan self.new.disk ≡ D.loan self.old.disk }
    {
        if self.doubt.is_none() {
            return Ok(());
        }
        match self.journal.settle(&mut self.disk) {
            Ok(()) => {
                self.doubt = None;
                Ok(())
            }
            Err(fault) => Err(fault),
        }
    }

    /// Appends the record of the next leaf where nothing is in doubt. Takes no memory.
    fn append(&mut self, digest: [u8; 32], entry: &Record) -> Result<(), DiskFault>
        requires below { length (given_of self.old) < leaf_count self.old.key.tree }
        requires clear { self.old.doubt ≡ None }
        requires spelled { entry.now ≡ leaf_payload (length (given_of self.old)) digest }
        requires room { vec_len self.old.given < vec_capacity self.old.given }
        ensures given { MatchResult result (λ _. given_of self.new ≡ given_of self.old ++ digest ∷ []) (λ _. given_of self.new ≡ given_of self.old) }
        ensures doubt { MatchResult result (λ _. self.new.doubt ≡ None) (λ _. self.new.doubt ≡ Some digest) }
        ensures key { self.new.key ≡ self.old.key }
        ensures moments { LeavesOnly D.moment D.left_since self.old.disk self.new.disk (RecoversWith self.old.key (given_of self.old) (λ d. d ≡ digest)) }
        ensures cause { HasCause (D.faults self.old.disk) (D.faults self.new.disk) result }
        ensures loan { D.loan self.new.disk ≡ D.loan self.old.disk }
    {
        match self.journal.append(&mut self.disk, entry) {
            Ok(()) => match self.given.push(digest) {
                Ok(()) => Ok(()),
                Err(_) => unreachable!(),
            },
            Err(AppendFault::Full) => unreachable!(),
            Err(AppendFault::DiskFault) => {
                self.doubt = Some(digest);
                Err(DiskFault)
            }
        }
    }

    /// Gives the next leaf to a text of this SHA-256. What is in doubt is settled first, and all memory is taken before.
    fn give(&mut self, digest: [u8; 32]) -> Result<u32, ReserveFault>
        requires { length (given_of self.old) < leaf_count self.old.key.tree }
        ensures leaf { IfOk result (λ leaf. (leaf ≡ length (given_of self.old)) × (leaf < leaf_count self.old.key.tree)) }
        ensures given { MatchResult result (λ _. given_of self.new ≡ given_of self.old ++ digest ∷ []) (λ _. given_of self.new ≡ given_of self.old) }
        ensures doubt { MatchResult result (λ _. self.new.doubt ≡ None) (λ fault. IsLeft self.old.doubt digest fault self.new.doubt) }
        ensures key { self.new.key ≡ self.old.key }
        ensures unspent { result ≢ Err ReserveFault.Spent }
        ensures untouched { result ≡ Err ReserveFault.NoMemory → self.new.disk ≡ self.old.disk }
        ensures moments { LeavesOnly D.moment D.left_since self.old.disk self.new.disk (RecoversWith self.old.key (given_of self.old) (DoubtOr self.old.doubt digest)) }
        ensures fault { result ≡ Err ReserveFault.DiskFault → Rose (D.faults self.old.disk) (D.faults self.new.disk) }
        ensures later { D.faults self.old.disk ≤ D.faults self.new.disk }
        ensures exact { result ≢ Err ReserveFault.DiskFault → D.faults self.new.disk ≡ D.faults self.old.disk }
        ensures loan { D.loan self.new.disk ≡ D.loan self.old.disk }
    {
        let leaf = self.given.len() as u32;
        let alloc = *self.given.allocator();
        let Ok(entry) = Record::new(alloc, &leaf_payload(leaf, &digest)) else {
            return Err(ReserveFault::NoMemory);
        };
        if self.given.reserve(1).is_err() {
            return Err(ReserveFault::NoMemory);
        }
        match self.settle() {
            Ok(()) => {}
            Err(_) => return Err(ReserveFault::DiskFault),
        }
        match self.append(digest, &entry) {
            Ok(()) => Ok(leaf),
            Err(_) => Err(ReserveFault::DiskFault),
        }
    }

    /// Reserves the next leaf for a text. After Ok each image of the disk has the leaf as given. `Spent` exactly where all leaves are
    /// used. After a fault no leaf is given, and the text comes back beside it.
    pub fn reserve(&mut self, text: Octets) -> Result<Warrant, (Octets, ReserveFault)>
        ensures reserved { IfOk result (λ w. (w.leaf ≡ length (given_of self.old)) × (w.text ≡ text) × (w.key ≡ hss_key self.old.key)) }
        ensures given { MatchResult result (λ _. given_of self.new ≡ given_of self.old ++ sha256 text ∷ []) (λ _. given_of self.new ≡ given_of self.old) }
        ensures doubt { MatchResult result (λ _. self.new.doubt ≡ None) (λ r. IsLeft self.old.doubt (sha256 text) r.1 self.new.doubt) }
        // Each image of the disk has the leaf before there is a Warrant of it.
        ensures durable { OnOk result (Every (D.images self.new.disk) (Recovers self.new.key (given_of self.new))) }
        ensures back { IfErr result (λ r. r.0 ≡ text) }
        // Spent exactly where all leaves are used.
        ensures spent { MatchResult result (λ _. length (given_of self.old) < leaf_count self.old.key.tree) (λ r. (r.1 ≡ ReserveFault.Spent) ↔ (leaf_count self.old.key.tree ≤ length (given_of self.old))) }
        // Spent and want of memory leave the disk alone.
        ensures untouched { IfErr result (λ r. r.1 ≢ ReserveFault.DiskFault → self.new.disk ≡ self.old.disk) }
        ensures key { self.new.key ≡ self.old.key }
        // A stop at any moment leaves the leaves given before, or these with one more: the one that was in doubt, or this one.
        ensures moments { LeavesOnly D.moment D.left_since self.old.disk self.new.disk (RecoversWith self.old.key (given_of self.old) (DoubtOr self.old.doubt (sha256 text))) }
        ensures fault { IfErr result (λ r. r.1 ≡ ReserveFault.DiskFault → Rose (D.faults self.old.disk) (D.faults self.new.disk)) }
        ensures later { MatchResult result (λ _. D.faults self.new.disk ≡ D.faults self.old.disk) (λ _. D.faults self.old.disk ≤ D.faults self.new.disk) }
        ensures exact { IfErr result (λ r. r.1 ≢ ReserveFault.DiskFault → D.faults self.new.disk ≡ D.faults self.old.disk) }
        ensures loan { D.loan self.new.disk ≡ D.loan self.old.disk }
    {
        if self.is_spent() {
            return Err((text, ReserveFault::Spent));
        }
        match self.give(Sha256::digest(text.as_slice())) {
            Ok(leaf) => Ok(Warrant {
                leaf,
                text,
                key: self.key.public(),
            }),
            Err(fault) => Err((text, fault)),
        }
    }
}
