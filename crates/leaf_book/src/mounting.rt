//! Mounts the leaf book that a disk holds, or founds it.
ghost use Rattle.std.specs.Prelude.{◌≡◌, ◌≢◌, ◌⊎◌, ◌↔◌, ◌≤◌, ℕ, List, [], ◌∷◌, length, Some, None, Err, true, IfOk, IfErr, IsErrOf, IsTrue, MatchResult};
ghost use Rattle.cmp_ports.specs.Disk.{Among, Every, LeavesOnly};
ghost use Rattle.cmp_ports.specs.Faults.{Rose};
ghost use Rattle.journal_core.specs.Log.{is_founded};
ghost use Rattle.journal_core.specs.Journal.{IsAtRest};
ghost use Rattle.leaf_book.specs.Leaves.{magic, payloads_of, secret, lms_key, AreDigests, IsOwnSet};
ghost use Rattle.leaf_book.specs.Mounted.{Opens, Bars, IsRefusal, IsBegun};
ghost use Rattle.leaf_book.specs.Images.{Recovers};
ghost use Rattle.leaf_book.specs.Calls.{given_of};

use crate::book::LeafBook;
use crate::fault::BookFault;
use crate::payloads::key_payload;
use crate::reading::read_book;
use cmp_ports::Disk;
use hss_sig::{LeafSigner, OneLevel};
use journal_core::{BeginFault, Journal, MountFault, PrepareFault};
use lms_tree::{GrowFault, Set};
use std::alloc::Global;

/// The first seven octets behind the first gate.
const MAGIC: [u8; 7] = *b"CMPLEAF";

/// Whether a book may have these sets.
fn is_own(set: Set) -> bool
    ensures { IsTrue result ↔ ((5 ≤ set.tree) × (set.tree ≤ 7) × (1 ≤ set.ots) × (set.ots ≤ 4)) }
{
    set.tree >= 5 && set.tree <= 7 && set.ots >= 1 && set.ots <= 4
}

/// The key, where a book may have its sets. These are looked at before the tree is grown.
fn own_key(alloc: Global, seed: &[u8; 32], id: &[u8; 16], set: Set) -> Result<OneLevel, BookFault>
    ensures key { IfOk result (λ key. (key ≡ secret seed.now id.now set) × IsOwnSet key) }
    ensures bad_set { MatchResult result (λ _. IsOwnSet (secret seed.now id.now set)) (λ fault. (fault ≡ BookFault.BadSet) ↔ (IsOwnSet (secret seed.now id.now set) → ⊥)) }
    ensures other { IfErr result (λ fault. (fault ≡ BookFault.BadSet) ⊎ (fault ≡ BookFault.NoMemory)) }
{
    if !is_own(set) {
        return Err(BookFault::BadSet);
    }
    match OneLevel::grow(alloc, seed, id, set) {
        Ok(key) => Ok(key),
        Err(GrowFault::BadSet) => unreachable!(),
        Err(GrowFault::NoMemory) => Err(BookFault::NoMemory),
    }
}

/// The LMS public key (RFC 8554, 5.3).
fn lms_key(key: &OneLevel) -> [u8; 56]
    ensures value { result ≡ lms_key key.now }
    ensures size { length (lms_key key.now) ≡ 56 }
{
    let public = key.public();
    let mut octets = [0u8; 56];
    octets.copy_from_slice(public.split_at(4).1);
    octets
}

/// Why a log isn't begun.
#[derive(Clone, Copy)]
pub(crate) enum Unbegun {
    /// The disk is founded.
    Founded,
    /// It failed.
    DiskFault,
    /// Memory ran out.
    NoMemory,
}

/// Begins the log of a book that has given no leaf, on a disk that isn't founded.
fn begin<D: Disk>(alloc: Global, disk: &mut D, key: &OneLevel) -> Result<Journal, Unbegun>
    ensures founded { (f : List ℕ) → D.content disk.old ≡ Some f → IsErrOf result Unbegun.Founded → is_founded f ≡ true }
    ensures begun { IfOk result (λ j. IsAtRest magic (payloads_of (lms_key key.now) []) j (D.images disk.new)) }
    ensures moments { LeavesOnly D.moment D.left_since disk.old disk.new (IsBegun (D.images disk.old) key.now) }
    ensures same { IsErrOf result Unbegun.Founded → D.content disk.new ≡ D.content disk.old }
    ensures crash { IsErrOf result Unbegun.Founded → Among (D.images disk.old) (D.images disk.new) }
    ensures untouched { IsErrOf result Unbegun.Founded → LeavesOnly D.moment D.left_since disk.old disk.new (D.images disk.old) }
    ensures fault { IsErrOf result Unbegun.DiskFault → Rose (D.faults disk.old) (D.faults disk.new) }
    ensures later { D.faults disk.old ≤ D.faults disk.new }
    ensures exact { result ≢ Err Unbegun.DiskFault → D.faults disk.new ≡ D.faults disk.old }
    ensures loan { D.loan disk.new ≡ D.loan disk.old }
{
    match Journal::prepare(disk) {
        Ok(()) => {}
        Err(PrepareFault::Already) => return Err(Unbegun::Founded),
        Err(PrepareFault::DiskFault) => return Err(Unbegun::DiskFault),
    }
    match Journal::found(alloc, disk, &MAGIC, &key_payload(&lms_key(key))) {
        Ok(journal) => Ok(journal),
        Err(BeginFault::DiskFault) => Err(Unbegun::DiskFault),
        Err(BeginFault::NoMemory) => Err(Unbegun::NoMemory),
    }
}

/// What the book on a disk has given, with its journal. Where the disk isn't founded a book is begun on it. One that someone else
/// founded between the two looks is told as damaged at its first gate.
fn open<D: Disk>(
    alloc: Global,
    disk: &mut D,
    key: &OneLevel,
) -> Result<(Journal, Vec<[u8; 32]>), BookFault>
    ensures told { (f : List ℕ) → D.content disk.old ≡ Some f → MatchResult result (λ r. Opens key.now f r.1.items) (λ fault. Bars key.now f fault) }
    ensures set { result ≢ Err BookFault.BadSet }
    ensures rest { IfOk result (λ r. IsAtRest magic (payloads_of (lms_key key.now) r.1.items) r.0 (D.images disk.new)) }
    ensures digests { IfOk result (λ r. AreDigests r.1.items) }
    ensures size { length (lms_key key.now) ≡ 56 }
    ensures moments { LeavesOnly D.moment D.left_since disk.old disk.new (IsBegun (D.images disk.old) key.now) }
    ensures refused { IfErr result (λ fault. IsRefusal fault → (D.content disk.new ≡ D.content disk.old) × Among (D.images disk.old) (D.images disk.new) × LeavesOnly D.moment D.left_since disk.old disk.new (D.images disk.old)) }
    ensures spared { (f : List ℕ) → D.content disk.old ≡ Some f → is_founded f ≡ true
        → (D.content disk.new ≡ D.content disk.old) × Among (D.images disk.old) (D.images disk.new) × LeavesOnly D.moment D.left_since disk.old disk.new (D.images disk.old) }
    ensures fault { result ≡ Err BookFault.DiskFault → Rose (D.faults disk.old) (D.faults disk.new) }
    ensures later { D.faults disk.old ≤ D.faults disk.new }
    ensures exact { result ≢ Err BookFault.DiskFault → D.faults disk.new ≡ D.faults disk.old }
    ensures loan { D.loan disk.new ≡ D.loan disk.old }
{
    let public = lms_key(key);
    match Journal::mount(alloc, disk, &MAGIC) {
        Ok((journal, payloads)) => match read_book(alloc, payloads.as_slice(), &public) {
            Ok(given) => Ok((journal, given)),
            Err(fault) => Err(fault),
        },
        Err(MountFault::NotFounded) => match begin(alloc, disk, key) {
            Ok(journal) => Ok((journal, Vec::new(alloc))),
            Err(Unbegun::Founded) => Err(BookFault::Damaged { at: 0 }),
            Err(Unbegun::DiskFault) => Err(BookFault::DiskFault),
            Err(Unbegun::NoMemory) => Err(BookFault::NoMemory),
        },
        Err(MountFault::Damaged { at }) => Err(BookFault::Damaged { at }),
        Err(MountFault::DiskFault) => Err(BookFault::DiskFault),
        Err(MountFault::NoMemory) => Err(BookFault::NoMemory),
    }
}

impl<D: Disk> LeafBook<D> {
    /// Mounts the book of this key that a disk holds, or founds it where the disk has under nine octets or its first octet isn't 1.
    /// `BadSet` exactly where the tree's typecode isn't 5, 6 or 7 or that of the one-time keys isn't 1 to 4. `Damaged` where the log
    /// is damaged, with the journal's offset; or where a payload isn't the next of a book, with the offset of its gate; or where
    /// there is no payload, with the offset 8. `KeyMismatch` where the book has another key. The disk comes back beside a fault.
    pub fn mount(
        alloc: Global,
        disk: D,
        seed: &[u8; 32],
        id: &[u8; 16],
        set: Set,
    ) -> Result<LeafBook<D>, (D, BookFault)>
        // The leaves that the content's book has given, or why there is none.
        ensures told { (f : List ℕ) → D.content disk ≡ Some f → MatchResult result (λ b. Opens b.key f (given_of b)) (λ r. Bars (secret seed.now id.now set) f r.1) }
        ensures key { IfOk result (λ b. b.key ≡ secret seed.now id.now set) }
        ensures clear { IfOk result (λ b. b.doubt ≡ None) }
        // Each image of the disk recovers to the book.
        ensures stands { IfOk result (λ b. Every (D.images b.disk) (Recovers b.key (given_of b))) }
        // The sets are looked at before all else.
        ensures bad_set { MatchResult result (λ _. IsOwnSet (secret seed.now id.now set)) (λ r. (r.1 ≡ BookFault.BadSet) ↔ (IsOwnSet (secret seed.now id.now set) → ⊥)) }
        ensures unread { IfErr result (λ r. r.1 ≡ BookFault.BadSet → r.0 ≡ disk) }
        // A refusal leaves content and images as they were.
        ensures refused { IfErr result (λ r. IsRefusal r.1 → (D.content r.0 ≡ D.content disk) × Among (D.images disk) (D.images r.0) × LeavesOnly D.moment D.left_since disk r.0 (D.images disk)) }
        // A founded disk stays as it was, whatever the answer.
        ensures spared { MatchResult result (λ b. (f : List ℕ) → D.content disk ≡ Some f → is_founded f ≡ true
            → (D.content b.disk ≡ D.content disk) × Among (D.images disk) (D.images b.disk) × LeavesOnly D.moment D.left_since disk b.disk (D.images disk)) (λ r. (f : List ℕ) → D.content disk ≡ Some f → is_founded f ≡ true
            → (D.content r.0 ≡ D.content disk) × Among (D.images disk) (D.images r.0) × LeavesOnly D.moment D.left_since disk r.0 (D.images disk)) }
        // A stop at any moment leaves an image from before the call, a disk that isn't founded, or a book that has given no leaf.
        ensures moments { MatchResult result (λ b. LeavesOnly D.moment D.left_since disk b.disk (IsBegun (D.images disk) b.key)) (λ r. LeavesOnly D.moment D.left_since disk r.0 (IsBegun (D.images disk) (secret seed.now id.now set))) }
        ensures fault { IfErr result (λ r. r.1 ≡ BookFault.DiskFault → Rose (D.faults disk) (D.faults r.0)) }
        ensures later { MatchResult result (λ b. D.faults b.disk ≡ D.faults disk) (λ r. D.faults disk ≤ D.faults r.0) }
        ensures exact { IfErr result (λ r. r.1 ≢ BookFault.DiskFault → D.faults r.0 ≡ D.faults disk) }
        ensures loan { MatchResult result (λ b. D.loan b.disk ≡ D.loan disk) (λ r. D.loan r.0 ≡ D.loan disk) }
    {
        let key = match own_key(alloc, seed, id, set) {
            Ok(key) => key,
            Err(fault) => return Err((disk, fault)),
        };
        let mut disk = disk;
        match open(alloc, &mut disk, &key) {
            Ok((journal, given)) => Ok(LeafBook {
                disk,
                journal,
                key,
                given,
                doubt: None,
            }),
            Err(fault) => Err((disk, fault)),
        }
    }
}
