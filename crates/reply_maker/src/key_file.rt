//! The file of the private keys of an authority.
ghost use Rattle.std.specs.Prelude.{◌≡◌, ◌≢◌, ◌+◌, ◌≤◌, length, take, drop, MatchOption, Err, IsErrOf};
ghost use Rattle.cmp_ports.specs.Faults.{Rose};
ghost use Rattle.cmp_ports.specs.Whole.{TakesUpTo};
ghost use Rattle.reply_maker.specs.KeyFile.{IsKeyFile};
ghost use Rattle.reply_maker.specs.Keys.{LeavesRest};
ghost use Rattle.reply_maker.specs.Parts.{HasParts, IsRead};

use cmp_ports::{ReadError, Source, read_up_to};
use std::alloc::{AllocError, Global};

/// How many octets a key file has.
const KEY_FILE_SIZE: usize = 96;

/// Why no keys were loaded.
#[derive(Clone, Copy, Debug, PartialEq, Eq)]
pub enum KeyFault {
    /// The source of the key file failed.
    ReadFault,
    /// The key file has not 96 octets, its identifiers are the same, or one is all zeros.
    BadKeyFile,
    /// The key file is that of another authority.
    KeyMismatch {
        /// The identity of the key file.
        file: [u8; 96],
        /// The identity that the journal was founded with.
        journal: [u8; 96],
    },
    /// Memory ran out.
    NoMemory,
}

impl From<AllocError> for KeyFault {
    ghost use Rattle.reply_maker.specs.declared.key_file.KeyFault.{KeyFault};

    ghost from_gives = { λ _ f. f ≡ KeyFault.NoMemory };

    fn from(_: AllocError) -> KeyFault {
        KeyFault::NoMemory
    }
}

/// The seed and the identifier of a tree (RFC 8554, 5.2 and appendix A).
#[derive(Clone, Copy)]
pub(crate) struct Part {
    pub(crate) seed: [u8; 32],
    pub(crate) id: [u8; 16],
}

/// The parts of a key file.
#[derive(Clone, Copy)]
pub(crate) struct KeyFile {
    pub(crate) issue: Part,
    pub(crate) reply: Part,
}

/// The part that begins at a place.
fn part_at(octets: &[u8], place: usize) -> Part
    requires { place + 48 ≤ length octets.now }
    ensures seed { result.seed ≡ take 32 (drop place octets.now) }
    ensures id { result.id ≡ take 16 (drop (place + 32) octets.now) }
{
    let mut seed = [0u8; 32];
    let mut id = [0u8; 16];
    seed.copy_from_slice(&octets[place..place + 32]);
    id.copy_from_slice(&octets[place + 32..place + 48]);
    Part { seed, id }
}

/// The parts of a key file; none where the octets are no key file.
fn parts_of(octets: &[u8]) -> Option<KeyFile>
    ensures { MatchOption result (IsKeyFile octets.now → ⊥) (HasParts octets.now) }
{
    if octets.len() != KEY_FILE_SIZE {
        return None;
    }
    let issue = part_at(octets, 0);
    let reply = part_at(octets, 48);
    if issue.id == reply.id || issue.id == [0; 16] || reply.id == [0; 16] {
        return None;
    }
    Some(KeyFile { issue, reply })
}

/// Reads a key file to its end, at most one octet past its size.
pub(crate) fn read_key_file<K: Source>(alloc: Global, key: &mut K) -> Result<KeyFile, KeyFault>
    ensures read { IsRead (K.left key.old) result }
    ensures within { TakesUpTo 97 (K.left key.old) (K.left key.new) }
    ensures rest { LeavesRest (K.left key.old) (K.left key.new) result }
    ensures later { K.faults key.old ≤ K.faults key.new }
    ensures kept { result ≢ Err KeyFault.ReadFault → K.faults key.new ≡ K.faults key.old }
    ensures fault { IsErrOf result KeyFault.ReadFault → Rose (K.faults key.old) (K.faults key.new) }
{
    match read_up_to(alloc, key, KEY_FILE_SIZE) {
        Ok(octets) => match parts_of(octets.as_slice()) {
            Some(parts) => Ok(parts),
            None => Err(KeyFault::BadKeyFile),
        },
        Err(ReadError::Fault) => Err(KeyFault::ReadFault),
        Err(ReadError::NoMemory) => Err(KeyFault::NoMemory),
    }
}
