// The messages that are hashed. Each begins with the identifier, a number and a kind.

ghost use Rattle.std.specs.Prelude.{◌≡◌, ◌+◌, ◌≤◌, ◌++◌, ◌∷◌, length, take, drop};
ghost use Rattle.sha2.specs.Hashers.{Holds256};
ghost use Rattle.sha2.specs.Sha256.{sha256};
ghost use Rattle.lm_ots.specs.Chains.{prefix};

use sha2::{Digest, Sha256};

/// A hasher that holds the beginning of a message: `id`, `n` as four octets and `kind` as two
/// (RFC 8554, 7.1). Takes no memory.
pub fn opened(id: &[u8; 16], n: u32, kind: u16) -> Sha256
    ensures { Holds256 result (prefix id.now n kind) }
{
    let mut hasher = Sha256::new();
    hasher.update(id);
    hasher.update(&n.to_be_bytes());
    hasher.update(&kind.to_be_bytes());
    hasher
}

// Writes `part` into a message at place `at`.
#[inline(always)]
fn put(message: &mut [u8; 55], at: usize, part: &[u8])
    requires { at + length part.now ≤ 55 }
    ensures { message.new ≡ take at message.old ++ part.now ++ drop (at + length part.now) message.old }
{
    message[at..at + part.len()].copy_from_slice(part);
}

// The message of a chain's step, 55 octets, which fill one block of SHA-256: the beginning, the
// step's number and a value. The beginning is written once a chain.
pub(crate) fn step_message(id: &[u8; 16], q: u32, i: u16, value: &[u8; 32]) -> [u8; 55]
    ensures front { take 22 result ≡ prefix id.now q i }
    ensures value { drop 23 result ≡ value.now }
{
    let mut message = [0u8; 55];
    put(&mut message, 0, id);
    put(&mut message, 16, &q.to_be_bytes());
    put(&mut message, 20, &i.to_be_bytes());
    put(&mut message, 23, value);
    message
}

// Puts the hash of the message with the step's number `j` in the place of its value.
#[inline(always)]
pub(crate) fn advance(message: &mut [u8; 55], j: u8)
    ensures front { take 22 message.new ≡ take 22 message.old }
    ensures value { drop 23 message.new ≡ sha256 (take 22 message.old ++ j ∷ drop 23 message.old) }
{
    message[22] = j;
    let digest = Sha256::digest(&message[..]);
    put(message, 23, &digest);
}
