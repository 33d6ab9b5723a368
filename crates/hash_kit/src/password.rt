//! PBKDF2 with HMAC-SHA-256, for a key of one block (RFC 8018, 5.2).

ghost use Rattle.std.specs.Prelude.{◌≡◌, ℕ, List, ◌≤◌, ◌<◌};
ghost use Rattle.hash_kit.specs.Pbkdf2.{pbkdf2, block_xor};

use crate::keyed::Keyed;

/// The number of the only block, in four octets, the highest first (RFC 8018, 5.2, step 3).
const FIRST_BLOCK: [u8; 4] = [0, 0, 0, 1];

/// Combines a block with another by exclusive or, octet by octet.
#[tactic(auto, using(crate::proofs::BlockLemmas::is_xor))]
fn combine(block: &mut [u8; 32], other: &[u8; 32])
    ensures { block.new ≡ block_xor block.old other.now }
{
    for i in 0..32 {
        block[i] ^= other[i];
    }
}

/// The key of 32 octets that PBKDF2 with HMAC-SHA-256 makes of a secret and a salt (RFC 8018, 5.2).
/// `rounds` is the standard's iteration count c. A round costs two compressions and no memory.
#[tactic(auto, unfolding(crate::specs::Pbkdf2::turn, crate::specs::Pbkdf2::combined))]
pub fn pbkdf2_256(secret: &[u8], salt: &[u8], rounds: u32) -> [u8; 32]
    requires { 1 ≤ rounds }
    ensures { result ≡ pbkdf2 secret.now salt.now rounds }
{
    let keyed = Keyed::new(secret);
    let mut turn = keyed.mac(salt, &FIRST_BLOCK);
    let mut block = turn;
    for n in 0..rounds - 1 {
        turn = keyed.mac(&turn, &[]);
        combine(&mut block, &turn);
    }
    block
}
