// The chains of a one-time key (RFC 8554, 4.3, 4.5 and 4.6).

ghost use Rattle.std.specs.Prelude.{◌≡◌, ℕ, List, ◌≤◌, ◌<◌, take, drop};
ghost use Rattle.lm_ots.specs.Chains.{prefix, chain, secret};

use crate::message::{advance, step_message};

// Takes the steps from `from` up to `to` on a chain's message.
fn walk(message: &mut [u8; 55], from: u32, to: u32)
    requires { to ≤ 255 }
    ensures front { take 22 message.new ≡ take 22 message.old }
    ensures value { (id : List ℕ) (q i : ℕ) → take 22 message.old ≡ prefix id q i
        → drop 23 message.new ≡ chain id q i from to (drop 23 message.old) }
{
    for j in from..to {
        advance(message, j as u8);
    }
}

// The value of a message.
fn value_of(message: &[u8; 55]) -> [u8; 32]
    ensures { result ≡ drop 23 message.now }
{
    let (_, octets) = message.split_at(23);
    let mut value = [0u8; 32];
    value.copy_from_slice(octets);
    value
}

/// Chain `i` of one-time key `q` from place `from`, where it has the value `start`, to place `to`.
/// It stays where it is if `to` is not after `from`.
pub fn chain(id: &[u8; 16], q: u32, i: u16, from: u32, to: u32, start: &[u8; 32]) -> [u8; 32]
    requires { to ≤ 255 }
    ensures { result ≡ chain id.now q i from to start.now }
{
    let mut message = step_message(id, q, i, start);
    walk(&mut message, from, to);
    value_of(&message)
}

/// Chain `i` of one-time key `q` from its private value to place `to`.
pub fn secret_chain(seed: &[u8; 32], id: &[u8; 16], q: u32, i: u16, to: u32) -> [u8; 32]
    requires { to ≤ 255 }
    ensures { result ≡ chain id.now q i 0 to (secret seed.now id.now q i) }
{
    let mut message = step_message(id, q, i, seed);
    advance(&mut message, 0xff);
    walk(&mut message, 0, to);
    value_of(&message)
}
