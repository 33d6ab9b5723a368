//! The compression of four blocks.
ghost use Rattle.std.specs.Prelude.{◌≡◌, ℕ, ◌<◌, List};
ghost use Rattle.sha2.specs.Sha256.{compress, first_words, rounds, schedule};
ghost use Rattle.sha_lanes.specs.Lanes.{lane};

use crate::rounds::{add_state, eleven_steps, first_sixteen_steps, sixteen_steps};
use std::simd::u32x4;

/// Compresses a block in each lane into the hash value in that lane (FIPS 180-4, 6.2.2).
/// A hash value is 8 words, and a block is given by its 16 words, high octet first.
pub fn compress4(state: [u32x4; 8], words: &[u32x4; 16]) -> [u32x4; 8]
    ensures { (i : ℕ) (b : List ℕ) → i < 4 → lane i words.now ≡ first_words b 16
        → lane i result ≡ compress (lane i state) b }
{
    let mut window = *words;
    let v = first_sixteen_steps(&window, state);
    let v = sixteen_steps(&mut window, v, 1);
    let v = sixteen_steps(&mut window, v, 2);
    let v = sixteen_steps(&mut window, v, 3);
    add_state(state, v)
}

// The same from the working variables after five rounds on.
#[inline(always)]
pub(crate) fn compress_rest(
    state: [u32x4; 8],
    started: [u32x4; 8],
    words: &[u32x4; 16],
) -> [u32x4; 8]
    ensures { (i : ℕ) (b : List ℕ) → i < 4 → lane i words.now ≡ first_words b 16
        → lane i started ≡ rounds (lane i state) (schedule b 48) 5 → lane i result ≡ compress (lane i state) b }
{
    let mut window = *words;
    let v = eleven_steps(&window, started);
    let v = sixteen_steps(&mut window, v, 1);
    let v = sixteen_steps(&mut window, v, 2);
    let last = sixteen_steps(&mut window, v, 3);
    add_state(state, last)
}
