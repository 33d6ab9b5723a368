//! How messages are protected.

use cmp_values::Short;

/// How a message is protected: not at all, by the MAC of a secret with a salt and a count of rounds, or by a leaf of a signer.
#[derive(Clone, Copy)]
pub enum How<'a, L> {
    Nothing,
    Mac {
        secret: Short,
        salt: [u8; 16],
        rounds: u32,
    },
    Leaf {
        signer: &'a L,
        leaf: u32,
    },
}
