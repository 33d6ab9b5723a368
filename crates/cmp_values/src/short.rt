//! A list of at most 64 octets in a fixed array, which takes no memory of its own.
ghost use Rattle.std.specs.Prelude.{◌≡◌, ◌==◌, ◌≤◌, ◌↔◌, [], length, nat_eq, IsSome, IfSome, IsTrue};
ghost use Rattle.std.specs.Cmp.{partial_equiv_from_equiv};
ghost use Rattle.std.specs.Cmp.Lexicographic.{pointwise, nat_list_eq_equiv};

use std::marker::Model;

/// The most octets that a `Short` holds.
pub const SHORT_LIMIT: usize = 64;

/// A list of 0 to 64 octets, as an identifier, a nonce, a salt or a secret. Contracts see it as the list.
#[derive(Clone, Copy, Debug)]
pub struct Short {
    octets: [u8; 64],
    len: usize,
}

impl Model for Short {
    ghost use Rattle.std.specs.Prelude.{ℕ, List, ◌++◌, ◌-◌, length, take, replicate};

    ghost Value = { List ℕ };

    ghost use Rattle.cmp_values.specs.Filled.{IsFilled};
    ghost use Rattle.cmp_values.specs.Filled.{filled_octets, filled_len};

    ghost view = { λ s. take s.len s.octets };

    ghost invariant = { λ s. IsFilled s.octets s.len };

    ghost inverse = { λ list. record { octets = list ++ replicate (64 - length list) 0; len = length list } };

    ghost inverse_ok = { λ a h i. record { octets = filled_octets a.octets a.len h i; len = filled_len a.octets a.len h i } };
}

impl Short {
    /// No octets.
    pub fn empty() -> Short
        ensures { result ≡ [] }
    {
        Short {
            octets: [0; 64],
            len: 0,
        }
    }

    /// These octets, where there are at most 64.
    pub fn of(bytes: &[u8]) -> Option<Short>
        ensures fits { IsSome result ↔ (length bytes.now ≤ 64) }
        ensures value { IfSome result (λ short. short ≡ bytes.now) }
    {
        if bytes.len() > SHORT_LIMIT {
            return None;
        }
        let mut octets = [0u8; 64];
        octets[..bytes.len()].copy_from_slice(bytes);
        Some(Short {
            octets,
            len: bytes.len(),
        })
    }

    /// The octets, borrowed.
    pub fn as_slice(&self) -> &[u8]
        ensures value { result.now ≡ self.now }
        ensures bound { length result.now ≤ 64 }
    {
        &self.octets[..self.len]
    }

    /// How many octets there are: 0 to 64.
    pub fn len(&self) -> usize
        ensures value { result ≡ length self.now }
        ensures bound { result ≤ 64 }
    {
        self.len
    }

    /// Whether these are the octets.
    pub fn is(&self, bytes: &[u8]) -> bool
        ensures { IsTrue result ↔ (self.now ≡ bytes.now) }
    {
        self.as_slice() == bytes
    }

    /// Whether there are no octets.
    pub fn is_empty(&self) -> bool
        ensures { result ≡ (length self.now == 0) }
    {
        self.len == 0
    }
}

impl PartialEq for Short {
    ghost eq = { pointwise nat_eq };

    ghost laws = { partial_equiv_from_equiv nat_list_eq_equiv };

    fn eq(&self, other: &Self) -> bool {
        self.as_slice() == other.as_slice()
    }
}

impl Eq for Short {
    ghost laws = { nat_list_eq_equiv };
}
