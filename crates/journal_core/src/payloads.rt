//! The payloads of a log, in their order.
ghost use Rattle.std.specs.Prelude.{◌≡◌, length};

use cmp_ports::Octets;
use std::marker::Model;

/// A list of payloads. Contracts see it as the list of their octets.
#[derive(Debug, Drop)]
pub struct Payloads {
    items: Vec<Octets>,
}

impl Model for Payloads {
    ghost use Rattle.std.specs.Prelude.{ℕ, List};

    ghost Value = { List (List ℕ) };

    ghost view = { λ p. p.items.items };
}

impl Payloads {
    /// These payloads. Takes no memory.
    pub fn of(items: Vec<Octets>) -> Payloads
        ensures { result ≡ items.items }
    {
        Payloads { items }
    }

    /// The payloads, the first one first.
    pub fn as_slice(&self) -> &[Octets]
        ensures { result.now ≡ self.now }
    {
        self.items.as_slice()
    }

    /// How many payloads there are.
    pub fn len(&self) -> usize
        ensures { result ≡ length self.now }
    {
        self.items.len()
    }

    /// The payloads as the `Vec` that holds them. Takes no memory.
    pub fn into_vec(self) -> Vec<Octets>
        ensures { result.items ≡ self }
    {
        self.items
    }
}
