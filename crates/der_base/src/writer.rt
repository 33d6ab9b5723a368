//! Elements, written one behind the other.
ghost use Rattle.std.specs.Prelude.{◌≡◌, ◌≢◌, ℕ, ◌-◌, ◌%◌, ◌^◌, ◌<◌, ◌≤◌, [], ◌∷◌, ◌++◌, length, take, drop, OnOk, OnErr};
ghost use Rattle.der_base.specs.Element.{element, length_octets};

use std::alloc::{AllocError, Global};
use std::marker::Model;

/// Octets that elements are put behind. Contracts see it as the list of them.
#[derive(Debug, Drop)]
pub struct Writer {
    bytes: Vec<u8>,
}

impl Model for Writer {
    ghost use Rattle.std.specs.Prelude.{ℕ, List};

    ghost Value = { List ℕ };

    ghost view = { λ w. w.bytes.items };
}

impl Writer {
    /// No octets. Takes no memory until some are put.
    pub fn new(alloc: Global) -> Writer
        ensures { result ≡ [] }
    {
        Writer {
            bytes: Vec::new(alloc),
        }
    }

    /// How many octets stand.
    pub fn len(&self) -> usize
        ensures { result ≡ length self.now }
    {
        self.bytes.len()
    }

    /// Puts octets as they are, as an element that was written before. After an `AllocError` the octets are as before.
    pub fn put_whole(&mut self, octets: &[u8]) -> Result<(), AllocError>
        ensures ok { OnOk result (self.new ≡ self.old ++ octets.now) }
        ensures err { OnErr result (self.new ≡ self.old) }
    {
        self.bytes.extend_from_slice(octets)
    }

    /// Puts the element of a tag and a content behind the octets (X.690, 8.1 and 10.1). After an `AllocError` the octets are
    /// as before.
    pub fn put(&mut self, tag: u8, content: &[u8]) -> Result<(), AllocError>
        requires low_tag { tag % 32 ≢ 31 }
        requires counted { length content.now < 2 ^ 32 }
        ensures ok { OnOk result (self.new ≡ self.old ++ element tag content.now) }
        ensures err { OnErr result (self.new ≡ self.old) }
    {
        let before = self.bytes.len();
        let put = put_element(&mut self.bytes, tag, content);
        if put.is_err() {
            self.bytes.truncate(before);
        }
        put
    }

    /// Makes the octets from the place `from` on the content of one element. After an `AllocError` the octets are as before.
    pub fn wrap(&mut self, tag: u8, from: usize) -> Result<(), AllocError>
        requires low_tag { tag % 32 ≢ 31 }
        requires within { from ≤ length self.old }
        requires counted { length self.old - from < 2 ^ 32 }
        ensures ok { OnOk result (self.new ≡ take from self.old ++ element tag (drop from self.old)) }
        ensures err { OnErr result (self.new ≡ self.old) }
    {
        let (front, content) = self.bytes.as_slice().split_at(from);
        let mut bytes = Vec::from_slice(*self.bytes.allocator(), front)?;
        put_element(&mut bytes, tag, content)?;
        self.bytes = bytes;
        Ok(())
    }

    /// The octets. Takes no memory.
    pub fn finish(self) -> Vec<u8>
        ensures { result.items ≡ self }
    {
        self.bytes
    }
}

/// Puts an element behind octets. An `AllocError` may leave a part of it there.
#[tactic(auto, unfolding(crate::specs::Element::element))]
fn put_element(bytes: &mut Vec<u8>, tag: u8, content: &[u8]) -> Result<(), AllocError>
    requires { length content.now < 2 ^ 32 }
    ensures ok { OnOk result (bytes.new.items ≡ bytes.old.items ++ element tag content.now) }
    ensures err { OnErr result (take (length bytes.old.items) bytes.new.items ≡ bytes.old.items) }
{
    bytes.push(tag)?;
    put_length(bytes, content.len())?;
    bytes.extend_from_slice(content)
}

/// Puts the fewest octets of a length behind octets. After an `AllocError` they are as before.
#[tactic(auto, unfolding(crate::specs::Element::length_octets))]
fn put_length(bytes: &mut Vec<u8>, size: usize) -> Result<(), AllocError>
    requires { size < 2 ^ 32 }
    ensures ok { OnOk result (bytes.new.items ≡ bytes.old.items ++ length_octets size) }
    ensures err { OnErr result (bytes.new.items ≡ bytes.old.items) }
{
    let low = (size % 256) as u8;
    if size < 128 {
        bytes.extend_from_slice(&[low])
    } else if size < 0x100 {
        bytes.extend_from_slice(&[0x81, low])
    } else if size < 0x1_0000 {
        bytes.extend_from_slice(&[0x82, (size / 0x100) as u8, low])
    } else if size < 0x100_0000 {
        bytes.extend_from_slice(&[
            0x83,
            (size / 0x1_0000) as u8,
            (size / 0x100 % 256) as u8,
            low,
        ])
    } else {
        bytes.extend_from_slice(&[
            0x84,
            (size / 0x100_0000) as u8,
            (size / 0x1_0000 % 256) as u8,
            (size / 0x100 % 256) as u8,
            low,
        ])
    }
}
