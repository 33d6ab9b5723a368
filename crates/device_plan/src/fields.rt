//! The fields of a device's headers.
ghost use Rattle.std.specs.Prelude.{◌≡◌, ◌+◌, ◌≤◌, length, take, drop, IfOk};
ghost use Rattle.pki_header.specs.Plan.{field_size};
ghost use Rattle.device_plan.specs.Plans.{list_limit};
ghost use Rattle.reply_maker.specs.Messages.{directory_name, nonce_in, salt_in};
ghost use Rattle.device_plan.specs.Speeches.{deal_by, implicit_confirm};
ghost use Rattle.device_table.specs.declared.stage.Deal.{Deal};

use asn_types::IMPLICIT_CONFIRM;
use cmp_values::Octets;
use der_base::Writer;
use device_table::Deal;
use sha2::{Digest, Sha256};
use std::alloc::{AllocError, Global};

/// A whole Name as a general name.
#[tactic(auto, using(asn_types::proofs::LengthLemmas::short))]
pub(crate) fn directory_name(alloc: Global, name: &[u8]) -> Result<Octets, AllocError>
    requires { length name.now ≤ list_limit }
    ensures written { IfOk result (λ octets. octets ≡ directory_name name.now) }
    ensures short { IfOk result (λ octets. length octets ≤ list_limit + 6) }
{
    let mut writer = Writer::new(alloc);
    writer.put(0xa4, name)?;
    Ok(Octets::of(writer.finish()))
}

/// implicitConfirm (RFC 9810, 5.1.1.1).
#[tactic(auto, using(asn_types::proofs::LengthLemmas::short))]
pub(crate) fn implicit_confirm(alloc: Global) -> Result<Octets, AllocError>
    ensures written { IfOk result (λ octets. octets ≡ implicit_confirm) }
    ensures short { IfOk result (λ octets. length octets ≤ 64) }
{
    let mut writer = Writer::new(alloc);
    writer.put(0x06, IMPLICIT_CONFIRM)?;
    writer.put(0x05, &[])?;
    writer.wrap(0x30, 0)?;
    Ok(Octets::of(writer.finish()))
}

/// The first 16 octets of 32.
fn front(octets: &[u8; 32]) -> [u8; 16]
    ensures { result ≡ take 16 octets.now }
{
    let mut front = [0u8; 16];
    front.copy_from_slice(&octets[..16]);
    front
}

/// The salt of a MAC.
pub(crate) fn salt_in(words: &[u8; 32]) -> [u8; 16]
    ensures { result ≡ salt_in words.now }
{
    let mut salt = [0u8; 16];
    salt.copy_from_slice(words.split_at(16).1);
    salt
}

/// The senderNonce of what is said with these words, 16 octets.
pub fn nonce(words: &[u8; 32]) -> [u8; 16]
    ensures { result ≡ nonce_in words.now }
{
    front(words)
}

/// The senderNonce of a message, as its header has it.
pub(crate) fn nonce_in(alloc: Global, words: &[u8; 32]) -> Result<Octets, AllocError>
    ensures written { IfOk result (λ octets. octets ≡ nonce_in words.now) }
    ensures short { IfOk result (λ octets. length octets ≤ 64) }
{
    Octets::copy_of(alloc, &front(words))
}

/// The transaction that begins with the words that were drawn for its first message: its transactionID, 16 octets of their SHA-256, and
/// the senderNonce of that message.
pub fn deal(words: &[u8; 32]) -> Deal
    ensures { result ≡ deal_by words.now }
{
    let digest = Sha256::digest(words.as_slice());
    Deal {
        tid: front(&digest),
        nonce: front(words),
    }
}
