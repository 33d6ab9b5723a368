//! The fields of an answer's header.
ghost use Rattle.std.specs.Prelude.{◌≡◌, ℕ, ◌+◌, ◌≤◌, [], length, take, drop, option_map, IfOk, IfSome};
ghost use Rattle.std.specs.Option.{option_copied};
ghost use Rattle.der_base.specs.Element.{element};
ghost use Rattle.pki_header.specs.Plan.{field_size};
ghost use Rattle.cert_maker.specs.Plans.{ca_name};
ghost use Rattle.reply_maker.specs.Messages.{directory_name, recipient_for, nonce_in, salt_in};

use asn_types::write_cn;
use cmp_ports::{Octets, Short};
use deal_model::Brief;
use der_base::Writer;
use std::alloc::{AllocError, Global};

/// A whole Name as a general name.
#[tactic(auto, using(asn_types::proofs::LengthLemmas::short))]
pub(crate) fn directory_name(alloc: Global, name: &[u8]) -> Result<Octets, AllocError>
    requires { length name.now ≤ 128 }
    ensures written { IfOk result (λ octets. octets ≡ directory_name name.now) }
    ensures short { IfOk result (λ octets. length octets ≤ 160) }
{
    let mut writer = Writer::new(alloc);
    writer.put(0xa4, name)?;
    Ok(Octets::of(writer.finish()))
}

/// The authority's Name.
#[tactic(auto, using(asn_types::proofs::LengthLemmas::short))]
pub(crate) fn ca_name(alloc: Global, keys: &Brief) -> Result<Octets, AllocError>
    ensures written { IfOk result (λ octets. octets ≡ ca_name keys.now) }
    ensures short { IfOk result (λ octets. length octets ≤ 128) }
{
    write_cn(alloc, keys.name.as_slice())
}

/// The authority's name as a general name.
pub(crate) fn authority(alloc: Global, keys: &Brief) -> Result<Octets, AllocError>
    ensures written { IfOk result (λ octets. octets ≡ directory_name (ca_name keys.now)) }
    ensures short { IfOk result (λ octets. length octets ≤ 160) }
{
    let name = ca_name(alloc, keys)?;
    directory_name(alloc, name.as_slice())
}

/// A general name without a name in it.
#[tactic(auto, using(asn_types::proofs::LengthLemmas::short))]
fn nobody(alloc: Global) -> Result<Octets, AllocError>
    ensures written { IfOk result (λ octets. octets ≡ directory_name (element 0x30 [])) }
    ensures short { IfOk result (λ octets. length octets ≤ 160) }
{
    let mut writer = Writer::new(alloc);
    writer.put(0x30, &[])?;
    writer.wrap(0xa4, 0)?;
    Ok(Octets::of(writer.finish()))
}

/// Whom an answer is for: the sender, or nobody where there is none.
pub(crate) fn recipient_for(alloc: Global, sender: &[u8]) -> Result<Octets, AllocError>
    ensures written { IfOk result (λ octets. octets ≡ recipient_for sender.now) }
    ensures short { IfOk result (λ octets. length octets ≤ length sender.now + 160) }
{
    if sender.is_empty() {
        nobody(alloc)
    } else {
        Octets::copy_of(alloc, sender)
    }
}

/// A field of an answer, where there is one.
pub(crate) fn field(alloc: Global, short: &Option<Short>) -> Result<Option<Octets>, AllocError>
    ensures written { IfOk result (λ octets. octets ≡ short.now) }
    ensures short { IfOk result (λ octets. field_size octets ≤ 64) }
{
    match short {
        None => Ok(None),
        Some(short) => Ok(Some(Octets::copy_of(alloc, short.as_slice())?)),
    }
}

/// The senderNonce of an answer.
pub(crate) fn nonce_in(alloc: Global, words: &[u8; 32]) -> Result<Octets, AllocError>
    ensures written { IfOk result (λ octets. octets ≡ nonce_in words.now) }
    ensures short { IfOk result (λ octets. length octets ≤ 64) }
{
    Octets::copy_of(alloc, &words[..16])
}

/// The salt of an answer's MAC.
pub(crate) fn salt_in(words: &[u8; 32]) -> [u8; 16]
    ensures { result ≡ salt_in words.now }
{
    let mut salt = [0u8; 16];
    salt.copy_from_slice(words.split_at(16).1);
    salt
}
