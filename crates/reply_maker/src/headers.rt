//! The headers of replies (RFC 9810, 5.1.1).
ghost use Rattle.std.specs.Prelude.{◌≡◌, ◌≢◌, ℕ, ◌+◌, ◌%◌, ◌^◌, ◌<◌, ◌≤◌, ◌++◌, ◌∷◌, [], length, Some, None, IfOk};
ghost use Rattle.std.specs.Option.{option_copied};
ghost use Rattle.der_base.specs.Element.{element};
ghost use Rattle.asn_types.specs.Oids.{dotted};
ghost use Rattle.cert_maker.specs.Moments.{generalized_of};
ghost use Rattle.cert_maker.specs.Plans.{reply_name};
ghost use Rattle.cert_maker.specs.Certificates.{AreFounding};
ghost use Rattle.deal_changes.specs.Times.{time_of_change};
ghost use Rattle.pki_header.specs.Plan.{field_size, plan_size};
ghost use Rattle.reply_maker.specs.Messages.{directory_name, recipient_for, nonce_in};
ghost use Rattle.reply_maker.specs.Replies.{info_octets, granted_info, reply_info, reference_of, sender_for, kid_for, reply_header};

use crate::fields::{authority, directory_name, nonce_in, recipient_for};
use asn_types::{CONFIRM_WAIT_TIME, IMPLICIT_CONFIRM, key_id, write_cn};
use cmp_ports::Octets;
use cmp_time::generalized;
use deal_model::{Brief, Change, Stamp, Who};
use der_base::Writer;
use pki_header::HeaderPlan;
use std::alloc::{AllocError, Global};

/// An InfoTypeAndValue, with a value in the element of this tag.
#[tactic(auto, using(asn_types::proofs::LengthLemmas::short))]
fn info(alloc: Global, oid: &[u8], tag: u8, value: &[u8]) -> Result<Octets, AllocError>
    requires low { tag % 32 ≢ 31 }
    requires oid { length oid.now ≤ 16 }
    requires counted { length value.now ≤ 32 }
    ensures written { IfOk result (λ octets. octets ≡ element 0x30 (element 0x06 oid.now ++ element tag value.now)) }
    ensures short { IfOk result (λ octets. length octets ≤ 128) }
{
    let mut writer = Writer::new(alloc);
    writer.put(0x06, oid)?;
    writer.put(tag, value)?;
    writer.wrap(0x30, 0)?;
    Ok(Octets::of(writer.finish()))
}

/// implicitConfirm (RFC 9810, 5.1.1.1).
fn implicit_confirm(alloc: Global) -> Result<Octets, AllocError>
    ensures written { IfOk result (λ octets. octets ≡ info_octets 13 (element 0x05 [])) }
    ensures short { IfOk result (λ octets. length octets ≤ 128) }
{
    info(alloc, IMPLICIT_CONFIRM, 0x05, &[])
}

/// The GeneralizedTime of a second.
#[tactic(auto, using(x509_cert::proofs::ValidityLemmas::generalized_length))]
fn time_text(alloc: Global, time: u64) -> Result<Octets, AllocError>
    requires { time ≤ 253_402_300_799 }
    ensures written { IfOk result (λ text. text ≡ generalized_of time) }
    ensures short { IfOk result (λ text. length text ≤ 32) }
{
    let text = generalized(alloc, time)?;
    Ok(Octets::of(text.into_vec()))
}

/// confirmWaitTime (RFC 9810, 5.1.1.2): until this second.
fn confirm_wait_time(alloc: Global, time: u64) -> Result<Octets, AllocError>
    requires { time ≤ 253_402_300_799 }
    ensures written { IfOk result (λ octets. octets ≡ info_octets 14 (element 0x18 (generalized_of time))) }
    ensures short { IfOk result (λ octets. length octets ≤ 128) }
{
    let text = time_text(alloc, time)?;
    info(alloc, CONFIRM_WAIT_TIME, 0x18, text.as_slice())
}

/// Until when a certificate waits for its confirmation.
fn granted_info(
    alloc: Global,
    keys: &Brief,
    time: u64,
    implicit: bool,
) -> Result<Octets, AllocError>
    requires founding { AreFounding keys.now }
    requires time { time ≤ 250_000_000_000 }
    ensures written { IfOk result (λ octets. octets ≡ granted_info keys.now time implicit) }
    ensures short { IfOk result (λ octets. length octets ≤ 128) }
{
    if implicit {
        implicit_confirm(alloc)
    } else {
        confirm_wait_time(alloc, time + u64::from(keys.wait))
    }
}

/// The generalInfo of a reply.
fn reply_info(alloc: Global, keys: &Brief, c: &Change) -> Result<Option<Octets>, AllocError>
    requires founding { AreFounding keys.now }
    requires timely { time_of_change c.now ≤ 250_000_000_000 }
    ensures written { IfOk result (λ info. info ≡ reply_info keys.now c.now) }
    ensures short { IfOk result (λ info. field_size info ≤ 128) }
{
    match c {
        Change::Grant { stamp, wish, .. } => Ok(Some(granted_info(
            alloc,
            keys,
            stamp.time,
            wish.implicit,
        )?)),
        _ => Ok(None),
    }
}

/// The name of the reply certificate, as a general name.
#[tactic(auto, using(asn_types::proofs::LengthLemmas::short))]
fn signer(alloc: Global, keys: &Brief) -> Result<Octets, AllocError>
    ensures written { IfOk result (λ octets. octets ≡ directory_name (reply_name keys.now)) }
    ensures short { IfOk result (λ octets. length octets ≤ 160) }
{
    let mut text = Octets::copy_of(alloc, keys.name.as_slice())?;
    text.append(b" reply")?;
    let name = write_cn(alloc, text.as_slice())?;
    directory_name(alloc, name.as_slice())
}

/// The sender of a reply.
fn sender_for(alloc: Global, keys: &Brief, leaf: Option<u32>) -> Result<Octets, AllocError>
    ensures written { IfOk result (λ octets. octets ≡ sender_for keys.now leaf) }
    ensures short { IfOk result (λ octets. length octets ≤ 160) }
{
    match leaf {
        Some(_) => signer(alloc, keys),
        None => authority(alloc, keys),
    }
}

/// The reference that a sender is known by.
fn reference_of(alloc: Global, who: &Who) -> Result<Octets, AllocError>
    ensures written { IfOk result (λ octets. octets ≡ reference_of who.now) }
    ensures short { IfOk result (λ octets. length octets ≤ 64) }
{
    match who {
        Who::Listed(_, kid) => Octets::copy_of(alloc, kid.as_slice()),
        Who::Cert(_) => Ok(Octets::empty(alloc)),
    }
}

/// The senderKID of a reply.
fn kid_for(alloc: Global, keys: &Brief, who: &Who, leaf: Option<u32>) -> Result<Octets, AllocError>
    ensures written { IfOk result (λ octets. octets ≡ kid_for keys.now who.now leaf) }
    ensures short { IfOk result (λ octets. length octets ≤ 64) }
{
    match leaf {
        Some(_) => Octets::copy_of(alloc, &key_id(&keys.reply_key)),
        None => reference_of(alloc, who),
    }
}

/// The header of a reply.
pub(crate) fn reply_header(
    alloc: Global,
    keys: &Brief,
    c: &Change,
    s: &Stamp,
) -> Result<HeaderPlan, AllocError>
    requires founding { AreFounding keys.now }
    requires timely { time_of_change c.now ≤ 250_000_000_000 }
    ensures written { IfOk result (λ p. p ≡ reply_header keys.now c.now s.now) }
    ensures short { IfOk result (λ p. plan_size p ≤ length s.now.sender + 1024) }
{
    Ok(HeaderPlan {
        pvno: s.pvno,
        sender: sender_for(alloc, keys, s.leaf)?,
        recipient: recipient_for(alloc, s.sender.as_slice())?,
        time: Some(s.time),
        alg: None,
        sender_kid: Some(kid_for(alloc, keys, &s.who, s.leaf)?),
        recip_kid: None,
        tid: Some(Octets::copy_of(alloc, s.tid.as_slice())?),
        sender_nonce: Some(nonce_in(alloc, &s.words)?),
        recip_nonce: Some(Octets::copy_of(alloc, s.sender_nonce.as_slice())?),
        free_text: None,
        info: reply_info(alloc, keys, c)?,
    })
}
