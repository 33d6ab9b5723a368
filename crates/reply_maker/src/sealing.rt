//! The replies to the changes that messages made.
ghost use Rattle.std.specs.Prelude.{◌≡◌, ℕ, ◌+◌, ◌^◌, ◌<◌, ◌≤◌, length, Some, None, IfOk, IfSome, false};
ghost use Rattle.std.specs.Option.{option_copied};
ghost use Rattle.cert_maker.specs.Certificates.{AreFounding, IsGrant, cert_of};
ghost use Rattle.deal_changes.specs.Times.{stamp_of};
ghost use Rattle.deal_table.specs.History.{brief_of};
ghost use Rattle.hss_sig.specs.OneLevel.{hss_signature, leaf_count};
ghost use Rattle.pbmac.specs.Mac.{mac_of};
ghost use Rattle.pki_header.specs.Plan.{plan_size};
ghost use Rattle.pki_parts.specs.Status.{option_size};
ghost use Rattle.protect.specs.Algorithms.{hss_lms, mac_algorithm};
ghost use Rattle.reply_maker.specs.Certificates.{reply_of as reply_certificate};
ghost use Rattle.reply_maker.specs.InForce.{IsInForce};
ghost use Rattle.reply_maker.specs.Keys.{are_blank, issue_secret, reply_secret};
ghost use Rattle.reply_maker.specs.Messages.{planned_message, salt_in};
ghost use Rattle.reply_maker.specs.Replies.{replier_of, body_of, ca_pubs_for, granted_body, reply_body, reply_header, reply_of, certificate_hash};

use crate::bodies::{
    confirmed_body, denied_body, granted_body, polled_body, revoked_body, waiting_body,
};
use crate::fields::salt_in;
use crate::headers::reply_header;
use crate::keys::Keys;
use crate::message::message;
use cert_maker::cert_of;
use cmp_ports::{Octets, Short};
use deal_model::{Body4, Brief, Change, Stamp};
use desk::{Receipt, brief_of};
use hss_sig::OneLevel;
use pki_header::HeaderPlan;
use protect::How;
use sha2::{Digest, Sha256};
use std::alloc::{AllocError, Global};

/// The body of the request that began the transaction of a change.
fn body_of(r: &Receipt) -> Body4
    ensures { result ≡ body_of r.now }
{
    match r.body() {
        Some(body) => body,
        None => Body4::Ir,
    }
}

/// The certificate that goes along with a granted one.
fn ca_pubs_for<'a>(root: &'a [u8], body: Body4) -> Option<&'a [u8]>
    ensures written { option_copied result ≡ ca_pubs_for root.now body }
    ensures short { option_size (option_copied result) ≤ length root.now }
{
    match body {
        Body4::Ir => Some(root),
        _ => None,
    }
}

/// The certificate of a Grant.
fn certificate(alloc: Global, keys: &Keys, r: &Receipt) -> Result<Octets, AllocError>
    requires grant { IsGrant r.now.change }
    requires force { IsInForce keys.now.settings r.now }
    ensures written { IfOk result (λ octets. octets ≡ cert_of (hss_signature (issue_secret keys.now.file keys.now.settings)) (brief_of keys.now.settings) r.now.change) }
    ensures short { IfOk result (λ octets. length octets ≤ 2 ^ 31 + 2 ^ 17) }
{
    cert_of(alloc, keys.issue(), &brief_of(keys.settings()), r)
}

/// The body of the reply to a Grant.
fn grant_body(
    alloc: Global,
    keys: &Keys,
    r: &Receipt,
    body: Body4,
    mods: bool,
) -> Result<Octets, AllocError>
    requires grant { IsGrant r.now.change }
    requires made { are_blank keys.now.settings ≡ false }
    requires force { IsInForce keys.now.settings r.now }
    ensures written { IfOk result (λ octets. octets ≡ granted_body (replier_of keys.now.file keys.now.settings) body mods r.now.change) }
    ensures short { IfOk result (λ octets. length octets ≤ 2 ^ 31 + 2 ^ 20) }
{
    let cert = certificate(alloc, keys, r)?;
    let Some(own) = keys.certificates() else {
        unreachable!()
    };
    let ca_pubs = ca_pubs_for(own.root.as_slice(), body);
    granted_body(alloc, body, mods, ca_pubs, cert.as_slice())
}

/// The body of the reply to a change, by its kind.
fn reply_body(alloc: Global, keys: &Keys, r: &Receipt, c: &Change) -> Result<Octets, AllocError>
    requires same { r.now.change ≡ c.now }
    requires made { are_blank keys.now.settings ≡ false }
    requires force { IsInForce keys.now.settings r.now }
    ensures written { IfOk result (λ octets. octets ≡ reply_body (replier_of keys.now.file keys.now.settings) r.now c.now) }
    ensures short { IfOk result (λ octets. length octets ≤ 2 ^ 31 + 2 ^ 20) }
{
    match c {
        Change::Grant { body, wish, .. } => grant_body(alloc, keys, r, *body, wish.mods),
        Change::Hold { body, .. } => waiting_body(alloc, *body),
        Change::Turned(_) => denied_body(alloc, body_of(r)),
        Change::Polled(_) => polled_body(alloc, body_of(r), keys.settings().check_after),
        Change::Settled { .. } => confirmed_body(alloc),
        Change::Revoke { .. } => revoked_body(alloc),
        _ => Ok(Octets::empty(alloc)),
    }
}

/// A reply that a leaf signs, with the certificate of its key.
fn signed(
    alloc: Global,
    keys: &Keys,
    header: &HeaderPlan,
    body: &[u8],
    leaf: u32,
) -> Result<Octets, AllocError>
    requires made { are_blank keys.now.settings ≡ false }
    requires below { leaf < leaf_count (reply_secret keys.now.file keys.now.settings).tree }
    requires time { IfSome header.now.time (λ t. t ≤ 253_402_300_799) }
    requires counted { plan_size header.now + length body.now + 2 ^ 20 < 2 ^ 32 }
    ensures { IfOk result (λ octets. octets ≡ planned_message header.now body.now (Some hss_lms)
        (λ part. Some (hss_signature (reply_secret keys.now.file keys.now.settings) leaf part))
        (Some (reply_certificate (issue_secret keys.now.file keys.now.settings) keys.now.settings))) }
{
    let Some(own) = keys.certificates() else {
        unreachable!()
    };
    let how = How::Leaf {
        signer: keys.reply(),
        leaf,
    };
    message(alloc, header, body, &how, Some(own.reply.as_slice()))
}

/// A reply with the MAC of its sender's secret.
fn macked(
    alloc: Global,
    keys: &Brief,
    secret: &[u8],
    words: &[u8; 32],
    header: &HeaderPlan,
    body: &[u8],
) -> Result<Octets, AllocError>
    requires secret { length secret.now ≤ 64 }
    requires rounds { 1 ≤ keys.now.rounds }
    requires time { IfSome header.now.time (λ t. t ≤ 253_402_300_799) }
    requires counted { plan_size header.now + length body.now + 2 ^ 20 < 2 ^ 32 }
    ensures { IfOk result (λ octets. octets ≡ planned_message header.now body.now (Some (mac_algorithm (salt_in words.now) keys.now.rounds))
        (λ part. Some (mac_of secret.now (record { salt = salt_in words.now; rounds = keys.now.rounds }) part)) None) }
{
    let Some(secret) = Short::of(secret) else {
        unreachable!()
    };
    let how: How<'_, OneLevel> = How::Mac {
        secret,
        salt: salt_in(words),
        rounds: keys.rounds,
    };
    message(alloc, header, body, &how, None)
}

/// The reply of a header and a body, protected as the stamp says.
fn protected(
    alloc: Global,
    keys: &Keys,
    r: &Receipt,
    s: &Stamp,
    header: &HeaderPlan,
    body: &[u8],
) -> Result<Octets, AllocError>
    requires stamp { stamp_of r.now.change ≡ Some s.now }
    requires made { are_blank keys.now.settings ≡ false }
    requires force { IsInForce keys.now.settings r.now }
    requires header { header.now ≡ reply_header (brief_of keys.now.settings) r.now.change s.now }
    requires body { body.now ≡ reply_body (replier_of keys.now.file keys.now.settings) r.now r.now.change }
    requires counted { plan_size header.now + length body.now + 2 ^ 20 < 2 ^ 32 }
    ensures { IfOk result (λ octets. octets ≡ reply_of (replier_of keys.now.file keys.now.settings) r.now) }
{
    match s.leaf {
        Some(leaf) => signed(alloc, keys, header, body, leaf),
        None => {
            let brief = brief_of(keys.settings());
            macked(alloc, &brief, r.key(), &s.words, header, body)
        }
    }
}

/// The reply to a change with this stamp.
fn sealed(alloc: Global, keys: &Keys, r: &Receipt, s: &Stamp) -> Result<Octets, AllocError>
    requires stamp { stamp_of r.now.change ≡ Some s.now }
    requires made { are_blank keys.now.settings ≡ false }
    requires force { IsInForce keys.now.settings r.now }
    ensures { IfOk result (λ octets. octets ≡ reply_of (replier_of keys.now.file keys.now.settings) r.now) }
{
    let brief = brief_of(keys.settings());
    let header = reply_header(alloc, &brief, r.change(), s)?;
    let body = reply_body(alloc, keys, r, r.change())?;
    protected(alloc, keys, r, s, &header, body.as_slice())
}

/// Writes the reply to a change (RFC 9810, 5.3), signed by the leaf of its stamp or under the MAC of its sender's secret. The octets
/// are a function of the keys and of what is kept of the change, so that a reply which is sent again is the same. They are empty
/// where no message made the change. `AllocError` where memory runs out.
pub fn seal(alloc: Global, keys: &Keys, r: &Receipt) -> Result<Octets, AllocError>
    requires made { are_blank keys.now.settings ≡ false }
    requires force { IsInForce keys.now.settings r.now }
    ensures { IfOk result (λ octets. octets ≡ reply_of (replier_of keys.now.file keys.now.settings) r.now) }
{
    match r.change().stamp() {
        Some(stamp) => sealed(alloc, keys, r, stamp),
        None => Ok(Octets::empty(alloc)),
    }
}

/// The hash with which the certConf of a Grant's certificate is compared: SHA-256 of the certificate (RFC 9810, 5.3.18).
/// `AllocError` where memory runs out.
pub fn grant_hash(alloc: Global, keys: &Keys, r: &Receipt) -> Result<[u8; 32], AllocError>
    requires grant { IsGrant r.now.change }
    requires made { are_blank keys.now.settings ≡ false }
    requires force { IsInForce keys.now.settings r.now }
    ensures { IfOk result (λ digest. digest ≡ certificate_hash (replier_of keys.now.file keys.now.settings) r.now) }
{
    let cert = certificate(alloc, keys, r)?;
    Ok(Sha256::digest(cert.as_slice()))
}
