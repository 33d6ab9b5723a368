//! The certificates of Grants.
ghost use Rattle.std.specs.Prelude.{◌≡◌, ℕ, ◌+◌, ◌-◌, ◌*◌, ◌^◌, ◌<◌, ◌≤◌, ◌++◌, List, length, IfOk, IsTrue};
ghost use Rattle.std.specs.List.{list_any};
ghost use Rattle.der_base.specs.Reading.{part_of};
ghost use Rattle.der_base.specs.Row.{item_of, items_of};
ghost use Rattle.asn_types.specs.Rows.{passes};
ghost use Rattle.cert_maker.specs.Plans.{is_usage, has_usage, granted_extensions, granted_plan};
ghost use Rattle.cert_maker.specs.Certificates.{plan_octets, tbs_of, AreFounding, IsGrant, IsKept};

use crate::extensions::{authority_key, signs_messages, subject_key};
use crate::plans::ca_name;
use crate::tbs::tbs_of_plan;
use asn_types::{KEY_USAGE, read_extension, read_extensions};
use cmp_values::Octets;
use deal_answers::key_of;
use deal_model::{Brief, Change, Wish};
use der_base::{DerFault, Element, Items};
use std::alloc::{AllocError, Global};
use x509_cert::CertPlan;

/// Seconds of a day.
const DAY: u64 = 86_400;

/// Whether an element is an extension keyUsage (RFC 5280, 4.2.1.3).
#[tactic(auto, unfolding(crate::specs::Plans::is_usage))]
fn is_usage(e: &Element) -> bool
    ensures { result ≡ is_usage (part_of e.now) }
{
    match read_extension(e) {
        Ok(x) => x.oid == KEY_USAGE,
        Err(_) => false,
    }
}

/// Whether what was read of an element is an extension keyUsage.
fn is_usage_read(item: &Result<Element<'_>, DerFault>) -> bool
    ensures { result ≡ passes is_usage (item_of item.now) }
{
    match item {
        Ok(e) => is_usage(e),
        Err(_) => false,
    }
}

/// Whether a keyUsage stands in a row of elements.
fn any_usage(exts: &[u8]) -> bool
    ensures { result ≡ list_any (passes is_usage) (items_of exts.now) }
{
    for item in Items::new(exts) {
        if is_usage_read(&item) {
            return true;
        }
    }
    false
}

/// Whether octets are a row of extensions with a keyUsage.
#[tactic(auto, unfolding(crate::specs::Plans::has_usage))]
fn has_usage(exts: &[u8]) -> bool
    ensures { result ≡ has_usage exts.now }
{
    read_extensions(exts).is_ok() && any_usage(exts)
}

/// The extensions of a granted certificate: both key identifiers, a keyUsage, and those that were wished for.
pub(crate) fn granted_extensions(
    alloc: Global,
    keys: &Brief,
    w: &Wish,
) -> Result<Octets, AllocError>
    ensures written { IfOk result (λ octets. octets ≡ granted_extensions keys.now w.now) }
    ensures short { IfOk result (λ octets. length octets ≤ length w.now.exts + 192) }
{
    let exts = w.exts.as_slice();
    let mut row = authority_key(alloc, &keys.issue_key)?;
    row.append(subject_key(alloc, key_of(w.spki.as_slice()))?.as_slice())?;
    if !has_usage(exts) {
        row.append(signs_messages(alloc)?.as_slice())?;
    }
    row.append(exts)?;
    Ok(row)
}

/// What the certificate says that is granted at a second for a wish.
#[tactic(auto, unfolding(crate::specs::Plans::granted_plan))]
fn granted_plan(
    alloc: Global,
    keys: &Brief,
    time: u64,
    w: &Wish,
    serial: u64,
) -> Result<CertPlan, AllocError>
    requires time { time ≤ 250_000_000_000 }
    requires low { 1 ≤ keys.now.days }
    requires high { keys.now.days ≤ 36_500 }
    ensures planned { IfOk result (λ plan. plan ≡ granted_plan keys.now time w.now serial) }
    ensures short { IfOk result (λ plan. length plan.issuer + length plan.subject + length plan.spki + length plan.exts
        ≤ length w.now.subject + length w.now.spki + length w.now.exts + 320) }
{
    Ok(CertPlan {
        serial,
        issuer: ca_name(alloc, keys)?,
        not_before: time,
        not_after: time + DAY * u64::from(keys.days) - 1,
        subject: Octets::copy_of(alloc, w.subject.as_slice())?,
        spki: Octets::copy_of(alloc, w.spki.as_slice())?,
        exts: granted_extensions(alloc, keys, w)?,
    })
}

/// The signed part of a certificate that is granted at a second for a wish.
#[tactic(auto, unfolding(crate::specs::Plans::granted_plan))]
pub(crate) fn granted_tbs(
    alloc: Global,
    keys: &Brief,
    time: u64,
    w: &Wish,
    serial: u64,
) -> Result<Octets, AllocError>
    requires time { time ≤ 250_000_000_000 }
    requires low { 1 ≤ keys.now.days }
    requires high { keys.now.days ≤ 36_500 }
    requires counted { length w.now.subject + length w.now.spki + length w.now.exts ≤ 2 ^ 30 }
    ensures written { IfOk result (λ octets. octets ≡ plan_octets (granted_plan keys.now time w.now serial)) }
    ensures short { IfOk result (λ octets. length octets ≤ 2 ^ 31) }
{
    let plan = granted_plan(alloc, keys, time, w, serial)?;
    tbs_of_plan(alloc, &plan)
}

/// The signed part of the certificate of a Grant.
pub(crate) fn tbs_of_change(alloc: Global, keys: &Brief, c: &Change) -> Result<Octets, AllocError>
    requires grant { IsGrant c.now }
    requires kept { IsKept c.now }
    requires founding { AreFounding keys.now }
    ensures written { IfOk result (λ octets. octets ≡ tbs_of keys.now c.now) }
    ensures short { IfOk result (λ octets. length octets ≤ 2 ^ 31) }
{
    match c {
        Change::Grant {
            stamp,
            wish,
            serial,
            ..
        } => granted_tbs(alloc, keys, stamp.time, wish, *serial),
        _ => unreachable!(),
    }
}
