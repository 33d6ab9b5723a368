//! The validity of a certificate.
ghost use Rattle.std.specs.Prelude.{◌≡◌, ℕ, ◌<◌, ◌≤◌, ◌++◌, List, length, IfOk, OnOk};
ghost use Rattle.der_base.specs.Element.{element};
ghost use Rattle.x509_cert.specs.Validity.{IsTimeText, IsValidity, time_tag};

use asn_fields::BadForm;
use asn_types::{LAST_UTC, generalized, read_time, utc};
use cmp_values::Octets;
use der_base::{Element, Writer, read_element, whole};
use std::alloc::{AllocError, Global};

/// The tag of a time: UTCTime through 2049, and GeneralizedTime later.
fn time_tag(t: u64) -> u8
    ensures { result ≡ time_tag t }
{
    if t <= LAST_UTC { 0x17 } else { 0x18 }
}

/// Reads a time in the form that its year has.
fn read_date(tag: u8, content: &[u8]) -> Result<u64, BadForm>
    ensures found { IfOk result (λ t. (tag ≡ time_tag t) × IsTimeText t content.now) }
    ensures only { (t : ℕ) → tag ≡ time_tag t → IsTimeText t content.now → result ≡ Ok t }
{
    let t = read_time(&Element {
        tag,
        content,
        whole: content,
    })?;
    if tag == time_tag(t) {
        Ok(t)
    } else {
        Err(BadForm)
    }
}

/// Reads what stands in the SEQUENCE of a validity: the first second and the last one.
pub(crate) fn read_validity(content: &[u8]) -> Result<(u64, u64), BadForm>
    ensures found { IfOk result (λ v. IsValidity content.now v.0 v.1) }
    ensures only { (from to : ℕ) → IsValidity content.now from to → result ≡ Ok (from, to) }
{
    let (first, rest) = read_element(content)?;
    let last = whole(rest)?;
    let from = read_date(first.tag, first.content)?;
    let to = read_date(last.tag, last.content)?;
    Ok((from, to))
}

/// Puts a time in the form that its year has.
#[tactic(auto, using(crate::proofs::ValidityLemmas::utc_length, crate::proofs::ValidityLemmas::generalized_length))]
fn put_date(alloc: Global, writer: &mut Writer, t: u64) -> Result<(), AllocError>
    requires { t ≤ 253_402_300_799 }
    ensures { OnOk result ((text : List ℕ) × IsTimeText t text × (writer.new ≡ writer.old ++ element (time_tag t) text)) }
{
    if t <= LAST_UTC {
        let text = utc(alloc, t)?;
        writer.put(0x17, text.as_slice())
    } else {
        let text = generalized(alloc, t)?;
        writer.put(0x18, text.as_slice())
    }
}

/// Writes what stands in the SEQUENCE of the validity of a first second and a last one.
pub(crate) fn validity_content(alloc: Global, from: u64, to: u64) -> Result<Octets, AllocError>
    requires begins { from ≤ 253_402_300_799 }
    requires ends { to ≤ 253_402_300_799 }
    ensures dated { IfOk result (λ octets. IsValidity octets from to) }
    ensures short { IfOk result (λ octets. length octets < 64) }
{
    let mut writer = Writer::new(alloc);
    put_date(alloc, &mut writer, from)?;
    put_date(alloc, &mut writer, to)?;
    Ok(Octets::of(writer.finish()))
}
