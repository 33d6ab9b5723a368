//! Requests for certificates.
ghost use Rattle.std.specs.Prelude.{◌≡◌, ◌==◌, ℕ, Bool, IsTrue, List, Some, None, if◌then◌else◌, option_map, is_some};
ghost use Rattle.std.specs.Option.{option_copied};
ghost use Rattle.asn_types.specs.Key.{key_of};
ghost use Rattle.asn_types.specs.Template.{template_of, name_of, extensions_of};
ghost use Rattle.req_forms.specs.Controls.{old_of as old_form_of};
ghost use Rattle.req_forms.specs.Possession.{popo_of};
ghost use Rattle.req_forms.specs.Pkcs10.{IsP10, p10_of};
ghost use Rattle.req_forms.specs.Requests.{IsCrmf, req_of, list_of};
ghost use Rattle.intake.specs.Bodies.{old_of, is_by_ra, is_bad_proof, is_bad_version, has_bad_field, no_request, crmf_enrolment, p10_enrolment};
ghost use Rattle.intake.specs.Holds.{ProvesFirst};
ghost use Rattle.intake.specs.Told.{named_told, enrolling_told, IsLimited, AreLimited, FitsAsked};

use crate::bodies::{Asked, CertName, Enrolling};
use crate::extensions::are_bad;
use crate::keys::{is_bad_key, is_subject};
use crate::values::{is_hss, is_zero, number};
use asn_types::{Extensions, GeneralName, Name, Template};
use deal_changes::Body4;
use req_forms::{CrmfList, CrmfReq, OldCert, P10, Popo};

/// The octets of a Name that is there.
pub(crate) fn name_octets<'a>(name: Option<Name<'a>>) -> Option<&'a [u8]>
    ensures { option_copied result ≡ option_map name_of name.entry }
{
    match name {
        None => None,
        Some(name) => Some(name.whole),
    }
}

/// The content of Extensions that are there.
pub(crate) fn ext_octets<'a>(exts: Option<Extensions<'a>>) -> Option<&'a [u8]>
    ensures { option_copied result ≡ option_map extensions_of exts.entry }
{
    match exts {
        None => None,
        Some(exts) => Some(exts.content),
    }
}

/// The Name that a general name is.
fn name_in<'a>(g: &GeneralName<'a>) -> Option<&'a [u8]>
    ensures { option_copied result ≡ (if g.now.tag == 0xA4 then Some g.now.content.now else None) }
{
    if g.tag == 0xa4 { Some(g.content) } else { None }
}

/// The certificate that an oldCertID names.
fn old_named<'a>(old: &Option<OldCert<'a>>) -> Option<CertName<'a>>
    ensures { option_map named_told result ≡ old_of (option_map old_form_of old.now) }
{
    match old {
        None => None,
        Some(old) => Some(CertName {
            issuer: name_in(&old.issuer),
            serial: number(old.serial),
        }),
    }
}

/// Whether a proof is an RA's word.
fn is_by_ra(popo: &Popo) -> bool
    ensures { result ≡ is_by_ra (popo_of popo.now) }
{
    matches!(popo, Popo::RaVerified)
}

/// Whether a proof is a signature by another algorithm than HSS/LMS.
fn is_bad_proof(popo: &Popo) -> bool
    ensures { result ≡ is_bad_proof (popo_of popo.now) }
{
    match popo {
        Popo::Signature { alg, .. } => !is_hss(alg),
        _ => false,
    }
}

/// Whether a version stands there that isn't `n`.
fn is_bad_version(n: u8, version: Option<&[u8]>) -> bool
    ensures { result ≡ is_bad_version n (option_copied version.entry) }
{
    match version {
        None => false,
        Some(content) => content != [n].as_slice(),
    }
}

/// Whether a template has another version than 2, or a field that the authority alone sets.
fn has_bad_field(t: &Template) -> bool
    ensures { result ≡ has_bad_field (template_of t.now) }
{
    is_bad_version(2, t.version)
        || t.serial.is_some()
        || t.alg.is_some()
        || t.issuer_uid.is_some()
        || t.subject_uid.is_some()
}

/// No request, of which nothing is proven.
fn no_request(body: Body4) -> Enrolling<'static>
    ensures facts { (proven : Bool) → (IsTrue proven → ⊥) → no_request body ≡ enrolling_told proven result }
    ensures fits { FitsAsked result.asked }
{
    Enrolling {
        body,
        is_one: false,
        has_subject: false,
        has_bad_field: false,
        issuer: None,
        has_bad_extension: false,
        has_bad_alg: false,
        old: None,
        by_ra: false,
        asked: Asked {
            subject: None,
            key: None,
            exts: None,
            implicit: false,
            has_more: false,
        },
    }
}

/// What a template asks for.
fn asked_by<'a>(t: &Template<'a>, implicit: bool) -> Asked<'a>
    ensures subject { option_copied result.subject ≡ option_map name_of t.now.subject }
    ensures key { result.key ≡ t.now.key }
    ensures exts { option_copied result.exts ≡ option_map extensions_of t.now.exts }
    ensures implicit { result.implicit ≡ implicit }
    ensures more { result.has_more ≡ is_some t.now.validity }
{
    Asked {
        subject: name_octets(t.subject),
        key: t.key,
        exts: ext_octets(t.exts),
        implicit,
        has_more: t.validity.is_some(),
    }
}

/// The first of so many requests in the form of CRMF.
fn crmf_request<'a>(body: Body4, implicit: bool, count: u64, r: &CrmfReq<'a>) -> Enrolling<'a>
    ensures facts { (proven : Bool) → crmf_enrolment body implicit proven count (Some (req_of r.now)) ≡ enrolling_told proven result }
    ensures fits { AreLimited (option_map name_of r.now.template.subject) (option_map key_of r.now.template.key) (option_map extensions_of r.now.template.exts) → FitsAsked result.asked }
{
    let t = &r.template;
    let asked = asked_by(t, implicit);
    let by_ra = is_by_ra(&r.popo);
    Enrolling {
        body,
        is_one: count == 1 && is_zero(r.id),
        has_subject: is_subject(asked.subject),
        has_bad_field: has_bad_field(t),
        issuer: name_octets(t.issuer),
        has_bad_extension: are_bad(asked.exts),
        has_bad_alg: is_bad_key(by_ra, &t.key) || is_bad_proof(&r.popo),
        old: old_named(&r.old),
        by_ra,
        asked,
    }
}

/// Requests in the form of CRMF (RFC 4211, 3 to 6).
pub(crate) fn crmf<'a>(body: Body4, implicit: bool, list: &CrmfList<'a>) -> Enrolling<'a>
    ensures facts { (proven : Bool) → (IsTrue proven → ProvesFirst (list_of list.now).first) → crmf_enrolment body implicit proven (list_of list.now).count (list_of list.now).first ≡ enrolling_told proven result }
    ensures fits { (bytes : List ℕ) → IsCrmf bytes (list_of list.now) → IsLimited bytes → FitsAsked result.asked }
{
    match &list.first {
        None => no_request(body),
        Some(r) => crmf_request(body, implicit, list.count, r),
    }
}

/// A request in the form of PKCS #10 (RFC 2986, 4).
pub(crate) fn p10<'a>(implicit: bool, p: &P10<'a>) -> Enrolling<'a>
    ensures facts { (proven : Bool) → p10_enrolment implicit proven (p10_of p.now) ≡ enrolling_told proven result }
    ensures fits { (bytes : List ℕ) → IsP10 bytes (p10_of p.now) → IsLimited bytes → FitsAsked result.asked }
{
    let asked = Asked {
        subject: Some(p.subject.whole),
        key: Some(p.spki),
        exts: ext_octets(p.exts),
        implicit,
        has_more: false,
    };
    Enrolling {
        body: Body4::P10cr,
        is_one: true,
        has_subject: is_subject(asked.subject),
        has_bad_field: is_bad_version(0, Some(p.version)),
        issuer: None,
        has_bad_extension: are_bad(asked.exts),
        has_bad_alg: is_bad_key(false, &asked.key) || !is_hss(&p.alg),
        old: None,
        by_ra: false,
        asked,
    }
}
