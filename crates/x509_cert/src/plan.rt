//! Certificates, written.
ghost use Rattle.std.specs.Prelude.{◌≡◌, ℕ, ◌+◌, ◌^◌, ◌<◌, ◌≤◌, ◌++◌, ◌∷◌, List, length, IfOk, OnOk};
ghost use Rattle.der_base.specs.Element.{element};
ghost use Rattle.asn_types.specs.Algorithm.{algorithm_content};
ghost use Rattle.x509_cert.specs.Cert.{version_octets, tbs_content, tbs_octets};
ghost use Rattle.x509_cert.specs.Validity.{IsTimeText, IsValidity, time_tag};
ghost use Rattle.asn_parts.specs.Number.{number_octets};
ghost use Rattle.x509_cert.specs.Plan.{hss_lms, planned, IsPlanned, signed_octets, WrittenIsRead};

use crate::validity::validity_content;
use asn_parts::number;
use cmp_values::Octets;
use der_base::Writer;
use std::alloc::{AllocError, Global};

/// What a certificate is to say: its serial number, the issuer and the subject as whole names, the first second and the last
/// one, the key as a whole SubjectPublicKeyInfo, and the whole elements of its extensions, in order.
#[derive(Debug, Drop)]
pub struct CertPlan {
    pub serial: u64,
    pub issuer: Octets,
    pub not_before: u64,
    pub not_after: u64,
    pub subject: Octets,
    pub spki: Octets,
    pub exts: Octets,
}

/// Puts the number of version 3.
#[tactic(auto, unfolding(der_base::specs::Element::element, der_base::specs::Element::length_octets))]
fn put_version(writer: &mut Writer) -> Result<(), AllocError>
    ensures { OnOk result (writer.new ≡ writer.old ++ version_octets) }
{
    writer.put_whole(&[0xa0, 0x03, 0x02, 0x01, 0x02])
}

/// Puts HSS/LMS as an AlgorithmIdentifier.
#[tactic(auto, unfolding(der_base::specs::Element::element, der_base::specs::Element::length_octets))]
fn put_algorithm(writer: &mut Writer) -> Result<(), AllocError>
    ensures { OnOk result (writer.new ≡ writer.old ++ element 0x30 (algorithm_content hss_lms)) }
{
    writer.put_whole(&[
        0x30, 0x0d, 0x06, 0x0b, 0x2a, 0x86, 0x48, 0x86, 0xf7, 0x0d, 0x01, 0x09, 0x10, 0x03, 0x11,
    ])
}

/// Puts a row of extensions.
#[tactic(auto, using(asn_types::proofs::LengthLemmas::short))]
fn put_extensions(writer: &mut Writer, exts: &[u8]) -> Result<(), AllocError>
    requires { length exts.now + 8 < 2 ^ 32 }
    ensures { OnOk result (writer.new ≡ writer.old ++ element 0xA3 (element 0x30 exts.now)) }
{
    let from = writer.len();
    writer.put(0x30, exts)?;
    writer.wrap(0xa3, from)
}

/// Puts the fields of the signed part before the validity.
#[tactic(auto, using(asn_types::proofs::LengthLemmas::short))]
fn put_front(writer: &mut Writer, plan: &CertPlan) -> Result<(), AllocError>
    ensures { OnOk result (writer.new ≡ writer.old ++ (version_octets ++ (element 0x02 (number_octets plan.now.serial)
        ++ (element 0x30 (algorithm_content hss_lms) ++ plan.now.issuer)))) }
{
    put_version(writer)?;
    writer.put(0x02, number(plan.serial).as_slice())?;
    put_algorithm(writer)?;
    writer.put_whole(plan.issuer.as_slice())
}

/// Puts the fields behind the validity.
fn put_back(writer: &mut Writer, plan: &CertPlan) -> Result<(), AllocError>
    requires counted { length plan.now.exts + 8 < 2 ^ 32 }
    ensures { OnOk result (writer.new ≡ writer.old ++ (plan.now.subject ++ (plan.now.spki
        ++ element 0xA3 (element 0x30 plan.now.exts)))) }
{
    writer.put_whole(plan.subject.as_slice())?;
    writer.put_whole(plan.spki.as_slice())?;
    put_extensions(writer, plan.exts.as_slice())
}

/// Puts what stands in the SEQUENCE of the signed part of a plan, whose times stand in `dates`.
fn put_fields(writer: &mut Writer, plan: &CertPlan, dates: &[u8]) -> Result<(), AllocError>
    requires counted { length plan.now.exts + 8 < 2 ^ 32 }
    requires short { length dates.now < 64 }
    ensures { OnOk result (writer.new ≡ writer.old ++ tbs_content (planned plan.now dates.now)) }
{
    put_front(writer, plan)?;
    writer.put(0x30, dates)?;
    put_back(writer, plan)
}

/// Writes the signed part of a certificate of version 3 whose algorithm is HSS/LMS (RFC 5280, 4.1.2; RFC 9802): the fields of
/// the plan, put in as they stand. `AllocError` where memory runs out.
pub fn write_tbs(alloc: Global, plan: &CertPlan) -> Result<Octets, AllocError>
    requires begins { plan.now.not_before ≤ 253_402_300_799 }
    requires ends { plan.now.not_after ≤ 253_402_300_799 }
    requires counted { length plan.now.issuer + length plan.now.subject + length plan.now.spki + length plan.now.exts + 128 < 2 ^ 32 }
    ensures { IfOk result (IsPlanned plan.now) }
{
    let dates = validity_content(alloc, plan.not_before, plan.not_after)?;
    let mut writer = Writer::new(alloc);
    put_fields(&mut writer, plan, dates.as_slice())?;
    writer.wrap(0x30, 0)?;
    Ok(Octets::of(writer.finish()))
}

/// Puts the octets of a signature, as a BIT STRING whose bits are all used.
#[tactic(auto, using(asn_types::proofs::LengthLemmas::short))]
fn put_signature(writer: &mut Writer, sig: &[u8]) -> Result<(), AllocError>
    requires { length sig.now + 1 < 2 ^ 32 }
    ensures { OnOk result (writer.new ≡ writer.old ++ element 0x03 (0 ∷ sig.now)) }
{
    let from = writer.len();
    writer.put_whole(&[0])?;
    writer.put_whole(sig)?;
    writer.wrap(0x03, from)
}

/// Writes a certificate: the signed part as it stands, HSS/LMS, and the octets of the signature. `AllocError` where memory runs
/// out.
#[tactic(auto, using(asn_types::proofs::LengthLemmas::short))]
pub fn write_cert(alloc: Global, tbs: &[u8], sig: &[u8]) -> Result<Octets, AllocError>
    requires { length tbs.now + length sig.now + 64 < 2 ^ 32 }
    ensures { IfOk result (λ octets. octets ≡ signed_octets tbs.now sig.now) }
{
    let mut writer = Writer::new(alloc);
    writer.put_whole(tbs)?;
    put_algorithm(&mut writer)?;
    put_signature(&mut writer, sig)?;
    writer.wrap(0x30, 0)?;
    Ok(Octets::of(writer.finish()))
}

/// What is written of a plan whose fields have the forms of their types is a certificate that says what the plan does, and
/// whose times are the plan's; so `read_cert` reads it (its clause `only`).
pub fn written_is_read()
    ensures { WrittenIsRead }
{}
