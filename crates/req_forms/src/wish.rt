//! Requests, written.
ghost use Rattle.std.specs.Prelude.{◌≡◌, ◌+◌, ◌^◌, ◌<◌, ◌++◌, [], ◌∷◌, length, IfOk, OnOk};
ghost use Rattle.der_base.specs.Element.{element, IsElement};
ghost use Rattle.asn_fields.specs.Rows.{row_of};
ghost use Rattle.asn_types.specs.Key.{Key};

use asn_parts::number;
use asn_types::{EXTENSION_REQUEST, HSS_LMS, OLD_CERT_ID};
use cmp_values::Octets;
use der_base::Writer;
use std::alloc::{AllocError, Global};

/// How a request proves possession: by an RA's word, or by a signature of HSS/LMS, its octets.
#[derive(Debug, Drop)]
pub enum Proof {
    RaVerified,
    Signature(Octets),
}

/// What a request asks for: the subject, a whole name; the key, a whole SubjectPublicKeyInfo; the whole elements of the extensions,
/// none or more; the serial number of the certificate that is updated and its issuer, a whole name, which is not looked at where
/// no certificate is; and the proof. A PKCS #10 request has none of the last three.
#[derive(Debug, Drop)]
pub struct CrmfWish {
    pub subject: Octets,
    pub spki: Octets,
    pub exts: Octets,
    pub old: Option<u64>,
    pub issuer: Octets,
    pub proof: Proof,
}

ghost use Rattle.req_forms.specs.Possession.{signature_element};
ghost use Rattle.req_forms.specs.Requests.{RequestForm, FitsRequest, IsCrmf, request_content};
ghost use Rattle.req_forms.specs.Pkcs10.{InfoForm, FitsInfo, IsP10, info_content};
ghost use Rattle.req_forms.specs.Controls.{old_cert_id};
ghost use Rattle.req_forms.specs.Attributes.{extension_request_id};
ghost use Rattle.req_forms.specs.Written.{IsAsked, IsWish, hss_lms, old_octets, wished_request, around_req, wished_req, wished_info, written_p10, hss_algorithm, retagged, template_octets, control_octets, request_octets, proof_octets, around_octets, crmf_octets, asked_octets, info_octets, p10_octets};

/// Puts an element under another tag behind the octets of a writer.
fn put_retagged(writer: &mut Writer, tag: u8, octets: &[u8]) -> Result<(), AllocError>
    ensures { OnOk result (writer.new ≡ writer.old ++ retagged tag octets.now) }
{
    match octets {
        [] => Ok(()),
        [_, rest @ ..] => {
            writer.put_whole(&[tag])?;
            writer.put_whole(rest)
        }
    }
}

/// Puts the template of a request.
#[tactic(auto, using(asn_types::proofs::LengthLemmas::lengths))]
fn put_template(
    writer: &mut Writer,
    subject: &[u8],
    spki: &[u8],
    exts: &[u8],
) -> Result<(), AllocError>
    requires { length (template_octets subject.now spki.now exts.now) < 2 ^ 32 }
    ensures { OnOk result (writer.new ≡ writer.old ++ element 0x30 (template_octets subject.now spki.now exts.now)) }
{
    let from = writer.len();
    writer.put(0xa5, subject)?;
    put_retagged(writer, 0xa6, spki)?;
    if !exts.is_empty() {
        writer.put(0xa9, exts)?;
    }
    writer.wrap(0x30, from)
}

/// The identifier of an oldCertID.
#[tactic(auto, unfolding(crate::specs::Controls::old_cert_id))]
fn old_cert_oid() -> &'static [u8]
    ensures { result.now ≡ old_cert_id }
{
    OLD_CERT_ID
}

/// Puts the issuer and the serial number of the certificate that is updated.
#[tactic(auto, using(asn_types::proofs::LengthLemmas::lengths))]
fn put_old(writer: &mut Writer, issuer: &[u8], serial: u64) -> Result<(), AllocError>
    requires { length (old_octets issuer.now serial) < 2 ^ 32 }
    ensures { OnOk result (writer.new ≡ writer.old ++ element 0x30 (old_octets issuer.now serial)) }
{
    let from = writer.len();
    writer.put(0xa4, issuer)?;
    writer.put(0x02, number(serial).as_slice())?;
    writer.wrap(0x30, from)
}

/// Puts the control oldCertID.
#[tactic(auto, using(asn_types::proofs::LengthLemmas::lengths))]
fn put_control(writer: &mut Writer, issuer: &[u8], serial: u64) -> Result<(), AllocError>
    requires { length (element 0x06 old_cert_id ++ element 0x30 (old_octets issuer.now serial)) < 2 ^ 32 }
    ensures { OnOk result (writer.new ≡ writer.old ++ element 0x30 (element 0x06 old_cert_id ++ element 0x30 (old_octets issuer.now serial))) }
{
    let from = writer.len();
    writer.put(0x06, old_cert_oid())?;
    put_old(writer, issuer, serial)?;
    writer.wrap(0x30, from)
}

/// Puts the controls of a request, where it updates a certificate.
#[tactic(auto, using(asn_types::proofs::LengthLemmas::lengths))]
fn put_controls(writer: &mut Writer, issuer: &[u8], old: Option<u64>) -> Result<(), AllocError>
    requires { length (control_octets issuer.now old) < 2 ^ 32 }
    ensures { OnOk result (writer.new ≡ writer.old ++ control_octets issuer.now old) }
{
    match old {
        None => Ok(()),
        Some(serial) => {
            let from = writer.len();
            put_control(writer, issuer, serial)?;
            writer.wrap(0x30, from)
        }
    }
}

/// Puts a CertRequest.
#[tactic(auto, using(asn_types::proofs::LengthLemmas::lengths))]
fn put_request(writer: &mut Writer, wish: &CrmfWish) -> Result<(), AllocError>
    requires { length (request_octets wish.now) < 2 ^ 32 }
    ensures { OnOk result (writer.new ≡ writer.old ++ element 0x30 (request_octets wish.now)) }
{
    let from = writer.len();
    writer.put(0x02, &[0])?;
    put_template(
        writer,
        wish.subject.as_slice(),
        wish.spki.as_slice(),
        wish.exts.as_slice(),
    )?;
    put_controls(writer, wish.issuer.as_slice(), wish.old)?;
    writer.wrap(0x30, from)
}

/// The identifier of HSS/LMS.
#[tactic(auto, unfolding(crate::specs::Written::hss_lms))]
fn hss_oid() -> &'static [u8]
    ensures { result.now ≡ hss_lms }
{
    HSS_LMS
}

/// Puts the algorithm HSS/LMS.
#[tactic(auto, using(asn_types::proofs::LengthLemmas::short, crate::proofs::SizeLemmas::hss_size))]
fn put_algorithm(writer: &mut Writer) -> Result<(), AllocError>
    ensures { OnOk result (writer.new ≡ writer.old ++ hss_algorithm) }
{
    let from = writer.len();
    writer.put(0x06, hss_oid())?;
    writer.wrap(0x30, from)
}

/// Puts a signature as a BIT STRING with no unused bits.
#[tactic(auto, using(asn_types::proofs::LengthLemmas::lengths))]
fn put_string(writer: &mut Writer, sig: &[u8]) -> Result<(), AllocError>
    requires { length sig.now + 1 < 2 ^ 32 }
    ensures { OnOk result (writer.new ≡ writer.old ++ signature_element sig.now) }
{
    let from = writer.len();
    writer.put_whole(&[0])?;
    writer.put_whole(sig)?;
    writer.wrap(0x03, from)
}

/// Puts the algorithm HSS/LMS and a signature.
fn put_signature(writer: &mut Writer, sig: &[u8]) -> Result<(), AllocError>
    requires { length sig.now + 1 < 2 ^ 32 }
    ensures { OnOk result (writer.new ≡ writer.old ++ (hss_algorithm ++ signature_element sig.now)) }
{
    put_algorithm(writer)?;
    put_string(writer, sig)
}

/// Puts a proof of possession.
#[tactic(auto, using(asn_types::proofs::LengthLemmas::lengths))]
fn put_proof(writer: &mut Writer, proof: &Proof) -> Result<(), AllocError>
    requires { length (proof_octets proof.now) < 2 ^ 32 }
    ensures { OnOk result (writer.new ≡ writer.old ++ proof_octets proof.now) }
{
    match proof {
        Proof::RaVerified => writer.put(0x80, &[]),
        Proof::Signature(sig) => {
            let from = writer.len();
            put_signature(writer, sig.as_slice())?;
            writer.wrap(0xa1, from)
        }
    }
}

/// The octets of a CertRequest.
fn request_written(alloc: Global, wish: &CrmfWish) -> Result<Octets, AllocError>
    requires { length (request_octets wish.now) < 2 ^ 32 }
    ensures { IfOk result (λ octets. octets ≡ element 0x30 (request_octets wish.now)) }
{
    let mut writer = Writer::new(alloc);
    put_request(&mut writer, wish)?;
    Ok(Octets::of(writer.finish()))
}

/// Writes the CertRequest of a wish (RFC 4211, 5), whose certReqId is 0: what a proof of possession signs. `AllocError` where
/// memory runs out.
#[tactic(auto, using(asn_types::proofs::LengthLemmas::lengths))]
pub fn write_request(alloc: Global, wish: &CrmfWish) -> Result<Octets, AllocError>
    requires { length (element 0x30 (request_octets wish.now)) < 2 ^ 32 }
    ensures written { IfOk result (λ octets. octets ≡ element 0x30 (request_octets wish.now)) }
    // What is written is what stands in a message.
    ensures again { (key : Key) → IsWish wish.now key → IfOk result (λ octets.
        IsElement octets 0x30 (request_content (wished_request wish.now key)) × FitsRequest (wished_request wish.now key)) }
{
    request_written(alloc, wish)
}

/// The octets of CertReqMessages with one message.
#[tactic(auto, using(asn_types::proofs::LengthLemmas::lengths))]
fn around_written(alloc: Global, request: &[u8], proof: &Proof) -> Result<Octets, AllocError>
    requires { length (around_octets request.now proof.now) < 2 ^ 32 }
    ensures { IfOk result (λ octets. octets ≡ around_octets request.now proof.now) }
{
    let mut writer = Writer::new(alloc);
    writer.put_whole(request)?;
    put_proof(&mut writer, proof)?;
    writer.wrap(0x30, 0)?;
    writer.wrap(0x30, 0)?;
    Ok(Octets::of(writer.finish()))
}

/// Writes CertReqMessages with one message (RFC 4211, 3) around a whole CertRequest, which stays as it stands, and its proof.
/// `AllocError` where memory runs out.
pub fn write_around(alloc: Global, request: &[u8], proof: &Proof) -> Result<Octets, AllocError>
    requires { length (around_octets request.now proof.now) < 2 ^ 32 }
    ensures written { IfOk result (λ octets. octets ≡ around_octets request.now proof.now) }
    // What is written is read again.
    ensures again { (inside : RequestForm) → FitsRequest inside → IsElement request.now 0x30 (request_content inside)
        → IfOk result (λ octets. IsCrmf octets (row_of (around_req request.now inside proof.now ∷ []))) }
{
    around_written(alloc, request, proof)
}

/// The octets of CertReqMessages with one request.
#[tactic(auto, using(asn_types::proofs::LengthLemmas::lengths))]
fn crmf_written(alloc: Global, wish: &CrmfWish) -> Result<Octets, AllocError>
    requires { length (crmf_octets wish.now) < 2 ^ 32 }
    ensures { IfOk result (λ octets. octets ≡ crmf_octets wish.now) }
{
    let mut writer = Writer::new(alloc);
    put_request(&mut writer, wish)?;
    put_proof(&mut writer, &wish.proof)?;
    writer.wrap(0x30, 0)?;
    writer.wrap(0x30, 0)?;
    Ok(Octets::of(writer.finish()))
}

/// Writes CertReqMessages with one request (RFC 4211, 3), whose certReqId is 0. `AllocError` where memory runs out.
pub fn write_crmf(alloc: Global, wish: &CrmfWish) -> Result<Octets, AllocError>
    requires { length (crmf_octets wish.now) < 2 ^ 32 }
    ensures written { IfOk result (λ octets. octets ≡ crmf_octets wish.now) }
    // What is written is read again.
    ensures again { (key : Key) → IsWish wish.now key → IfOk result (λ octets. IsCrmf octets (row_of (wished_req wish.now key ∷ []))) }
{
    crmf_written(alloc, wish)
}

/// The identifier of an extensionRequest.
#[tactic(auto, unfolding(crate::specs::Attributes::extension_request_id))]
fn extension_request_oid() -> &'static [u8]
    ensures { result.now ≡ extension_request_id }
{
    EXTENSION_REQUEST
}

/// Puts the SET of one Extensions.
#[tactic(auto, using(asn_types::proofs::LengthLemmas::lengths))]
fn put_extensions(writer: &mut Writer, exts: &[u8]) -> Result<(), AllocError>
    requires { length (element 0x30 exts.now) < 2 ^ 32 }
    ensures { OnOk result (writer.new ≡ writer.old ++ element 0x31 (element 0x30 exts.now)) }
{
    let from = writer.len();
    writer.put(0x30, exts)?;
    writer.wrap(0x31, from)
}

/// Puts an extensionRequest.
#[tactic(auto, using(asn_types::proofs::LengthLemmas::lengths))]
fn put_request_for(writer: &mut Writer, exts: &[u8]) -> Result<(), AllocError>
    requires { length (element 0x06 extension_request_id ++ element 0x31 (element 0x30 exts.now)) < 2 ^ 32 }
    ensures { OnOk result (writer.new ≡ writer.old ++ element 0x30 (element 0x06 extension_request_id ++ element 0x31 (element 0x30 exts.now))) }
{
    let from = writer.len();
    writer.put(0x06, extension_request_oid())?;
    put_extensions(writer, exts)?;
    writer.wrap(0x30, from)
}

/// Puts the attributes, which ask for extensions, where there are some.
#[tactic(auto, using(asn_types::proofs::LengthLemmas::lengths))]
fn put_attributes(writer: &mut Writer, exts: &[u8]) -> Result<(), AllocError>
    requires { length (asked_octets exts.now) < 2 ^ 32 }
    ensures { OnOk result (writer.new ≡ writer.old ++ element 0xA0 (asked_octets exts.now)) }
{
    let from = writer.len();
    if !exts.is_empty() {
        put_request_for(writer, exts)?;
    }
    writer.wrap(0xa0, from)
}

/// The octets of an info.
#[tactic(auto, using(asn_types::proofs::LengthLemmas::lengths))]
fn info_written(alloc: Global, wish: &CrmfWish) -> Result<Octets, AllocError>
    requires { length (info_octets wish.now) < 2 ^ 32 }
    ensures { IfOk result (λ octets. octets ≡ info_octets wish.now) }
{
    let mut writer = Writer::new(alloc);
    writer.put(0x02, &[0])?;
    writer.put_whole(wish.subject.as_slice())?;
    writer.put_whole(wish.spki.as_slice())?;
    put_attributes(&mut writer, wish.exts.as_slice())?;
    writer.wrap(0x30, 0)?;
    Ok(Octets::of(writer.finish()))
}

/// Writes a CertificationRequestInfo of version 0 (RFC 2986, 4.1), which a signature is made over. `AllocError` where memory runs
/// out.
pub fn write_p10_info(alloc: Global, wish: &CrmfWish) -> Result<Octets, AllocError>
    requires { length (info_octets wish.now) < 2 ^ 32 }
    ensures written { IfOk result (λ octets. octets ≡ info_octets wish.now) }
    // What is written is what stands in a request.
    ensures again { (key : Key) → IsAsked wish.now key → IfOk result (λ octets.
        IsElement octets 0x30 (info_content (wished_info wish.now key)) × FitsInfo (wished_info wish.now key)) }
{
    info_written(alloc, wish)
}

/// The octets of a request over an info.
#[tactic(auto, using(asn_types::proofs::LengthLemmas::lengths))]
fn p10_written(alloc: Global, info: &[u8], sig: &[u8]) -> Result<Octets, AllocError>
    requires { length (p10_octets info.now sig.now) < 2 ^ 32 }
    ensures { IfOk result (λ octets. octets ≡ p10_octets info.now sig.now) }
{
    let mut writer = Writer::new(alloc);
    writer.put_whole(info)?;
    put_signature(&mut writer, sig)?;
    writer.wrap(0x30, 0)?;
    Ok(Octets::of(writer.finish()))
}

/// Writes a CertificationRequest (RFC 2986, 4.2) over a whole info, with the octets of its signature of HSS/LMS. `AllocError` where
/// memory runs out.
pub fn write_p10(alloc: Global, info: &[u8], sig: &[u8]) -> Result<Octets, AllocError>
    requires { length (p10_octets info.now sig.now) < 2 ^ 32 }
    ensures written { IfOk result (λ octets. octets ≡ p10_octets info.now sig.now) }
    // What is written is read again.
    ensures again { (inside : InfoForm) → FitsInfo inside → IsElement info.now 0x30 (info_content inside)
        → IfOk result (λ octets. IsP10 octets (written_p10 info.now inside sig.now)) }
{
    p10_written(alloc, info, sig)
}
