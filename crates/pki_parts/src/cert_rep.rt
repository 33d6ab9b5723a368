//! Replies to requests for certificates.
ghost use Rattle.std.specs.Prelude.{◌≡◌, ℕ, ◌^◌, ◌<◌, ◌≤◌, ◌+◌, ◌++◌, ◌==◌, if◌then◌else◌, List, Option, Some, None, option_map, length, IfOk, OnOk};
ghost use Rattle.std.specs.Option.{option_copied};
ghost use Rattle.der_base.specs.Element.{element, IsElement};
ghost use Rattle.der_base.specs.Reading.{part_of};
ghost use Rattle.asn_fields.specs.Fields.{Gives, optional_with};
ghost use Rattle.asn_types.specs.Template.{tested_at, anything_at};
ghost use Rattle.asn_parts.specs.Parts.{required_with, sole_with};
ghost use Rattle.pki_parts.specs.Certificates.{are_certificates};
ghost use Rattle.pki_parts.specs.Status.{StatusForm, option_size};

use crate::certificates::{are_certificates, are_elements};
use crate::identifier::put_id;
use crate::status::{StatusInfo, status_field};
use asn_fields::{BadForm, Entry, Row, field, optional, read_row, sole};
use asn_parts::integer_field;
use cmp_values::Octets;
use der_base::{Element, Writer, whole};
use std::alloc::{AllocError, Global};

/// A whole certificate, or a whole element that is an encrypted one (CertOrEncCert).
#[derive(Clone, Copy)]
pub(crate) enum CertOrEncCert<'a> {
    Certificate(&'a [u8]),
    Encrypted(&'a [u8]),
}

/// A certificate with the whole elements of the private key and of publicationInfo, where they are there (CertifiedKeyPair).
#[derive(Clone, Copy)]
pub(crate) struct KeyPair<'a> {
    pub cert: CertOrEncCert<'a>,
    pub key: Option<&'a [u8]>,
    pub publication: Option<&'a [u8]>,
}

/// A response with all that stands in it.
#[derive(Clone, Copy)]
pub(crate) struct Response<'a> {
    pub id: &'a [u8],
    pub status: StatusInfo<'a>,
    pub pair: Option<KeyPair<'a>>,
    pub info: Option<&'a [u8]>,
}

/// The response to one request (CertResponse, RFC 9810, 5.3.4): the content of its certReqId, its status, and the whole
/// certificate where one is there that is not encrypted.
#[derive(Clone, Copy, Debug, PartialEq, Eq)]
pub struct CertResponse<'a> {
    pub id: &'a [u8],
    pub status: StatusInfo<'a>,
    pub cert: Option<&'a [u8]>,
}

/// The reply to requests for certificates (CertRepMessage, RFC 9810, 5.3.4): the whole certificates of caPubs, one behind the
/// other, where it is there, how many responses there are, and the first one. All of them were read.
#[derive(Clone, Copy, Debug, PartialEq, Eq)]
pub struct CertRep<'a> {
    pub ca_pubs: Option<&'a [u8]>,
    pub count: u64,
    pub first: Option<CertResponse<'a>>,
}

ghost use Rattle.pki_parts.specs.CertRep.{CertForm, ResponseForm, RepForm, IsCertRep, IsWritten, cert_of, pair_of, response_of, shown_by, rep_of, shown_of, certificate_at, any_alone_at, cert_front_at, pair_at, response_at, rep_at, ca_pubs_spelling, pair_octets, response_octets, rep_octets, written_rep};

/// A row of certificates, which stands alone in its SEQUENCE.
#[tactic(auto, unfolding(asn_types::specs::Template::tested_at))]
fn certificates_alone(bytes: &[u8]) -> Result<&[u8], BadForm>
    ensures { Gives (λ octets. octets.now) result (sole_with (tested_at are_certificates) 0x30 bytes.now) }
{
    let sequence = sole(0x30, bytes)?;
    if are_certificates(sequence.content) {
        Ok(sequence.content)
    } else {
        Err(BadForm)
    }
}

/// The certificates of caPubs where it stands at the front, and the octets behind it.
fn ca_pubs_field(bytes: &[u8]) -> Result<(Option<&[u8]>, &[u8]), BadForm>
    ensures { Gives (λ r. (option_copied r.0, r.1.now)) result (optional_with (sole_with (tested_at are_certificates) 0x30) 0xA1 bytes.now) }
{
    let (element, rest) = optional(0xa1, bytes)?;
    match element {
        None => Ok((None, rest)),
        Some(element) => {
            let octets = certificates_alone(element.content)?;
            Ok((Some(octets), rest))
        }
    }
}

/// The one certificate that the octets are.
#[tactic(auto, unfolding(crate::specs::CertRep::certificate_at))]
fn certificate_alone(bytes: &[u8]) -> Result<&[u8], BadForm>
    ensures { Gives (λ octets. octets.now) result (certificate_at bytes.now) }
{
    let sequence = sole(0x30, bytes)?;
    if are_elements(sequence.content) {
        Ok(sequence.whole)
    } else {
        Err(BadForm)
    }
}

/// A certificate in the tag 0 where this stands at the front, and the octets behind it.
fn certificate_field(bytes: &[u8]) -> Result<(Option<&[u8]>, &[u8]), BadForm>
    ensures { Gives (λ r. (option_copied r.0, r.1.now)) result (optional_with certificate_at 0xA0 bytes.now) }
{
    let (element, rest) = optional(0xa0, bytes)?;
    match element {
        None => Ok((None, rest)),
        Some(element) => {
            let octets = certificate_alone(element.content)?;
            Ok((Some(octets), rest))
        }
    }
}

/// The one element that the octets are, of any form.
#[tactic(auto, unfolding(crate::specs::CertRep::any_alone_at))]
fn any_alone(bytes: &[u8]) -> Result<&[u8], BadForm>
    ensures { Gives (λ octets. octets.now) result (any_alone_at bytes.now) }
{
    let element = whole(bytes)?;
    Ok(element.whole)
}

/// One element of any form in a tag where this stands at the front, and the octets behind it.
fn any_field(tag: u8, bytes: &[u8]) -> Result<(Option<&[u8]>, &[u8]), BadForm>
    ensures { Gives (λ r. (option_copied r.0, r.1.now)) result (optional_with any_alone_at tag bytes.now) }
{
    let (element, rest) = optional(tag, bytes)?;
    match element {
        None => Ok((None, rest)),
        Some(element) => {
            let octets = any_alone(element.content)?;
            Ok((Some(octets), rest))
        }
    }
}

/// An encrypted certificate in the tag 1 at the front, and the octets behind it.
fn encrypted_field(bytes: &[u8]) -> Result<(&[u8], &[u8]), BadForm>
    ensures { Gives {Y = List ℕ × List ℕ} (λ r. (r.0.now, r.1.now)) result (required_with any_alone_at 0xA1 bytes.now) }
{
    let (element, rest) = field(0xa1, bytes)?;
    let octets = any_alone(element.content)?;
    Ok((octets, rest))
}

/// A certificate at the front, encrypted or not, and the octets behind it.
#[tactic(auto, unfolding(crate::specs::CertRep::cert_front_at))]
fn cert_field(bytes: &[u8]) -> Result<(CertOrEncCert<'_>, &[u8]), BadForm>
    ensures { Gives {Y = CertForm × List ℕ} (λ r. (cert_of r.0, r.1.now)) result (cert_front_at bytes.now) }
{
    let (certificate, rest) = certificate_field(bytes)?;
    match certificate {
        Some(octets) => Ok((CertOrEncCert::Certificate(octets), rest)),
        None => {
            let (octets, rest) = encrypted_field(rest)?;
            Ok((CertOrEncCert::Encrypted(octets), rest))
        }
    }
}

/// Reads what stands in the SEQUENCE of a certified key pair.
#[tactic(auto, unfolding(crate::specs::CertRep::pair_at))]
fn pair_inside(bytes: &[u8]) -> Result<KeyPair<'_>, BadForm>
    ensures { Gives pair_of result (pair_at bytes.now) }
{
    let (cert, rest) = cert_field(bytes)?;
    let (key, rest) = any_field(0xa0, rest)?;
    let (publication, rest) = any_field(0xa1, rest)?;
    if !rest.is_empty() {
        return Err(BadForm);
    }
    Ok(KeyPair {
        cert,
        key,
        publication,
    })
}

/// A certified key pair where one stands at the front, and the octets behind it.
fn pair_field(bytes: &[u8]) -> Result<(Option<KeyPair<'_>>, &[u8]), BadForm>
    ensures { Gives (λ r. (option_map pair_of r.0, r.1.now)) result (optional_with pair_at 0x30 bytes.now) }
{
    let (element, rest) = optional(0x30, bytes)?;
    match element {
        None => Ok((None, rest)),
        Some(element) => {
            let pair = pair_inside(element.content)?;
            Ok((Some(pair), rest))
        }
    }
}

/// A rspInfo where one stands at the front, and the octets behind it.
#[tactic(auto, unfolding(asn_types::specs::Template::anything_at))]
fn info_field(bytes: &[u8]) -> Result<(Option<&[u8]>, &[u8]), BadForm>
    ensures { Gives (λ r. (option_copied r.0, r.1.now)) result (optional_with anything_at 0x04 bytes.now) }
{
    let (element, rest) = optional(0x04, bytes)?;
    match element {
        None => Ok((None, rest)),
        Some(element) => Ok((Some(element.content), rest)),
    }
}

/// Reads what stands in the SEQUENCE of a response.
#[tactic(auto, unfolding(crate::specs::CertRep::response_at))]
fn response_inside(bytes: &[u8]) -> Result<Response<'_>, BadForm>
    ensures { Gives response_of result (response_at bytes.now) }
{
    let (id, rest) = integer_field(bytes)?;
    let (status, rest) = status_field(rest)?;
    let (pair, rest) = pair_field(rest)?;
    let (info, rest) = info_field(rest)?;
    if !rest.is_empty() {
        return Err(BadForm);
    }
    Ok(Response {
        id,
        status,
        pair,
        info,
    })
}

impl<'a> Entry<'a> for Response<'a> {
    ghost Form = { ResponseForm };

    ghost form_of = { response_of };

    ghost reading = { response_at };

    fn read(content: &'a [u8]) -> Result<Self, BadForm> {
        response_inside(content)
    }
}

/// What a reply shows of a response.
fn shown<'a>(response: &Response<'a>) -> CertResponse<'a>
    ensures { shown_by result ≡ shown_of (response_of response.now) }
{
    CertResponse {
        id: response.id,
        status: response.status,
        cert: match response.pair {
            None => None,
            Some(pair) => match pair.cert {
                CertOrEncCert::Certificate(octets) => Some(octets),
                CertOrEncCert::Encrypted(_) => None,
            },
        },
    }
}

/// Reads what stands in the SEQUENCE of a reply.
#[tactic(auto, unfolding(crate::specs::CertRep::rep_at))]
fn rep_inside(content: &[u8]) -> Result<CertRep<'_>, BadForm>
    ensures { Gives rep_of result (rep_at content.now) }
{
    let (ca_pubs, rest) = ca_pubs_field(content)?;
    let sequence = sole(0x30, rest)?;
    let row: Row<Response<'_>> = read_row(0x30, sequence.content)?;
    let first = match row.first {
        None => None,
        Some(response) => Some(shown(&response)),
    };
    Ok(CertRep {
        ca_pubs,
        count: row.count,
        first,
    })
}

/// Reads an element that is a reply.
fn rep_element<'a>(e: &Element<'a>) -> Result<CertRep<'a>, BadForm>
    ensures { Gives rep_of result (if e.now.tag == 0x30 then rep_at e.now.content.now else None) }
{
    if e.tag == 0x30 {
        rep_inside(e.content)
    } else {
        Err(BadForm)
    }
}

/// Reads the reply to requests for certificates (RFC 9810, 5.3.4), each response in it. `BadForm` where the element is none.
pub fn read_cert_rep<'a>(e: &Element<'a>) -> Result<CertRep<'a>, BadForm>
    // What is read is a SEQUENCE, and spelled so.
    ensures found { IfOk result (λ r. (e.now.tag ≡ 0x30) × IsCertRep e.now.content.now (rep_of r)) }
    // What is spelled so is read.
    ensures only { (rep : RepForm) → e.now.tag ≡ 0x30 → IsCertRep e.now.content.now rep → Gives rep_of result (Some rep) }
    ensures exact { Gives rep_of result (if e.now.tag == 0x30 then rep_at e.now.content.now else None) }
{
    rep_element(e)
}

/// Puts the certificates of caPubs, where there is one.
#[tactic(auto, using(asn_types::proofs::LengthLemmas::lengths))]
fn put_ca_pubs(writer: &mut Writer, ca_pubs: Option<&[u8]>) -> Result<(), AllocError>
    requires { length (ca_pubs_spelling (option_copied ca_pubs)) < 2 ^ 32 }
    ensures { OnOk result (writer.new ≡ writer.old ++ ca_pubs_spelling (option_copied ca_pubs.entry)) }
{
    match ca_pubs {
        None => Ok(()),
        Some(octets) => {
            let from = writer.len();
            writer.put(0x30, octets)?;
            writer.wrap(0xa1, from)
        }
    }
}

/// Puts a certified key pair with a certificate alone, where there is one.
#[tactic(auto, using(asn_types::proofs::LengthLemmas::lengths))]
fn put_pair(writer: &mut Writer, cert: Option<&[u8]>) -> Result<(), AllocError>
    requires { length (pair_octets (option_copied cert)) < 2 ^ 32 }
    ensures { OnOk result (writer.new ≡ writer.old ++ pair_octets (option_copied cert.entry)) }
{
    match cert {
        None => Ok(()),
        Some(octets) => {
            let from = writer.len();
            writer.put(0xa0, octets)?;
            writer.wrap(0x30, from)
        }
    }
}

/// Puts a response.
#[tactic(auto, using(asn_types::proofs::LengthLemmas::lengths))]
fn put_response(
    writer: &mut Writer,
    id: i8,
    status: &[u8],
    cert: Option<&[u8]>,
) -> Result<(), AllocError>
    requires { length (response_octets id status.now (option_copied cert)) < 2 ^ 32 }
    ensures { OnOk result (writer.new ≡ writer.old ++ element 0x30 (response_octets id status.now (option_copied cert.entry))) }
{
    let from = writer.len();
    put_id(writer, id)?;
    writer.put_whole(status)?;
    put_pair(writer, cert)?;
    writer.wrap(0x30, from)
}

/// Puts the SEQUENCE of one response.
#[tactic(auto, using(asn_types::proofs::LengthLemmas::lengths))]
fn put_responses(
    writer: &mut Writer,
    id: i8,
    status: &[u8],
    cert: Option<&[u8]>,
) -> Result<(), AllocError>
    requires { length (element 0x30 (response_octets id status.now (option_copied cert))) < 2 ^ 32 }
    ensures { OnOk result (writer.new ≡ writer.old ++ element 0x30 (element 0x30 (response_octets id status.now (option_copied cert.entry)))) }
{
    let from = writer.len();
    put_response(writer, id, status, cert)?;
    writer.wrap(0x30, from)
}

/// The octets of a reply.
#[tactic(auto, using(asn_types::proofs::LengthLemmas::lengths))]
fn rep_written(
    alloc: Global,
    ca_pubs: Option<&[u8]>,
    id: i8,
    status: &[u8],
    cert: Option<&[u8]>,
) -> Result<Octets, AllocError>
    requires { length (rep_octets (option_copied ca_pubs) id status.now (option_copied cert)) < 2 ^ 32 }
    ensures { IfOk result (λ octets. octets ≡ element 0x30 (rep_octets (option_copied ca_pubs.entry) id status.now (option_copied cert.entry))) }
{
    let mut writer = Writer::new(alloc);
    put_ca_pubs(&mut writer, ca_pubs)?;
    put_responses(&mut writer, id, status, cert)?;
    writer.wrap(0x30, 0)?;
    Ok(Octets::of(writer.finish()))
}

/// Writes the reply to one request for a certificate (RFC 9810, 5.3.4): the whole certificates of caPubs where it is to be there,
/// the certReqId, the whole status, and the whole certificate where there is one. `AllocError` where memory runs out.
#[tactic(auto, using(crate::proofs::CertRepLemmas::sizes))]
pub fn write_cert_rep(
    alloc: Global,
    ca_pubs: Option<&[u8]>,
    id: i8,
    status: &[u8],
    cert: Option<&[u8]>,
) -> Result<Octets, AllocError>
    requires { option_size (option_copied ca_pubs) + length status.now + option_size (option_copied cert) + 64 < 2 ^ 32 }
    ensures written { IfOk result (λ octets. octets ≡ element 0x30 (rep_octets (option_copied ca_pubs.entry) id status.now (option_copied cert.entry))) }
    ensures size { IfOk result (λ octets. length octets ≤ option_size (option_copied ca_pubs.entry) + length status.now + option_size (option_copied cert.entry) + 64) }
    // What is written of parts that have the forms of their types is read again as these.
    ensures again { (form : StatusForm) → IsWritten (option_copied ca_pubs.entry) status.now form (option_copied cert.entry)
        → IfOk result (λ octets. IsElement octets 0x30 (rep_octets (option_copied ca_pubs.entry) id status.now (option_copied cert.entry))
        × IsCertRep (rep_octets (option_copied ca_pubs.entry) id status.now (option_copied cert.entry)) (written_rep (option_copied ca_pubs.entry) id form (option_copied cert.entry))) }
{
    rep_written(alloc, ca_pubs, id, status, cert)
}
