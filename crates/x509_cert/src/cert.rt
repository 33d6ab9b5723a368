//! Certificates, read.
ghost use Rattle.std.specs.Prelude.{◌≡◌, ◌==◌, ℕ, List, ◌∷◌, IfOk, Some};
ghost use Rattle.der_base.specs.Element.{IsElement};
ghost use Rattle.der_base.specs.Values.{is_bits};
ghost use Rattle.asn_fields.specs.Fields.{Gives};
ghost use Rattle.asn_types.specs.Extension.{is_extensions};
ghost use Rattle.asn_types.specs.Key.{FitsKey, key_content, key_of, key_at};
ghost use Rattle.asn_types.specs.Template.{tested_at, anything_at, extensions_of};
ghost use Rattle.der_base.specs.Values.{bit_string_of};
ghost use Rattle.asn_parts.specs.Parts.{FitsTagged, required_with, sole_with};
ghost use Rattle.x509_cert.specs.Cert.{CertForm, FitsCert, cert_content, cert_octets, tbs_octets, is_version, version_at, key_front_at, extensions_at, tbs_at, cert_inside, cert_at};
ghost use Rattle.x509_cert.specs.Validity.{IsValidity};

use crate::validity::read_validity;
use asn_fields::{BadForm, field, sole};
use asn_parts::{algorithm_field, integer_field, name_field};
use asn_types::{AlgorithmId, Extensions, Name, Spki, read_extensions, read_spki};
use der_base::{Bits, Element, bits};

/// A certificate, whose octets it borrows: the contents of the serial number, of the validity, of the extensions' SEQUENCE and
/// of the signature (its octets, and how many bits at its end are unused), the names as whole elements, the first second and
/// the last one of its validity, and the signed part, a whole element as it stands.
#[derive(Clone, Copy, Debug)]
pub struct Cert<'a> {
    pub serial: &'a [u8],
    pub alg: AlgorithmId<'a>,
    pub issuer: Name<'a>,
    pub validity: &'a [u8],
    pub not_before: u64,
    pub not_after: u64,
    pub subject: Name<'a>,
    pub spki: Spki<'a>,
    pub exts: Extensions<'a>,
    pub tbs: &'a [u8],
    pub sig_alg: AlgorithmId<'a>,
    pub sig_unused: u8,
    pub sig: &'a [u8],
}

/// What stands in the signed part.
#[derive(Clone, Copy)]
struct Signed<'a> {
    serial: &'a [u8],
    alg: AlgorithmId<'a>,
    issuer: Name<'a>,
    validity: &'a [u8],
    subject: Name<'a>,
    spki: Spki<'a>,
    exts: Extensions<'a>,
}

/// What stands in a certificate, its times not looked into.
#[derive(Clone, Copy)]
struct Parts<'a> {
    tbs: Element<'a>,
    signed: Signed<'a>,
    sig_alg: AlgorithmId<'a>,
    sig: Bits<'a>,
}

ghost use Rattle.x509_cert.specs.Cert.{spki_of, signed_of, parts_of, cert_of, dated_of};

/// Whether a content is the number of version 3.
fn is_version(content: &[u8]) -> bool
    ensures { result ≡ is_version content.now }
{
    match content {
        [a, b, c] => *a == 0x02 && *b == 0x01 && *c == 0x02,
        _ => false,
    }
}

/// The octets behind the version.
#[tactic(auto, unfolding(crate::specs::Cert::version_at))]
fn after_version(bytes: &[u8]) -> Result<&[u8], BadForm>
    ensures { Gives (λ octets. octets.now) result (version_at bytes.now) }
{
    let (version, rest) = field(0xa0, bytes)?;
    if is_version(version.content) {
        Ok(rest)
    } else {
        Err(BadForm)
    }
}

/// The content of a validity at the front, and the octets behind it.
#[tactic(auto, unfolding(asn_types::specs::Template::anything_at))]
fn validity_field(bytes: &[u8]) -> Result<(&[u8], &[u8]), BadForm>
    ensures { Gives {Y = List ℕ × List ℕ} (λ r. (r.0.now, r.1.now)) result (required_with anything_at 0x30 bytes.now) }
{
    let (element, rest) = field(0x30, bytes)?;
    Ok((element.content, rest))
}

/// A key at the front, and the octets behind it.
#[tactic(auto, unfolding(crate::specs::Cert::key_front_at))]
fn key_field(bytes: &[u8]) -> Result<(Spki<'_>, &[u8]), BadForm>
    ensures exact { Gives {Y = List ℕ × List ℕ} (λ r. (spki_of r.0, r.1.now)) result (key_front_at bytes.now) }
    ensures key { IfOk result (λ r. FitsKey (key_of r.0) × (r.0.content.now ≡ key_content (key_of r.0))) }
{
    let (element, rest) = field(0x30, bytes)?;
    let key = read_spki(element.content)?;
    Ok((key, rest))
}

/// The row of extensions that a content is.
#[tactic(auto, unfolding(asn_types::specs::Template::tested_at))]
fn row_inside(content: &[u8]) -> Result<Extensions<'_>, BadForm>
    ensures { Gives extensions_of result (tested_at is_extensions content.now) }
{
    read_extensions(content)
}

/// The extensions, which stand alone in their tag.
fn extensions_alone(bytes: &[u8]) -> Result<Extensions<'_>, BadForm>
    ensures { Gives extensions_of result (extensions_at bytes.now) }
{
    let outer = sole(0xa3, bytes)?;
    let sequence = sole(0x30, outer.content)?;
    row_inside(sequence.content)
}

/// Reads what stands in the SEQUENCE of the signed part.
#[tactic(auto, unfolding(crate::specs::Cert::tbs_at))]
fn read_signed(content: &[u8]) -> Result<Signed<'_>, BadForm>
    ensures exact { Gives signed_of result (tbs_at content.now) }
    ensures key { IfOk result (λ s. FitsKey (key_of s.spki) × (s.spki.content.now ≡ key_content (key_of s.spki))) }
{
    let rest = after_version(content)?;
    let (serial, rest) = integer_field(rest)?;
    let (alg, rest) = algorithm_field(rest)?;
    let (issuer, rest) = name_field(rest)?;
    let (validity, rest) = validity_field(rest)?;
    let (subject, rest) = name_field(rest)?;
    let (spki, rest) = key_field(rest)?;
    let exts = extensions_alone(rest)?;
    Ok(Signed {
        serial,
        alg,
        issuer,
        validity,
        subject,
        spki,
        exts,
    })
}

/// The bits that a content is.
#[tactic(auto, unfolding(asn_types::specs::Template::tested_at, der_base::specs::Values::bits_at))]
fn bits_inside(content: &[u8]) -> Result<Bits<'_>, BadForm>
    ensures { Gives {Y = List ℕ} (λ b. b.unused ∷ b.octets.now) result (tested_at is_bits content.now) }
{
    let string = bits(&Element {
        tag: 0x03,
        content,
        whole: content,
    })?;
    Ok(string)
}

/// The signature, which stands alone.
fn signature_alone(bytes: &[u8]) -> Result<Bits<'_>, BadForm>
    ensures { Gives {Y = List ℕ} (λ b. b.unused ∷ b.octets.now) result (sole_with (tested_at is_bits) 0x03 bytes.now) }
{
    let string = sole(0x03, bytes)?;
    bits_inside(string.content)
}

/// Reads what stands in the SEQUENCE of a certificate.
#[tactic(auto, unfolding(crate::specs::Cert::cert_inside))]
fn read_parts(content: &[u8]) -> Result<Parts<'_>, BadForm>
    ensures exact { Gives parts_of result (cert_inside content.now) }
    ensures key { IfOk result (λ p. FitsKey (key_of p.signed.spki) × (p.signed.spki.content.now ≡ key_content (key_of p.signed.spki))) }
    ensures tbs { IfOk result (λ p. IsElement p.tbs.whole.now 0x30 p.tbs.content.now × (tbs_at p.tbs.content.now ≡ Some (signed_of p.signed))) }
{
    let (tbs, rest) = field(0x30, content)?;
    let signed = read_signed(tbs.content)?;
    let (sig_alg, rest) = algorithm_field(rest)?;
    let sig = signature_alone(rest)?;
    Ok(Parts {
        tbs,
        signed,
        sig_alg,
        sig,
    })
}

/// Reads a certificate, its times not looked into.
fn cert_parts(bytes: &[u8]) -> Result<Parts<'_>, BadForm>
    ensures exact { Gives parts_of result (cert_at bytes.now) }
    ensures key { IfOk result (λ p. FitsKey (key_of p.signed.spki) × (p.signed.spki.content.now ≡ key_content (key_of p.signed.spki))) }
    ensures tbs { IfOk result (λ p. IsElement p.tbs.whole.now 0x30 p.tbs.content.now × (tbs_at p.tbs.content.now ≡ Some (signed_of p.signed))) }
{
    let sequence = sole(0x30, bytes)?;
    read_parts(sequence.content)
}

/// A certificate of these parts, where its validity is two times.
fn dated<'a>(parts: &Parts<'a>) -> Result<Cert<'a>, BadForm>
    ensures parts { IfOk result (λ c. (cert_of c ≡ parts_of parts.now) × (c.tbs.now ≡ parts.now.tbs.whole.now) × (c.spki ≡ parts.now.signed.spki)) }
    ensures dates { IfOk result (λ c. IsValidity c.validity.now c.not_before c.not_after) }
    ensures only { (from to : ℕ) → IsValidity parts.now.signed.validity.now from to
        → Gives {Y = CertForm × ℕ × ℕ} dated_of result (Some (parts_of parts.now, from, to)) }
{
    let (not_before, not_after) = read_validity(parts.signed.validity)?;
    let signed = parts.signed;
    Ok(Cert {
        serial: signed.serial,
        alg: signed.alg,
        issuer: signed.issuer,
        validity: signed.validity,
        not_before,
        not_after,
        subject: signed.subject,
        spki: signed.spki,
        exts: signed.exts,
        tbs: parts.tbs.whole,
        sig_alg: parts.sig_alg,
        sig_unused: parts.sig.unused,
        sig: parts.sig.octets,
    })
}

/// Reads a certificate.
fn dated_cert(bytes: &[u8]) -> Result<Cert<'_>, BadForm>
    ensures took { IfOk result (λ c. cert_at bytes.now ≡ Some (cert_of c)) }
    ensures dates { IfOk result (λ c. IsValidity c.validity.now c.not_before c.not_after) }
    ensures key { IfOk result (λ c. FitsKey (key_of c.spki) × (c.spki.content.now ≡ key_content (key_of c.spki))) }
    ensures tbs { IfOk result (λ c. (content : List ℕ) × IsElement c.tbs.now 0x30 content × (tbs_at content ≡ Some (cert_of c).tbs)) }
    ensures only { (f : CertForm) (from to : ℕ) → cert_at bytes.now ≡ Some f → IsValidity f.tbs.validity from to
        → Gives {Y = CertForm × ℕ × ℕ} dated_of result (Some (f, from, to)) }
{
    let parts = cert_parts(bytes)?;
    dated(&parts)
}

/// Reads a certificate of version 3 with extensions (RFC 5280, 4.1), of any algorithms, names and extensions, and without
/// unique identifiers. `BadForm` where the octets are none.
pub fn read_cert(bytes: &[u8]) -> Result<Cert<'_>, BadForm>
    // What is read is spelled so.
    ensures found { IfOk result (λ c. FitsTagged cert_content FitsCert (cert_of c) × (bytes.now ≡ cert_octets (cert_of c))) }
    // The times are those of the validity.
    ensures dates { IfOk result (λ c. IsValidity c.validity.now c.not_before c.not_after) }
    // The signed part is the first element, as it stands.
    ensures signed { IfOk result (λ c. c.tbs.now ≡ tbs_octets (cert_of c).tbs) }
    // The key is read of its element.
    ensures key { IfOk result (λ c. FitsKey (key_of c.spki) × (c.spki.content.now ≡ key_content (key_of c.spki))) }
    // What is spelled so is read.
    ensures only { (f : CertForm) (from to : ℕ) → FitsTagged cert_content FitsCert f → IsValidity f.tbs.validity from to
        → bytes.now ≡ cert_octets f → Gives {Y = CertForm × ℕ × ℕ} dated_of result (Some (f, from, to)) }
{
    dated_cert(bytes)
}
