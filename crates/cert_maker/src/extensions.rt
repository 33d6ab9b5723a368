//! The extensions of the service's certificates.
ghost use Rattle.std.specs.Prelude.{◌≡◌, ℕ, ◌+◌, ◌^◌, ◌<◌, ◌≤◌, ◌++◌, [], ◌∷◌, length, true, false, IfOk, OnOk};
ghost use Rattle.der_base.specs.Element.{element};
ghost use Rattle.asn_types.specs.Extension.{ExtensionForm, extension_content};
ghost use Rattle.cert_maker.specs.Plans.{subject_key, authority_key, authority_constraints, signs_messages, signs_certificates};

use asn_types::{
    AUTHORITY_KEY_IDENTIFIER, BASIC_CONSTRAINTS, KEY_USAGE, SUBJECT_KEY_IDENTIFIER, key_id,
    write_extension,
};
use cmp_values::Octets;
use der_base::Writer;
use std::alloc::{AllocError, Global};

/// subjectKeyIdentifier, of a key's octets (RFC 5280, 4.2.1.2).
#[tactic(auto, using(asn_types::proofs::LengthLemmas::short))]
pub(crate) fn subject_key(alloc: Global, key: &[u8]) -> Result<Octets, AllocError>
    ensures written { IfOk result (λ octets. octets ≡ subject_key key.now) }
    ensures short { IfOk result (λ octets. length octets ≤ 64) }
{
    let mut writer = Writer::new(alloc);
    writer.put(0x04, &key_id(key))?;
    let value = Octets::of(writer.finish());
    write_extension(alloc, SUBJECT_KEY_IDENTIFIER, false, value.as_slice())
}

/// authorityKeyIdentifier, of the octets of the key that signs (RFC 5280, 4.2.1.1).
#[tactic(auto, using(asn_types::proofs::LengthLemmas::short))]
pub(crate) fn authority_key(alloc: Global, key: &[u8]) -> Result<Octets, AllocError>
    ensures written { IfOk result (λ octets. octets ≡ authority_key key.now) }
    ensures short { IfOk result (λ octets. length octets ≤ 64) }
{
    let mut writer = Writer::new(alloc);
    writer.put(0x80, &key_id(key))?;
    writer.wrap(0x30, 0)?;
    let value = Octets::of(writer.finish());
    write_extension(alloc, AUTHORITY_KEY_IDENTIFIER, false, value.as_slice())
}

/// basicConstraints of an authority, with cA TRUE (RFC 5280, 4.2.1.9).
#[tactic(auto, using(asn_types::proofs::LengthLemmas::short))]
fn authority_constraints(alloc: Global) -> Result<Octets, AllocError>
    ensures written { IfOk result (λ octets. octets ≡ authority_constraints) }
    ensures short { IfOk result (λ octets. length octets ≤ 64) }
{
    let mut writer = Writer::new(alloc);
    writer.put(0x01, &[0xff])?;
    writer.wrap(0x30, 0)?;
    let value = Octets::of(writer.finish());
    write_extension(alloc, BASIC_CONSTRAINTS, true, value.as_slice())
}

/// keyUsage with digitalSignature, its bit 0 (RFC 5280, 4.2.1.3).
#[tactic(auto, using(asn_types::proofs::LengthLemmas::short))]
pub(crate) fn signs_messages(alloc: Global) -> Result<Octets, AllocError>
    ensures written { IfOk result (λ octets. octets ≡ signs_messages) }
    ensures short { IfOk result (λ octets. length octets ≤ 64) }
{
    let mut writer = Writer::new(alloc);
    writer.put(0x03, &[7, 0x80])?;
    let value = Octets::of(writer.finish());
    write_extension(alloc, KEY_USAGE, true, value.as_slice())
}

/// keyUsage with keyCertSign, its bit 5 (RFC 5280, 4.2.1.3).
#[tactic(auto, using(asn_types::proofs::LengthLemmas::short))]
fn signs_certificates(alloc: Global) -> Result<Octets, AllocError>
    ensures written { IfOk result (λ octets. octets ≡ signs_certificates) }
    ensures short { IfOk result (λ octets. length octets ≤ 64) }
{
    let mut writer = Writer::new(alloc);
    writer.put(0x03, &[2, 0x04])?;
    let value = Octets::of(writer.finish());
    write_extension(alloc, KEY_USAGE, true, value.as_slice())
}

/// The extensions of the authority's own certificate.
pub(crate) fn root_extensions(alloc: Global, key: &[u8; 60]) -> Result<Octets, AllocError>
    ensures written { IfOk result (λ octets. octets ≡ subject_key key.now ++ (authority_constraints ++ signs_certificates)) }
    ensures short { IfOk result (λ octets. length octets ≤ 192) }
{
    let mut row = subject_key(alloc, key)?;
    row.append(authority_constraints(alloc)?.as_slice())?;
    row.append(signs_certificates(alloc)?.as_slice())?;
    Ok(row)
}

/// The extensions of the certificate of the key that signs replies.
pub(crate) fn reply_extensions(
    alloc: Global,
    issuer: &[u8; 60],
    key: &[u8; 60],
) -> Result<Octets, AllocError>
    ensures written { IfOk result (λ octets. octets ≡ authority_key issuer.now ++ (subject_key key.now ++ signs_messages)) }
    ensures short { IfOk result (λ octets. length octets ≤ 192) }
{
    let mut row = authority_key(alloc, issuer)?;
    row.append(subject_key(alloc, key)?.as_slice())?;
    row.append(signs_messages(alloc)?.as_slice())?;
    Ok(row)
}
