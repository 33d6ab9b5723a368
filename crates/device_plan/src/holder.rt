//! What a device says of itself: what stands in the plan, or in its certificate.
ghost use Rattle.std.specs.Prelude.{◌≡◌, ◌+◌, ◌^◌, ◌<◌, ◌≤◌, ℕ, List, length, Option, Some, None, IfOk};
ghost use Rattle.asn_parts.specs.Parts.{sole_with};
ghost use Rattle.asn_types.specs.Key.{key_at, key_of, key_identifier};
ghost use Rattle.x509_cert.specs.Cert.{CertForm, cert_at, cert_of};
ghost use Rattle.intake.specs.Values.{number_in};
ghost use Rattle.device_plan.specs.Plans.{IsCertificate, IsGuard, IsPlan, list_limit, cert_in, key_in, subject_by, kid_by, serial_by, sender_in, kid_in, old_in};

use crate::plan::{DeviceGuard, DevicePlan};
use crate::serial::number;
use asn_types::key_id;
use cmp_values::Octets;
use deal_changes::Body4;
use std::alloc::{AllocError, Global};
use x509_cert::{Cert, read_cert};

/// The certificate that octets are.
fn certificate(octets: &[u8]) -> Cert<'_>
    requires form { ∥ IsCertificate octets.now ∥₁ }
    requires short { length octets.now ≤ list_limit }
    ensures took { cert_at octets.now ≡ Some (cert_of result) }
    ensures key { key_in (cert_of result) ≡ result.spki.key.now }
    ensures within { length result.subject.whole.now ≤ length octets.now }
{
    let Ok(cert) = read_cert(octets) else {
        unreachable!()
    };
    cert
}

/// The subject of a certificate.
fn subject_of(alloc: Global, cert: &[u8]) -> Result<Octets, AllocError>
    requires form { ∥ IsCertificate cert.now ∥₁ }
    requires short { length cert.now ≤ list_limit }
    ensures written { (subject : List ℕ) → IfOk result (λ o. o ≡ subject_by subject (cert_at cert.now)) }
    ensures short { IfOk result (λ o. length o ≤ length cert.now) }
{
    let cert = certificate(cert);
    Octets::copy_of(alloc, cert.subject.whole)
}

/// The sender's Name.
pub(crate) fn sender(alloc: Global, plan: &DevicePlan) -> Result<Octets, AllocError>
    requires { IsPlan plan.now }
    ensures written { IfOk result (λ o. o ≡ sender_in plan.now) }
    ensures short { IfOk result (λ o. length o ≤ list_limit) }
{
    match &plan.guard {
        DeviceGuard::Mac { .. } => Octets::copy_of(alloc, plan.subject.as_slice()),
        DeviceGuard::Signed { cert } => subject_of(alloc, cert.as_slice()),
    }
}

/// The identifier of a certificate's key.
fn key_id_of(cert: &[u8]) -> [u8; 20]
    requires form { ∥ IsCertificate cert.now ∥₁ }
    requires short { length cert.now ≤ list_limit }
    ensures { (own : List ℕ) → result ≡ kid_by (DeviceGuard.Signed own) (cert_at cert.now) }
{
    let cert = certificate(cert);
    key_id(cert.spki.key)
}

/// The senderKID.
pub(crate) fn kid(alloc: Global, plan: &DevicePlan) -> Result<Octets, AllocError>
    requires { IsPlan plan.now }
    ensures written { IfOk result (λ o. o ≡ kid_in plan.now) }
    ensures short { IfOk result (λ o. length o ≤ 64) }
{
    match &plan.guard {
        DeviceGuard::Mac { reference, .. } => Octets::copy_of(alloc, reference.as_slice()),
        DeviceGuard::Signed { cert } => Octets::copy_of(alloc, &key_id_of(cert.as_slice())),
    }
}

/// The serial number of a certificate.
fn serial_of(cert: &[u8]) -> Option<u64>
    requires form { ∥ IsCertificate cert.now ∥₁ }
    requires short { length cert.now ≤ list_limit }
    ensures { result ≡ serial_by (cert_at cert.now) }
{
    let cert = certificate(cert);
    number(cert.serial)
}

/// The serial number of the certificate by which a device shows who it is.
fn own_serial(plan: &DevicePlan) -> Option<u64>
    requires { IsPlan plan.now }
    ensures { result ≡ serial_by (cert_in plan.now.guard) }
{
    match &plan.guard {
        DeviceGuard::Mac { .. } => None,
        DeviceGuard::Signed { cert } => serial_of(cert.as_slice()),
    }
}

/// The serial number of the certificate that a key update replaces.
pub(crate) fn old(plan: &DevicePlan) -> Option<u64>
    requires { IsPlan plan.now }
    ensures { result ≡ old_in plan.now }
{
    match plan.body {
        Body4::Kur => own_serial(plan),
        Body4::Ir => None,
        Body4::Cr => None,
        Body4::P10cr => None,
    }
}
