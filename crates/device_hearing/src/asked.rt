//! Whether a certificate is the one that was asked for.
ghost use Rattle.std.specs.Prelude.{◌≡◌, ◌↔◌, ℕ, List, Some, None, IsTrue, IfSome};
ghost use Rattle.std.specs.Option.{option_copied};
ghost use Rattle.der_base.specs.Element.{element};
ghost use Rattle.asn_types.specs.Algorithm.{algorithm_of};
ghost use Rattle.asn_types.specs.Key.{key_of, spki_content};
ghost use Rattle.x509_cert.specs.Cert.{cert_of, tbs_octets};
ghost use Rattle.protect.specs.Algorithms.{hss_lms};
ghost use Rattle.device_hearing.specs.Trust.{IsAbout, IsPublished, IsRootOf, IsGranted, IsIssuedFor, IsAskedFor};

use crate::certificates::{certificate, first_in, is_certified};
use crate::listener::{Listener, ReplyGuard};
use crate::numbers::number;
use asn_types::{AlgorithmId, HSS_LMS};
use x509_cert::Cert;

/// Whether an algorithm is HSS/LMS without parameters.
#[tactic(auto, unfolding(protect::specs::Algorithms::hss_oid))]
fn is_hss_lms(alg: &AlgorithmId) -> bool
    ensures { IsTrue result ↔ (algorithm_of alg.now ≡ hss_lms) }
{
    alg.oid == HSS_LMS && alg.params.is_none()
}

/// Whether octets are a key.
fn is_key(key: &[u8; 60], octets: &[u8]) -> bool
    ensures { IsTrue result ↔ (octets.now ≡ key.now) }
{
    octets == key.as_slice()
}

/// Whether a certificate is about an HSS key.
fn is_about(key: &[u8; 60], cert: &Cert) -> bool
    requires { IsAbout (cert_of cert.now) (key_of cert.now.spki) }
    ensures { IsTrue result ↔ ((cert_of cert.now).tbs.spki ≡ element 0x30 (spki_content hss_lms key.now)) }
{
    is_hss_lms(&cert.spki.alg) && is_key(key, cert.spki.key)
}

/// Whether a certificate is one of the root, over the key.
fn is_granted(root: &[u8], key: &[u8; 60], cert: &Cert) -> bool
    requires signed { cert.now.tbs.now ≡ tbs_octets (cert_of cert.now).tbs }
    requires about { IsAbout (cert_of cert.now) (key_of cert.now.spki) }
    ensures { IsTrue result ↔ IsGranted root.now key.now (cert_of cert.now) }
{
    if number(cert.serial).is_none() {
        return false;
    }
    is_certified(root, cert) && is_about(key, cert)
}

/// Whether octets are a certificate of the root, over the key.
fn is_issued_for(root: &[u8], key: &[u8; 60], cert: &[u8]) -> bool
    ensures { IsTrue result ↔ IsIssuedFor root.now key.now cert.now }
{
    match certificate(cert) {
        Some(cert) => is_granted(root, key, &cert),
        None => false,
    }
}

/// The key of the first certificate of caPubs.
fn published(ca_pubs: Option<&[u8]>) -> Option<&[u8]>
    ensures some { IfSome result (λ root. IsPublished (option_copied ca_pubs.entry) root.now) }
    ensures only { (root : List ℕ) → IsPublished (option_copied ca_pubs.entry) root → option_copied result ≡ Some root }
{
    match first_in(ca_pubs) {
        Some(cert) => Some(cert.spki.key),
        None => None,
    }
}

/// The root of a reply, where none is known.
fn root_by<'a>(guard: &ReplyGuard, ca_pubs: Option<&'a [u8]>) -> Option<&'a [u8]>
    ensures some { IfSome result (λ root. IsRootOf guard.now None (option_copied ca_pubs.entry) root.now) }
    ensures only { (root : List ℕ) → IsRootOf guard.now None (option_copied ca_pubs.entry) root → option_copied result ≡ Some root }
{
    match guard {
        ReplyGuard::Mac(_) => published(ca_pubs),
        ReplyGuard::Signed => None,
    }
}

/// The root by which the certificate of a reply is trusted.
fn root_of<'a>(listener: &'a Listener, ca_pubs: Option<&'a [u8]>) -> Option<&'a [u8]>
    ensures some { IfSome result (λ root. IsRootOf listener.now.guard listener.now.root (option_copied ca_pubs.entry) root.now) }
    ensures only { (root : List ℕ) → IsRootOf listener.now.guard listener.now.root (option_copied ca_pubs.entry) root → option_copied result ≡ Some root }
{
    match &listener.root {
        Some(root) => Some(root.as_slice()),
        None => root_by(&listener.guard, ca_pubs),
    }
}

/// Whether a certificate is the one that was asked for, in a reply with these certificates of the authority.
pub(crate) fn is_asked_for(listener: &Listener, ca_pubs: Option<&[u8]>, cert: &[u8]) -> bool
    ensures { IsTrue result ↔ IsAskedFor listener.now (option_copied ca_pubs.entry) cert.now }
{
    match root_of(listener, ca_pubs) {
        Some(root) => is_issued_for(root, &listener.key, cert),
        None => false,
    }
}
