//! Certificates that a reply carries.
ghost use Rattle.std.specs.Prelude.{◌≡◌, ◌↔◌, Some, IsTrue, IfSome, option_map};
ghost use Rattle.std.specs.Option.{option_copied};
ghost use Rattle.asn_types.specs.Key.{key_of};
ghost use Rattle.x509_cert.specs.Cert.{CertForm, cert_of, tbs_octets};
ghost use Rattle.device_hearing.specs.Trust.{IsCertificate, IsFirstOf, IsFirstIn, IsAbout, IsCertifiedBy, SignsReplies};

use crate::numbers::number;
use der_base::read_element;
use hss_sig::hss_ok;
use x509_cert::{Cert, read_cert};

/// The serial number of the certificate of the key that signs an authority's replies.
const REPLY_SERIAL: u64 = 2;

/// The certificate that octets are.
pub(crate) fn certificate(octets: &[u8]) -> Option<Cert<'_>>
    ensures some { IfSome result (λ c. IsCertificate octets.now (cert_of c)) }
    ensures only { (c : CertForm) → IsCertificate octets.now c → option_map cert_of result ≡ Some c }
    ensures signed { IfSome result (λ c. c.tbs.now ≡ tbs_octets (cert_of c).tbs) }
    ensures about { IfSome result (λ c. IsAbout (cert_of c) (key_of c.spki)) }
{
    match read_cert(octets) {
        Ok(cert) => Some(cert),
        Err(_) => None,
    }
}

/// The certificate that stands first in a row.
fn first_of(row: &[u8]) -> Option<Cert<'_>>
    ensures some { IfSome result (λ c. IsFirstOf row.now (cert_of c)) }
    ensures only { (c : CertForm) → IsFirstOf row.now c → option_map cert_of result ≡ Some c }
    ensures signed { IfSome result (λ c. c.tbs.now ≡ tbs_octets (cert_of c).tbs) }
    ensures about { IfSome result (λ c. IsAbout (cert_of c) (key_of c.spki)) }
{
    match read_element(row) {
        Ok((element, _)) => certificate(element.whole),
        Err(_) => None,
    }
}

/// The certificate that stands first in a row, which may be left out.
pub(crate) fn first_in(row: Option<&[u8]>) -> Option<Cert<'_>>
    ensures some { IfSome result (λ c. IsFirstIn (option_copied row.entry) (cert_of c)) }
    ensures only { (c : CertForm) → IsFirstIn (option_copied row.entry) c → option_map cert_of result ≡ Some c }
    ensures signed { IfSome result (λ c. c.tbs.now ≡ tbs_octets (cert_of c).tbs) }
    ensures about { IfSome result (λ c. IsAbout (cert_of c) (key_of c.spki)) }
{
    match row {
        Some(row) => first_of(row),
        None => None,
    }
}

/// Whether a root certified a certificate.
pub(crate) fn is_certified(root: &[u8], cert: &Cert) -> bool
    requires { cert.now.tbs.now ≡ tbs_octets (cert_of cert.now).tbs }
    ensures { IsTrue result ↔ IsCertifiedBy root.now (cert_of cert.now) }
{
    hss_ok(root, cert.tbs, cert.sig)
}

/// Whether a certificate's key signs the replies of a root's authority.
pub(crate) fn signs_replies(root: &[u8], cert: &Cert) -> bool
    requires { cert.now.tbs.now ≡ tbs_octets (cert_of cert.now).tbs }
    ensures { IsTrue result ↔ SignsReplies root.now (cert_of cert.now) }
{
    number(cert.serial) == Some(REPLY_SERIAL) && is_certified(root, cert)
}
