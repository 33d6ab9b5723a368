//! The keys and subjects that a request for a certificate asks for.
ghost use Rattle.std.specs.Prelude.{◌≡◌, option_map};
ghost use Rattle.std.specs.Option.{option_copied};
ghost use Rattle.asn_types.specs.Key.{key_of};
ghost use Rattle.intake.specs.Wishes.{is_hss_key, is_bad_key, is_subject};
ghost use Rattle.intake.specs.Bodies.{is_bad_key_in};

use crate::values::{is_hss, is_plain_hss};
use asn_types::Spki;
use hss_sig::read_key;

/// The Name without parts, whole.
const NO_NAME: &[u8] = &[0x30, 0x00];

/// Whether octets are a key of HSS.
fn is_hss_key(key: &[u8]) -> bool
    ensures { result ≡ is_hss_key key.now }
{
    read_key(key).is_ok()
}

/// Whether a key is one of HSS/LMS that isn't in form or has parameters, or one of another algorithm for which no RA vouches.
fn is_bad(by_ra: bool, key: &Spki) -> bool
    ensures { result ≡ is_bad_key by_ra (key_of key.now) }
{
    if is_hss(&key.alg) {
        !(is_plain_hss(&key.alg) && is_hss_key(key.key))
    } else {
        !by_ra
    }
}

/// Whether a key that is there is such a one.
pub(crate) fn is_bad_key(by_ra: bool, key: &Option<Spki>) -> bool
    ensures { result ≡ is_bad_key_in by_ra (option_map key_of key.now) }
{
    match key {
        None => false,
        Some(key) => is_bad(by_ra, key),
    }
}

/// Whether a subject is a Name with at least one part.
#[tactic(auto, unfolding(der_base::specs::Element::element, der_base::specs::Element::length_octets))]
pub(crate) fn is_subject(name: Option<&[u8]>) -> bool
    ensures { result ≡ is_subject (option_copied name.entry) }
{
    match name {
        None => false,
        Some(name) => name != NO_NAME,
    }
}
