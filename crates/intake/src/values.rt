//! Values of DER, as far as a decision compares them.
ghost use Rattle.std.specs.Prelude.{◌≡◌, ◌^◌, Option, Some, None, nat_lt, if◌then◌else◌};
ghost use Rattle.std.specs.Option.{option_copied};
ghost use Rattle.der_base.specs.Reading.{big_endian};
ghost use Rattle.asn_types.specs.Algorithm.{algorithm_of};
ghost use Rattle.pbmac.specs.Params.{is_blank};
ghost use Rattle.intake.specs.Values.{number_in, id_of, is_zero, is_hss, is_plain_hss, is_sha256};
ghost use Rattle.intake.specs.Told.{id_told};

use crate::bodies::ReqId;
use asn_types::{AlgorithmId, HSS_LMS, SHA256};

/// The INTEGER 0, by its content.
const ZERO: &[u8] = &[0];

/// The INTEGER -1.
const MINUS_ONE: &[u8] = &[255];

/// NULL, whole.
const NULL: &[u8] = &[5, 0];

/// The number that octets stand for, the highest first, where it is below 2^64.
#[tactic(auto, unfolding(der_base::specs::Reading::big_endian))]
fn unsigned(octets: &[u8]) -> Option<u64>
    ensures { result ≡ (if nat_lt (big_endian octets.now) (2 ^ 64) then Some (big_endian octets.now) else None) }
{
    let mut n = 0u64;
    for b in octets {
        if n >= 0x100_0000_0000_0000 {
            return None;
        }
        n = n * 256 + u64::from(*b);
    }
    Some(n)
}

/// The number that an INTEGER's content stands for, where it is at least 0 and below 2^64.
#[tactic(auto, unfolding(crate::specs::Values::number_in))]
pub(crate) fn number(content: &[u8]) -> Option<u64>
    ensures { result ≡ number_in content.now }
{
    match content {
        [first, ..] if *first >= 128 => None,
        _ => unsigned(content),
    }
}

/// A certReqId by the content of its INTEGER.
pub(crate) fn req_id(content: &[u8]) -> ReqId
    ensures { id_told result ≡ id_of content.now }
{
    if content == ZERO {
        return ReqId::Zero;
    }
    if content == MINUS_ONE {
        return ReqId::MinusOne;
    }
    ReqId::Other
}

/// Whether the content of an INTEGER is 0.
pub(crate) fn is_zero(content: &[u8]) -> bool
    ensures { result ≡ is_zero content.now }
{
    content == ZERO
}

/// Whether an algorithm is HSS/LMS, with parameters or without them.
pub(crate) fn is_hss(alg: &AlgorithmId) -> bool
    ensures { result ≡ is_hss (algorithm_of alg.now) }
{
    alg.oid == HSS_LMS
}

/// Whether an algorithm is HSS/LMS without parameters.
pub(crate) fn is_plain_hss(alg: &AlgorithmId) -> bool
    ensures { result ≡ is_plain_hss (algorithm_of alg.now) }
{
    is_hss(alg) && alg.params.is_none()
}

/// Whether parameters are NULL or absent.
fn is_blank(params: Option<&[u8]>) -> bool
    ensures { result ≡ is_blank (option_copied params.entry) }
{
    match params {
        None => true,
        Some(whole) => whole == NULL,
    }
}

/// Whether an algorithm is SHA-256.
pub(crate) fn is_sha256(alg: &AlgorithmId) -> bool
    ensures { result ≡ is_sha256 (algorithm_of alg.now) }
{
    alg.oid == SHA256 && is_blank(alg.params)
}
