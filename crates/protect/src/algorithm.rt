//! The algorithms of protections, written.
ghost use Rattle.std.specs.Prelude.{◌≡◌, ℕ, ◌≤◌, ◌++◌, length, Some, IfOk};
ghost use Rattle.der_base.specs.Element.{element};
ghost use Rattle.asn_parts.specs.Number.{number_octets};
ghost use Rattle.pbmac.specs.Params.{pbkdf2_oid, pbmac1};
ghost use Rattle.protect.specs.Algorithms.{hss_lms, hmac_algorithm, mac_algorithm, algorithm_octets};

use asn_parts::number;
use asn_types::{HMAC_SHA256, HSS_LMS, PBKDF2, PBMAC1, write_alg};
use cmp_values::Octets;
use der_base::Writer;
use std::alloc::{AllocError, Global};

/// The element NULL.
const NULL: &[u8] = b"\x05\x00";

/// HSS/LMS, without parameters.
#[tactic(auto, using(asn_types::proofs::LengthLemmas::short), unfolding(crate::specs::Algorithms::hss_oid))]
pub(crate) fn hss_lms(alloc: Global) -> Result<Octets, AllocError>
    ensures spelled { IfOk result (λ octets. octets ≡ algorithm_octets hss_lms) }
    ensures short { IfOk result (λ octets. length octets ≤ 32) }
{
    write_alg(alloc, HSS_LMS, None)
}

/// HMAC-SHA-256, with the parameters NULL.
#[tactic(auto, using(asn_types::proofs::LengthLemmas::short), unfolding(pbmac::specs::Params::hmac_sha256))]
fn hmac_sha256(alloc: Global) -> Result<Octets, AllocError>
    ensures spelled { IfOk result (λ octets. octets ≡ algorithm_octets hmac_algorithm) }
    ensures short { IfOk result (λ octets. length octets ≤ 32) }
{
    write_alg(alloc, HMAC_SHA256, Some(NULL))
}

/// The parameters of PBKDF2.
#[tactic(auto, using(asn_types::proofs::LengthLemmas::short))]
fn kdf_params(alloc: Global, salt: &[u8; 16], rounds: u32, prf: &[u8]) -> Result<Octets, AllocError>
    requires { length prf.now ≤ 32 }
    ensures spelled { IfOk result (λ octets. octets ≡ element 0x30 (element 0x04 salt.now ++ (element 0x02 (number_octets rounds) ++ prf.now))) }
    ensures short { IfOk result (λ octets. length octets ≤ 128) }
{
    let mut writer = Writer::new(alloc);
    writer.put(0x04, salt)?;
    writer.put(0x02, number(u64::from(rounds)).as_slice())?;
    writer.put_whole(prf)?;
    writer.wrap(0x30, 0)?;
    Ok(Octets::of(writer.finish()))
}

/// The parameters of PBMAC1.
#[tactic(auto, using(asn_types::proofs::LengthLemmas::short))]
fn scheme_params(alloc: Global, kdf: &[u8], mac: &[u8]) -> Result<Octets, AllocError>
    requires kdf { length kdf.now ≤ 160 }
    requires mac { length mac.now ≤ 32 }
    ensures spelled { IfOk result (λ octets. octets ≡ element 0x30 (kdf.now ++ mac.now)) }
    ensures short { IfOk result (λ octets. length octets ≤ 200) }
{
    let mut writer = Writer::new(alloc);
    writer.put_whole(kdf)?;
    writer.put_whole(mac)?;
    writer.wrap(0x30, 0)?;
    Ok(Octets::of(writer.finish()))
}

/// PBKDF2 with these parameters.
#[tactic(auto, using(asn_types::proofs::LengthLemmas::short), unfolding(pbmac::specs::Params::pbkdf2_oid))]
fn pbkdf2(alloc: Global, params: &[u8]) -> Result<Octets, AllocError>
    requires { length params.now ≤ 128 }
    ensures spelled { IfOk result (λ octets. octets ≡ algorithm_octets (record { oid = pbkdf2_oid; params = Some params.now })) }
    ensures short { IfOk result (λ octets. length octets ≤ 160) }
{
    write_alg(alloc, PBKDF2, Some(params))
}

/// PBMAC1 with these parameters.
#[tactic(auto, using(asn_types::proofs::LengthLemmas::short), unfolding(pbmac::specs::Params::pbmac1))]
fn pbmac1(alloc: Global, params: &[u8]) -> Result<Octets, AllocError>
    requires { length params.now ≤ 200 }
    ensures spelled { IfOk result (λ octets. octets ≡ algorithm_octets (record { oid = pbmac1; params = Some params.now })) }
    ensures short { IfOk result (λ octets. length octets ≤ 256) }
{
    write_alg(alloc, PBMAC1, Some(params))
}

/// PBMAC1 with a salt and a count of rounds.
pub(crate) fn mac_algorithm(
    alloc: Global,
    salt: &[u8; 16],
    rounds: u32,
) -> Result<Octets, AllocError>
    ensures spelled { IfOk result (λ octets. octets ≡ algorithm_octets (mac_algorithm salt.now rounds)) }
    ensures short { IfOk result (λ octets. length octets ≤ 256) }
{
    let hmac = hmac_sha256(alloc)?;
    let params = kdf_params(alloc, salt, rounds, hmac.as_slice())?;
    let kdf = pbkdf2(alloc, params.as_slice())?;
    let scheme = scheme_params(alloc, kdf.as_slice(), hmac.as_slice())?;
    pbmac1(alloc, scheme.as_slice())
}
