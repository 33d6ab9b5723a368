//! Checking protections.
ghost use Rattle.std.specs.Prelude.{◌≡◌, ℕ, ◌+◌, ◌^◌, ◌<◌, ◌≤◌, ◌↔◌, length, IfOk, IfSome, IsTrue, Some, None};
ghost use Rattle.std.specs.Option.{option_copied};
ghost use Rattle.asn_types.specs.Algorithm.{algorithm_of};
ghost use Rattle.pbmac_grammar.specs.Pbmac1.{IsPbmac1};
ghost use Rattle.pki_message.specs.Frame.{protected_part};
ghost use Rattle.pki_message.specs.Message.{message_of};
ghost use Rattle.protect.specs.Algorithms.{hss_lms};
ghost use Rattle.protect.specs.Holds.{IsMacAlgorithm, IsMacked, HasOther, HoldsOver, ProtectionHolds};

use crate::fault::CheckFault;
use crate::key::Key;
use asn_types::{AlgorithmId, HSS_LMS};
use cmp_values::{Octets, Short};
use hss_sig::hss_ok;
use pbmac::{MacParams, mac_ok, read_params};
use pbmac_grammar::{params_are_one, params_are_spelled};
use pki_message::{Message, protected_part};
use std::alloc::{AllocError, Global};

/// What the protection of a message is over.
fn part_of(alloc: Global, m: &Message) -> Result<Octets, AllocError>
    requires { length m.now.header_bytes.now + length m.now.body_bytes.now < 2 ^ 32 }
    ensures { IfOk result (λ part. part ≡ protected_part m.now.header_bytes.now m.now.body_bytes.now) }
{
    protected_part(alloc, m.header_bytes, m.body_bytes)
}

/// The parameters of an algorithm that is PBMAC1.
fn params_of(alg: &AlgorithmId) -> Option<MacParams>
    ensures some { IfSome result (λ p. IsPbmac1 (algorithm_of alg.now) p.salt p.rounds) }
    ensures none { (result ≡ None) ↔ (IsMacAlgorithm (algorithm_of alg.now) → ⊥) }
    ensures rounds { IfSome result (λ p. 1 ≤ p.rounds) }
{
    params_are_spelled();
    match read_params(alg) {
        Ok(params) => Some(params),
        Err(_) => None,
    }
}

/// Whether `mac` is the MAC of a part by the parameters of an algorithm.
fn is_mac(secret: &[u8], alg: &AlgorithmId, params: &MacParams, part: &[u8], mac: &[u8]) -> bool
    requires form { IsPbmac1 (algorithm_of alg.now) params.now.salt params.now.rounds }
    requires rounds { 1 ≤ params.now.rounds }
    ensures { IsTrue result ↔ IsMacked secret.now (algorithm_of alg.now) part.now mac.now }
{
    params_are_one();
    mac_ok(secret, params, part, mac)
}

/// Whether the protection of a message with this algorithm is its MAC under a secret.
fn mac_holds(
    alloc: Global,
    m: &Message,
    alg: &AlgorithmId,
    secret: &Short,
) -> Result<bool, CheckFault>
    requires { length m.now.header_bytes.now + length m.now.body_bytes.now < 2 ^ 32 }
    ensures ok { IfOk result (λ b. IsTrue b ↔ HoldsOver (Key.Mac secret.now) (Some (algorithm_of alg.now)) (option_copied m.now.protection) (protected_part m.now.header_bytes.now m.now.body_bytes.now)) }
    ensures bad_alg { (result ≡ Err CheckFault.BadAlg) ↔ HasOther (Key.Mac secret.now) (Some (algorithm_of alg.now)) }
{
    let Some(params) = params_of(alg) else {
        return Err(CheckFault::BadAlg);
    };
    let Some(mac) = m.protection else {
        return Ok(false);
    };
    let part = part_of(alloc, m)?;
    Ok(is_mac(secret.as_slice(), alg, &params, part.as_slice(), mac))
}

/// Whether an algorithm is HSS/LMS without parameters.
#[tactic(auto, unfolding(crate::specs::Algorithms::hss_oid))]
fn is_hss_lms(alg: &AlgorithmId) -> bool
    ensures { IsTrue result ↔ (algorithm_of alg.now ≡ hss_lms) }
{
    alg.oid == HSS_LMS && alg.params.is_none()
}

/// Whether the protection of a message with this algorithm is its signature under a public key.
fn signature_holds(
    alloc: Global,
    m: &Message,
    alg: &AlgorithmId,
    key: &[u8; 60],
) -> Result<bool, CheckFault>
    requires { length m.now.header_bytes.now + length m.now.body_bytes.now < 2 ^ 32 }
    ensures ok { IfOk result (λ b. IsTrue b ↔ HoldsOver (Key.Lms key.now) (Some (algorithm_of alg.now)) (option_copied m.now.protection) (protected_part m.now.header_bytes.now m.now.body_bytes.now)) }
    ensures bad_alg { (result ≡ Err CheckFault.BadAlg) ↔ HasOther (Key.Lms key.now) (Some (algorithm_of alg.now)) }
{
    if !is_hss_lms(alg) {
        return Err(CheckFault::BadAlg);
    }
    let Some(sig) = m.protection else {
        return Ok(false);
    };
    let part = part_of(alloc, m)?;
    Ok(hss_ok(key, part.as_slice(), sig))
}

/// Whether the protection of a message holds under a key (RFC 9810, 5.1.3), over the header and the body as their octets stand in
/// the message. `false` too where no protectionAlg or no protection is there. `BadAlg` where the algorithm is not the key's, or its
/// parameters are not of the form that is accepted; `NoMemory` where memory runs out.
pub fn protection_ok(alloc: Global, m: &Message, key: &Key) -> Result<bool, CheckFault>
    requires { length m.now.header_bytes.now + length m.now.body_bytes.now < 2 ^ 32 }
    ensures ok { IfOk result (λ b. IsTrue b ↔ ProtectionHolds key.now (message_of m.now)) }
    // There is an algorithm, and it is not the key's.
    ensures bad_alg { (result ≡ Err CheckFault.BadAlg) ↔ HasOther key.now (message_of m.now).head.alg }
{
    match m.header.alg {
        None => Ok(false),
        Some(alg) => match key {
            Key::Mac(secret) => mac_holds(alloc, m, &alg, secret),
            Key::Lms(octets) => signature_holds(alloc, m, &alg, octets),
        },
    }
}
