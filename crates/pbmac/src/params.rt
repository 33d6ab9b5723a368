ghost use Rattle.std.specs.Prelude.{◌≡◌, ℕ, List, ◌≤◌, ◌+◌, length, IfOk, ⊤, []};
ghost use Rattle.std.specs.Option.{option_copied};
ghost use Rattle.der_base.specs.Reading.{part_of};
ghost use Rattle.asn_fields.specs.Fields.{Gives};
ghost use Rattle.pbmac.specs.Algorithm.{algorithm_of};
ghost use Rattle.pbmac.specs.Params.{is_blank, is_hmac_sha256, rounds_of, key_length_at, salt_at, count_at, sole_hmac_at, kdf_inside, inside_params, scheme_inside, params_at, pbkdf2_oid, pbmac1, accepted};

use crate::fault::BadAlg;
use asn_fields::{field, optional, sole};
use asn_types::{AlgorithmId, HMAC_SHA256, PBKDF2, PBMAC1, read_alg_content};
use cmp_values::Short;
use der_base::integer;

/// What PBKDF2 takes besides the secret: the salt, of 8 to 64 octets, and how many rounds, 1 to 200,000.
#[derive(Clone, Copy, Debug)]
pub struct MacParams {
    pub salt: Short,
    pub rounds: u32,
}

/// The greatest count of rounds that is accepted, so that a message costs a verifier little.
const MAX_ROUNDS: u32 = 200_000;

/// The element NULL.
const NULL: &[u8] = b"\x05\x00";

/// The content of an INTEGER that is 32.
const KEY_LENGTH: &[u8] = b"\x20";

/// Whether parameters are NULL or absent.
fn is_blank(params: Option<&[u8]>) -> bool
    ensures { result ≡ is_blank (option_copied params.entry) }
{
    match params {
        None => true,
        Some(whole) => whole == NULL,
    }
}

/// Whether an algorithm is HMAC-SHA-256.
#[tactic(auto, unfolding(crate::specs::Params::hmac_sha256))]
fn is_hmac_sha256(a: &AlgorithmId<'_>) -> bool
    ensures { result ≡ is_hmac_sha256 (algorithm_of a.now) }
{
    a.oid == HMAC_SHA256 && is_blank(a.params)
}

/// A count of rounds from 1 to 200,000.
fn accepted(rounds: u32) -> Result<u32, BadAlg>
    ensures value { Gives (λ n. n) result (accepted rounds) }
    ensures bound { IfOk result (λ n. 1 ≤ n) }
{
    if rounds >= 1 && rounds <= MAX_ROUNDS {
        Ok(rounds)
    } else {
        Err(BadAlg)
    }
}

/// The count of rounds that the content of an INTEGER stands for.
#[tactic(auto, unfolding(crate::specs::Params::rounds_of))]
fn rounds_of(content: &[u8]) -> Result<u32, BadAlg>
    ensures value { Gives (λ n. n) result (rounds_of content.now) }
    ensures bound { IfOk result (λ n. 1 ≤ n) }
{
    match content {
        [a] if *a < 128 => accepted(u32::from(*a)),
        [a, b] if *a < 128 => accepted(u32::from(*a) * 256 + u32::from(*b)),
        [a, b, c] if *a < 128 => accepted(
            (u32::from(*a) * 256 + u32::from(*b)) * 256 + u32::from(*c),
        ),
        _ => Err(BadAlg),
    }
}

/// Reads a keyLength, which is absent or 32, and returns what follows it.
#[tactic(auto, unfolding(crate::specs::Params::key_length_at))]
fn skip_key_length(bytes: &[u8]) -> Result<&[u8], BadAlg>
    ensures { Gives (λ rest. rest.now) result (key_length_at bytes.now) }
{
    let (element, rest) = optional(0x02, bytes)?;
    match element {
        None => Ok(rest),
        Some(element) => {
            if element.content == KEY_LENGTH {
                return Ok(rest);
            }
            Err(BadAlg)
        }
    }
}

/// Reads a salt, and returns it and what follows it.
#[tactic(auto, unfolding(crate::specs::Params::salt_at))]
fn read_salt(bytes: &[u8]) -> Result<(&[u8], &[u8]), BadAlg>
    ensures value { Gives {Y = List ℕ × List ℕ} (λ r. (r.0.now, r.1.now)) result (salt_at bytes.now) }
    ensures bound { IfOk result (λ r. length r.0.now ≤ 64) }
{
    let (element, rest) = field(0x04, bytes)?;
    let salt = element.content;
    if salt.len() < 8 || salt.len() > 64 {
        return Err(BadAlg);
    }
    Ok((salt, rest))
}

/// Reads a count of rounds, and returns what follows it.
#[tactic(auto, unfolding(crate::specs::Params::count_at))]
fn read_count(bytes: &[u8]) -> Result<(u32, &[u8]), BadAlg>
    ensures value { Gives {Y = ℕ × List ℕ} (λ r. (r.0, r.1.now)) result (count_at bytes.now) }
    ensures bound { IfOk result (λ r. 1 ≤ r.0) }
{
    let (element, rest) = field(0x02, bytes)?;
    let number = integer(&element)?;
    let rounds = rounds_of(number)?;
    Ok((rounds, rest))
}

/// Reads HMAC-SHA-256, which stands alone.
#[tactic(auto, unfolding(crate::specs::Params::sole_hmac_at))]
fn read_sole_hmac(bytes: &[u8]) -> Result<(), BadAlg>
    ensures { Gives (λ u. []) result (sole_hmac_at bytes.now) }
{
    let element = sole(0x30, bytes)?;
    let algorithm = read_alg_content(element.content)?;
    if is_hmac_sha256(&algorithm) {
        Ok(())
    } else {
        Err(BadAlg)
    }
}

/// Reads the parameters of PBKDF2 inside their SEQUENCE.
#[tactic(auto, unfolding(crate::specs::Params::kdf_inside))]
fn read_kdf_inside(content: &[u8]) -> Result<MacParams, BadAlg>
    ensures exact { Gives (λ p. p) result (kdf_inside content.now) }
    ensures bound { IfOk result (λ p. 1 ≤ p.rounds) }
{
    let (salt, rest) = read_salt(content)?;
    let (rounds, rest) = read_count(rest)?;
    let rest = skip_key_length(rest)?;
    read_sole_hmac(rest)?;
    let salt = Short::of(salt).ok_or(BadAlg)?;
    Ok(MacParams { salt, rounds })
}

/// Reads the parameters of an algorithm that is PBKDF2.
#[tactic(auto, unfolding(crate::specs::Params::pbkdf2_oid))]
fn read_kdf(a: &AlgorithmId<'_>) -> Result<MacParams, BadAlg>
    ensures exact { Gives (λ p. p) result (inside_params kdf_inside pbkdf2_oid (algorithm_of a.now)) }
    ensures bound { IfOk result (λ p. 1 ≤ p.rounds) }
{
    if a.oid != PBKDF2 {
        return Err(BadAlg);
    }
    match a.params {
        None => Err(BadAlg),
        Some(whole) => {
            let element = sole(0x30, whole)?;
            read_kdf_inside(element.content)
        }
    }
}

/// Reads the parameters of PBMAC1 inside their SEQUENCE.
#[tactic(auto, unfolding(crate::specs::Params::scheme_inside))]
fn read_scheme_inside(content: &[u8]) -> Result<MacParams, BadAlg>
    ensures exact { Gives (λ p. p) result (scheme_inside content.now) }
    ensures bound { IfOk result (λ p. 1 ≤ p.rounds) }
{
    let (element, rest) = field(0x30, content)?;
    let kdf = read_alg_content(element.content)?;
    read_sole_hmac(rest)?;
    read_kdf(&kdf)
}

/// The parameters of an algorithm that is PBMAC1 with PBKDF2 and HMAC-SHA-256, a key of 32 octets, a salt of 8 to 64 octets and
/// 1 to 200,000 rounds (RFC 8018, A.5 and A.2). `BadAlg` for every other algorithm.
#[tactic(auto, unfolding(crate::specs::Params::params_at, crate::specs::Params::pbmac1))]
pub fn read_params(alg: &AlgorithmId<'_>) -> Result<MacParams, BadAlg>
    ensures exact { Gives (λ p. p) result (params_at (algorithm_of alg.now)) }
    ensures bound { IfOk result (λ p. 1 ≤ p.rounds) }
{
    if alg.oid != PBMAC1 {
        return Err(BadAlg);
    }
    match alg.params {
        None => Err(BadAlg),
        Some(whole) => {
            let element = sole(0x30, whole)?;
            read_scheme_inside(element.content)
        }
    }
}
