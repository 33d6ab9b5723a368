//! The check of a message's protection.
ghost use Rattle.std.specs.Prelude.{◌≡◌, ◌+◌, ◌≤◌, length, IfOk, Some};
ghost use Rattle.pki_message.specs.Frame.{frame_of, message_limit};
ghost use Rattle.cmpca_tool.specs.Verdict.{verdict_of_frame, verdict_of_mac};
ghost use Rattle.cmpca_tool.specs.Causes.{IsSoleVerdict};

use crate::verdict::Verdict;
use pbmac::{MacParams, mac_ok, read_params};
use pbmac_grammar::params_are_spelled;
use pki_message::{Frame, protected_part, read_frame};
use std::alloc::{AllocError, Global};

/// The verdict on a message under a secret. `AllocError` where memory runs out.
pub fn check(alloc: Global, secret: &[u8], input: &[u8]) -> Result<Verdict, AllocError>
    // The message has the cause of this verdict, and of no other.
    ensures { IfOk result (λ v. IsSoleVerdict secret.now input.now v) }
{
    params_are_spelled();
    match read_frame(input) {
        Ok(frame) => check_frame(alloc, secret, &frame),
        Err(_) => Ok(Verdict::BadDataFormat),
    }
}

/// The verdict on a frame.
fn check_frame(alloc: Global, secret: &[u8], frame: &Frame) -> Result<Verdict, AllocError>
    requires { length frame.now.header_bytes.now + length frame.now.body_bytes.now ≤ message_limit }
    ensures { IfOk result (λ v. v ≡ verdict_of_frame secret.now (frame_of frame.now)) }
{
    let (Some(alg), Some(mac)) = (frame.header.alg, frame.protection) else {
        return Ok(Verdict::Unprotected);
    };
    let Ok(params) = read_params(&alg) else {
        return Ok(Verdict::BadAlg);
    };
    check_mac(alloc, secret, frame, &params, mac)
}

/// The verdict on the MAC of a frame.
fn check_mac(
    alloc: Global,
    secret: &[u8],
    frame: &Frame,
    params: &MacParams,
    mac: &[u8],
) -> Result<Verdict, AllocError>
    requires bound { length frame.now.header_bytes.now + length frame.now.body_bytes.now ≤ message_limit }
    requires rounds { 1 ≤ params.now.rounds }
    ensures { IfOk result (λ v. v ≡ verdict_of_mac secret.now (frame_of frame.now) mac.now (Some params.now)) }
{
    let part = protected_part(alloc, frame.header_bytes, frame.body_bytes)?;
    if mac_ok(secret, params, part.as_slice(), mac) {
        Ok(Verdict::Verified)
    } else {
        Ok(Verdict::WrongMac)
    }
}
