//! Refusals.
ghost use Rattle.std.specs.Prelude.{◌≡◌, ◌≢◌, ℕ, ◌+◌, ◌^◌, ◌<◌, ◌≤◌, [], length, Some, None, IfOk, IsSome, option_map, unwrap_or};
ghost use Rattle.std.specs.Option.{option_copied};
ghost use Rattle.der_base.specs.Element.{element};
ghost use Rattle.deal_table.specs.History.{brief_of};
ghost use Rattle.deal_table.specs.Message.{echoed};
ghost use Rattle.pki_header.specs.Plan.{field_size, plan_size};
ghost use Rattle.reply_maker.specs.Refusals.{refusal_header, refusal_body, refusal_by, refusal_of};
ghost use Rattle.reply_maker.specs.Messages.{nonce_in, salt_in};

use crate::fields::{ca_name, directory_name, field, nonce_in, recipient_for, salt_in};
use crate::keys::Keys;
use crate::message::message;
use cmp_ports::{FailInfo, Octets, Short};
use deal_model::Echo;
use der_base::Writer;
use desk::brief_of;
use hss_sig::OneLevel;
use pki_header::HeaderPlan;
use pki_parts::{write_error, write_status};
use protect::How;
use std::alloc::{AllocError, Global};

/// The secret that protects a refusal, and the reference that its sender is known by.
#[derive(Clone, Copy)]
pub struct Guard {
    pub kid: Short,
    pub secret: Short,
}

ghost use Rattle.reply_maker.specs.Guards.{secret_in};

/// The body of a refusal: an error message (RFC 9810, 5.3.21).
#[tactic(auto, using(asn_types::proofs::LengthLemmas::short))]
fn refusal_body(alloc: Global, fail: FailInfo) -> Result<Octets, AllocError>
    ensures written { IfOk result (λ octets. octets ≡ refusal_body fail) }
    ensures short { IfOk result (λ octets. length octets ≤ 1024) }
{
    let status = write_status(alloc, 2, Some(fail.name()), Some(fail))?;
    let error = write_error(alloc, status.as_slice())?;
    let mut writer = Writer::new(alloc);
    writer.put(0xb7, error.as_slice())?;
    Ok(Octets::of(writer.finish()))
}

/// The reference of a guard.
fn kid_of(guard: Option<&Guard>) -> Option<Short>
    ensures { result ≡ option_map (λ g. g.kid) (option_map secret_in (option_copied guard.entry)) }
{
    match guard {
        Some(guard) => Some(guard.kid),
        None => None,
    }
}

/// The senderNonce, where words were drawn.
fn nonce_of(alloc: Global, words: Option<&[u8; 32]>) -> Result<Option<Octets>, AllocError>
    ensures written { IfOk result (λ octets. octets ≡ option_map nonce_in (option_copied words.entry)) }
    ensures short { IfOk result (λ octets. field_size octets ≤ 64) }
{
    match words {
        Some(words) => Ok(Some(nonce_in(alloc, words)?)),
        None => Ok(None),
    }
}

/// The header of a refusal.
fn refusal_header(
    alloc: Global,
    name: &[u8],
    echo: &Echo,
    guard: Option<&Guard>,
    time: u64,
    words: Option<&[u8; 32]>,
) -> Result<HeaderPlan, AllocError>
    requires name { length name.now ≤ 128 }
    requires sender { length echo.now.sender.now ≤ 131_072 }
    ensures written { IfOk result (λ p. p ≡ refusal_header name.now (echoed echo.now) (option_map secret_in (option_copied guard.entry)) time (option_copied words.entry)) }
    ensures short { IfOk result (λ p. plan_size p ≤ 2 ^ 18) }
{
    Ok(HeaderPlan {
        pvno: echo.pvno,
        sender: directory_name(alloc, name)?,
        recipient: recipient_for(alloc, echo.sender)?,
        time: Some(time),
        alg: None,
        sender_kid: field(alloc, &kid_of(guard))?,
        recip_kid: None,
        tid: field(alloc, &echo.tid)?,
        sender_nonce: nonce_of(alloc, words)?,
        recip_nonce: field(alloc, &echo.nonce)?,
        free_text: None,
        info: None,
    })
}

/// A refusal that nothing protects.
#[tactic(auto, unfolding(crate::specs::Refusals::refusal_by))]
fn unprotected(
    alloc: Global,
    name: &[u8],
    echo: &Echo,
    fail: FailInfo,
    time: u64,
    words: Option<&[u8; 32]>,
) -> Result<Octets, AllocError>
    requires name { length name.now ≤ 128 }
    requires time { time ≤ 250_000_000_000 }
    requires sender { length echo.now.sender.now ≤ 131_072 }
    ensures { (rounds : ℕ) → IfOk result (λ octets. octets ≡ refusal_by name.now rounds (echoed echo.now) fail None time (option_copied words.entry)) }
{
    let header = refusal_header(alloc, name, echo, None, time, words)?;
    let body = refusal_body(alloc, fail)?;
    let how: How<'_, OneLevel> = How::Nothing;
    message(alloc, &header, body.as_slice(), &how, None)
}

/// A refusal that the MAC of a secret protects.
#[tactic(auto, unfolding(crate::specs::Refusals::refusal_by))]
fn guarded(
    alloc: Global,
    name: &[u8],
    rounds: u32,
    echo: &Echo,
    fail: FailInfo,
    guard: &Guard,
    time: u64,
    words: &[u8; 32],
) -> Result<Octets, AllocError>
    requires name { length name.now ≤ 128 }
    requires time { time ≤ 250_000_000_000 }
    requires sender { length echo.now.sender.now ≤ 131_072 }
    requires rounds { 1 ≤ rounds }
    ensures { IfOk result (λ octets. octets ≡ refusal_by name.now rounds (echoed echo.now) fail (Some (secret_in guard.now)) time (Some words.now)) }
{
    let header = refusal_header(alloc, name, echo, Some(guard), time, Some(words))?;
    let body = refusal_body(alloc, fail)?;
    let how: How<'_, OneLevel> = How::Mac {
        secret: guard.secret,
        salt: salt_in(words),
        rounds,
    };
    message(alloc, &header, body.as_slice(), &how, None)
}

/// Writes the refusal by whoever has this Name, at most 128 octets: an error message (RFC 9810, 5.3.21) that answers a message with
/// its reason, at a second. It is protected by the MAC of the guard's secret, of so many rounds, where there is a guard; words are
/// drawn for a guard's salt at least. `AllocError` where memory runs out.
pub fn refuse_as(
    alloc: Global,
    name: &[u8],
    rounds: u32,
    echo: &Echo,
    fail: FailInfo,
    guard: Option<&Guard>,
    time: u64,
    words: Option<&[u8; 32]>,
) -> Result<Octets, AllocError>
    requires name { length name.now ≤ 128 }
    requires time { time ≤ 250_000_000_000 }
    requires sender { length echo.now.sender.now ≤ 131_072 }
    requires rounds { 1 ≤ rounds }
    requires drawn { IsSome guard → IsSome words }
    ensures { IfOk result (λ octets. octets ≡ refusal_by name.now rounds (echoed echo.now) fail (option_map secret_in (option_copied guard.entry)) time (option_copied words.entry)) }
{
    let Some(guard) = guard else {
        return unprotected(alloc, name, echo, fail, time, words);
    };
    let Some(words) = words else { unreachable!() };
    guarded(alloc, name, rounds, echo, fail, guard, time, words)
}

/// Writes the authority's refusal, as `refuse_as` does, with its name and the rounds of its settings. Words are drawn for each but
/// for a failure of the service itself, which has none, and which nothing protects. `AllocError` where memory runs out.
#[tactic(auto, unfolding(crate::specs::Refusals::refusal_of))]
pub fn refuse(
    alloc: Global,
    keys: &Keys,
    echo: &Echo,
    fail: FailInfo,
    guard: Option<&Guard>,
    time: u64,
    words: Option<&[u8; 32]>,
) -> Result<Octets, AllocError>
    requires time { time ≤ 250_000_000_000 }
    requires sender { length echo.now.sender.now ≤ 131_072 }
    requires drawn { fail ≢ FailInfo.SystemFailure → IsSome words }
    requires guarded { IsSome guard → IsSome words }
    requires down { IsSome words → fail ≢ FailInfo.SystemFailure }
    ensures { IfOk result (λ octets. octets ≡ refusal_of (brief_of keys.now.settings) (echoed echo.now) fail (option_map secret_in (option_copied guard.entry)) time (option_copied words.entry)) }
{
    let settings = brief_of(keys.settings());
    let name = ca_name(alloc, &settings)?;
    refuse_as(
        alloc,
        name.as_slice(),
        settings.rounds,
        echo,
        fail,
        guard,
        time,
        words,
    )
}
