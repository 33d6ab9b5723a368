//! What a reply says.
ghost use Rattle.std.specs.Prelude.{◌≡◌, IfOk};
ghost use Rattle.std.specs.Option.{option_copied};
ghost use Rattle.pki_message.specs.Message.{message_of};
ghost use Rattle.intake.specs.Proven.{IsOfOctets};
ghost use Rattle.device_hearing.specs.Hearing.{IsSaid, IsHeard, nothing};

use crate::implicit::is_implicit;
use crate::listener::Listener;
use crate::trust::is_trusted;
use crate::words::word;
use cmp_values::Octets;
use device_table::{Heard, Word};
use pki_message::{Message, read_message};
use std::alloc::{AllocError, Global};

/// A copy of a field that may stand.
fn copied(alloc: Global, field: Option<&[u8]>) -> Result<Option<Octets>, AllocError>
    ensures { IfOk result (λ o. o ≡ option_copied field.entry) }
{
    match field {
        Some(octets) => Ok(Some(Octets::copy_of(alloc, octets)?)),
        None => Ok(None),
    }
}

/// What octets say that are no message.
fn nothing() -> Heard
    ensures { result ≡ nothing }
{
    Heard {
        is_message: false,
        tid: None,
        nonce: None,
        answers: None,
        verifies: false,
        is_implicit: false,
        word: Word::SaysOther,
    }
}

/// What a message says.
fn said(alloc: Global, listener: &Listener, m: &Message) -> Result<Heard, AllocError>
    requires { IsOfOctets (message_of m.now) }
    ensures { IfOk result (IsSaid listener.now (message_of m.now)) }
{
    Ok(Heard {
        is_message: true,
        tid: copied(alloc, m.header.tid)?,
        nonce: copied(alloc, m.header.sender_nonce)?,
        answers: copied(alloc, m.header.recip_nonce)?,
        verifies: is_trusted(alloc, &listener.guard, &listener.root, m)?,
        is_implicit: is_implicit(m.header.info),
        word: word(alloc, listener, &m.body)?,
    })
}

/// What the octets of a reply say to a device that listens for it (RFC 9810, 5.1 and 5.3). Takes time as the check of a MAC of 200,000
/// rounds, or of three signatures, does. `AllocError` where memory runs out.
pub fn hear(alloc: Global, listener: &Listener, octets: &[u8]) -> Result<Heard, AllocError>
    ensures { IfOk result (IsHeard listener.now octets.now) }
{
    match read_message(octets) {
        Ok(m) => said(alloc, listener, &m),
        Err(_) => Ok(nothing()),
    }
}
