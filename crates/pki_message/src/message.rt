//! Messages, read.
ghost use Rattle.std.specs.Prelude.{◌≡◌, IfOk, Some};
ghost use Rattle.std.specs.Option.{option_copied};
ghost use Rattle.asn_fields.specs.Fields.{Gives};
ghost use Rattle.asn_types.specs.Template.{tested_at};

use crate::body::{Body, read_body};
use crate::frame::{Frame, read_frame};
use asn_fields::{BadForm, sole};
use der_base::whole;
use pki_header::Header;
use pki_parts::are_certificates;

/// A message, whose octets it borrows (RFC 9810, 5.1): the header and the body, and their whole elements; the protection's octets;
/// and the content of the SEQUENCE of certificates in extraCerts.
#[derive(Clone, Copy, Debug)]
pub struct Message<'a> {
    pub header: Header<'a>,
    pub body: Body<'a>,
    pub header_bytes: &'a [u8],
    pub body_bytes: &'a [u8],
    pub protection: Option<&'a [u8]>,
    pub extra: Option<&'a [u8]>,
}

ghost use Rattle.pki_message.specs.Frame.{frame_of};
ghost use Rattle.pki_message.specs.Message.{MessageForm, IsMessage, message_of, are_extra_certs, extra_certs_at, extra_at, message_at};

/// One or more certificates.
#[tactic(auto, unfolding(crate::specs::Message::are_extra_certs, asn_types::specs::Template::tested_at))]
fn certificates_inside(content: &[u8]) -> Result<&[u8], BadForm>
    ensures { Gives (λ octets. octets.now) result (tested_at are_extra_certs content.now) }
{
    if content.is_empty() || !are_certificates(content) {
        return Err(BadForm);
    }
    Ok(content)
}

/// The content of a SEQUENCE of one or more certificates that stands alone.
fn extra_certs(bytes: &[u8]) -> Result<&[u8], BadForm>
    ensures { Gives (λ octets. octets.now) result (extra_certs_at bytes.now) }
{
    let element = sole(0x30, bytes)?;
    certificates_inside(element.content)
}

/// Certificates, where there are some.
#[tactic(auto, unfolding(crate::specs::Message::extra_at))]
fn certificates(extra: Option<&[u8]>) -> Result<Option<&[u8]>, BadForm>
    ensures { Gives option_copied result (extra_at (option_copied extra.entry)) }
{
    match extra {
        None => Ok(None),
        Some(octets) => Ok(Some(extra_certs(octets)?)),
    }
}

/// The message of a frame.
#[tactic(auto, unfolding(crate::specs::Message::message_at))]
fn framed_message<'a>(frame: &Frame<'a>) -> Result<Message<'a>, BadForm>
    ensures { Gives message_of result (message_at (frame_of frame.now)) }
{
    let element = whole(frame.body_bytes)?;
    let body = read_body(frame.body_tag, element.content)?;
    let extra = certificates(frame.extra)?;
    Ok(Message {
        header: frame.header,
        body,
        header_bytes: frame.header_bytes,
        body_bytes: frame.body_bytes,
        protection: frame.protection,
        extra,
    })
}

/// Reads a message (RFC 9810, 5.1): its frame and the body in it. `BadForm` where the octets are none, or more than the limit.
pub fn read_message(bytes: &[u8]) -> Result<Message<'_>, BadForm>
    // What is read is spelled so.
    ensures found { IfOk result (λ m. IsMessage bytes.now (message_of m)) }
    // What is spelled so is read.
    ensures only { (m : MessageForm) → IsMessage bytes.now m → Gives message_of result (Some m) }
{
    let frame = read_frame(bytes)?;
    framed_message(&frame)
}
