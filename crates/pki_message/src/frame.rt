//! Frames: messages whose bodies are not looked into.
ghost use Rattle.std.specs.Prelude.{◌≡◌, ℕ, ◌+◌, ◌≤◌, List, Option, IfOk, Some};
ghost use Rattle.std.specs.Option.{option_copied};
ghost use Rattle.der_base.specs.Reading.{Part};
ghost use Rattle.asn_fields.specs.Fields.{Gives, field_view, optional_with};
ghost use Rattle.asn_types.specs.Template.{anything_at};

use asn_fields::{BadForm, field, optional, sole};
use asn_types::plain_bits;
use der_base::{Element, read_element};
use pki_header::{Header, read_header};

/// How many octets a message has at most that is read.
pub const MESSAGE_LIMIT: usize = 131_072;

/// A frame, whose octets it borrows (RFC 9810, 5.1): the header and its whole element, the number of the body's alternative, 0 to
/// 26, and its whole element, the protection's octets, and the content of the tag of extraCerts.
#[derive(Clone, Copy, Debug)]
pub struct Frame<'a> {
    pub header: Header<'a>,
    pub header_bytes: &'a [u8],
    pub body_tag: u8,
    pub body_bytes: &'a [u8],
    pub protection: Option<&'a [u8]>,
    pub extra: Option<&'a [u8]>,
}

/// The elements of a frame, the header not looked into.
#[derive(Clone, Copy)]
struct Outline<'a> {
    header: Element<'a>,
    body: Element<'a>,
    protection: Option<&'a [u8]>,
    extra: Option<&'a [u8]>,
}

ghost use Rattle.pki_message.specs.Frame.{FrameForm, IsFrame, IsFrameOf, frame_of, outline_of, body_front_at, bits_alone_at, outline_at, outline_alone_at};

/// Reads a body from the front. Returns it and the octets behind it.
#[tactic(auto, unfolding(crate::specs::Frame::body_front_at))]
fn body_field(bytes: &[u8]) -> Result<(Element<'_>, &[u8]), BadForm>
    ensures exact { Gives field_view result (body_front_at bytes.now) }
    ensures bound { IfOk result (λ r. 0xA0 ≤ r.0.tag) }
{
    let (element, rest) = read_element(bytes)?;
    if element.tag >= 0xa0 && element.tag <= 0xba {
        Ok((element, rest))
    } else {
        Err(BadForm)
    }
}

/// Reads a BIT STRING of whole octets that stands alone.
#[tactic(auto, unfolding(crate::specs::Frame::bits_alone_at))]
fn bits_alone(bytes: &[u8]) -> Result<&[u8], BadForm>
    ensures { Gives (λ octets. octets.now) result (bits_alone_at bytes.now) }
{
    let element = sole(0x03, bytes)?;
    plain_bits(&element)
}

/// Reads a protection where one stands at the front. Returns it and the octets behind it.
fn protection_field(bytes: &[u8]) -> Result<(Option<&[u8]>, &[u8]), BadForm>
    ensures { Gives {Y = Option (List ℕ) × List ℕ} (λ r. (option_copied r.0, r.1.now)) result (optional_with bits_alone_at 0xA0 bytes.now) }
{
    let (element, rest) = optional(0xa0, bytes)?;
    match element {
        None => Ok((None, rest)),
        Some(element) => {
            let octets = bits_alone(element.content)?;
            Ok((Some(octets), rest))
        }
    }
}

/// Reads extraCerts where they stand at the front. Returns the content of their tag and the octets behind them.
#[tactic(auto, unfolding(asn_types::specs::Template::anything_at))]
fn extra_field(bytes: &[u8]) -> Result<(Option<&[u8]>, &[u8]), BadForm>
    ensures { Gives {Y = Option (List ℕ) × List ℕ} (λ r. (option_copied r.0, r.1.now)) result (optional_with anything_at 0xA1 bytes.now) }
{
    let (element, rest) = optional(0xa1, bytes)?;
    match element {
        None => Ok((None, rest)),
        Some(element) => Ok((Some(element.content), rest)),
    }
}

/// Reads the elements that stand in the SEQUENCE of a frame.
#[tactic(auto, unfolding(crate::specs::Frame::outline_at))]
fn outline_inside(content: &[u8]) -> Result<Outline<'_>, BadForm>
    ensures exact { Gives outline_of result (outline_at content.now) }
    ensures bound { IfOk result (λ o. 0xA0 ≤ o.body.tag) }
{
    let (header, rest) = field(0x30, content)?;
    let (body, rest) = body_field(rest)?;
    let (protection, rest) = protection_field(rest)?;
    let (extra, rest) = extra_field(rest)?;
    if !rest.is_empty() {
        return Err(BadForm);
    }
    Ok(Outline {
        header,
        body,
        protection,
        extra,
    })
}

/// Reads the elements of a frame that the octets are.
#[tactic(auto, unfolding(crate::specs::Frame::outline_alone_at))]
fn outline_alone(bytes: &[u8]) -> Result<Outline<'_>, BadForm>
    ensures exact { Gives outline_of result (outline_alone_at bytes.now) }
    ensures bound { IfOk result (λ o. 0xA0 ≤ o.body.tag) }
{
    if bytes.len() > MESSAGE_LIMIT {
        return Err(BadForm);
    }
    let element = sole(0x30, bytes)?;
    outline_inside(element.content)
}

/// The frame of these elements, where the first of them is a header.
fn framed<'a>(outline: &Outline<'a>) -> Result<Frame<'a>, BadForm>
    requires { 0xA0 ≤ outline.now.body.tag }
    ensures found { IfOk result (λ f. IsFrameOf (outline_of outline.now) (frame_of f)) }
    ensures only { (f : FrameForm) → outline.now.header.tag ≡ 0x30 → IsFrameOf (outline_of outline.now) f → Gives frame_of result (Some f) }
{
    let header = read_header(&outline.header)?;
    Ok(Frame {
        header,
        header_bytes: outline.header.whole,
        body_tag: outline.body.tag - 0xa0,
        body_bytes: outline.body.whole,
        protection: outline.protection,
        extra: outline.extra,
    })
}

/// Reads the frame of a message (RFC 9810, 5.1): the header and the elements, nothing over. `BadForm` where the octets are none, or
/// more than the limit.
pub fn read_frame(bytes: &[u8]) -> Result<Frame<'_>, BadForm>
    // What is read is spelled so.
    ensures found { IfOk result (λ f. IsFrame bytes.now (frame_of f)) }
    // What is spelled so is read.
    ensures only { (f : FrameForm) → IsFrame bytes.now f → Gives frame_of result (Some f) }
{
    let outline = outline_alone(bytes)?;
    framed(&outline)
}
