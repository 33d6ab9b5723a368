//! Messages, written.
ghost use Rattle.std.specs.Prelude.{◌≡◌, ℕ, ◌+◌, ◌^◌, ◌<◌, ◌≤◌, ◌++◌, length, IfOk, OnOk, option_map};
ghost use Rattle.std.specs.Option.{option_copied};
ghost use Rattle.der_base.specs.Element.{element};
ghost use Rattle.asn_fields.specs.Forms.{optional_spelling};
ghost use Rattle.asn_types.specs.Template.{same};
ghost use Rattle.pki_message.specs.Frame.{FrameForm, FitsFrame, IsFrame, bits_spelling, message_limit, protected_part};
ghost use Rattle.pki_message.specs.Message.{MessageForm, FitsMessage, IsMessage, frame_in};
ghost use Rattle.pki_message.specs.Written.{HasParts, one_certificate, written_content, message_size};

use cmp_values::Octets;
use der_base::Writer;
use std::alloc::{AllocError, Global};

/// What the protection of a message is over (RFC 9810, 5.1.3): the SEQUENCE of the header's and the body's octets as they stand.
/// `AllocError` where memory runs out.
pub fn protected_part(
    alloc: Global,
    header_bytes: &[u8],
    body_bytes: &[u8],
) -> Result<Octets, AllocError>
    requires { length header_bytes.now + length body_bytes.now < 2 ^ 32 }
    ensures { IfOk result (λ octets. octets ≡ protected_part header_bytes.now body_bytes.now) }
{
    let mut writer = Writer::new(alloc);
    writer.put_whole(header_bytes)?;
    writer.put_whole(body_bytes)?;
    writer.wrap(0x30, 0)?;
    Ok(Octets::of(writer.finish()))
}

/// Puts a BIT STRING of whole octets.
#[tactic(auto, using(asn_types::proofs::LengthLemmas::lengths))]
fn put_bits(writer: &mut Writer, octets: &[u8]) -> Result<(), AllocError>
    requires { length octets.now + 1 < 2 ^ 32 }
    ensures { OnOk result (writer.new ≡ writer.old ++ bits_spelling octets.now) }
{
    let from = writer.len();
    writer.put_whole(&[0])?;
    writer.put_whole(octets)?;
    writer.wrap(0x03, from)
}

/// Puts a protection, where there is one.
#[tactic(auto, using(asn_types::proofs::LengthLemmas::lengths))]
fn put_protection(writer: &mut Writer, octets: Option<&[u8]>) -> Result<(), AllocError>
    requires { length (optional_spelling 0xA0 bits_spelling (option_copied octets)) < 2 ^ 32 }
    ensures { OnOk result (writer.new ≡ writer.old ++ optional_spelling 0xA0 bits_spelling (option_copied octets.entry)) }
{
    match octets {
        None => Ok(()),
        Some(octets) => {
            let from = writer.len();
            put_bits(writer, octets)?;
            writer.wrap(0xa0, from)
        }
    }
}

/// Puts extraCerts of one certificate, where there is one.
#[tactic(auto, using(asn_types::proofs::LengthLemmas::lengths))]
fn put_extra(writer: &mut Writer, cert: Option<&[u8]>) -> Result<(), AllocError>
    requires { length (optional_spelling 0xA1 same (option_map one_certificate (option_copied cert))) < 2 ^ 32 }
    ensures { OnOk result (writer.new ≡ writer.old ++ optional_spelling 0xA1 same (option_map one_certificate (option_copied cert.entry))) }
{
    match cert {
        None => Ok(()),
        Some(cert) => {
            let from = writer.len();
            writer.put(0x30, cert)?;
            writer.wrap(0xa1, from)
        }
    }
}

/// The octets of a message.
#[tactic(auto, using(crate::proofs::WrittenLemmas::sizes, asn_types::proofs::LengthLemmas::lengths))]
fn message_written(
    alloc: Global,
    header: &[u8],
    body: &[u8],
    protection: Option<&[u8]>,
    extra: Option<&[u8]>,
) -> Result<Octets, AllocError>
    requires { message_size header.now body.now (option_copied protection) (option_copied extra) < 2 ^ 32 }
    ensures { IfOk result (λ octets. octets ≡ element 0x30 (written_content header.now body.now (option_copied protection.entry) (option_copied extra.entry))) }
{
    let mut writer = Writer::new(alloc);
    writer.put_whole(header)?;
    writer.put_whole(body)?;
    put_protection(&mut writer, protection)?;
    put_extra(&mut writer, extra)?;
    writer.wrap(0x30, 0)?;
    Ok(Octets::of(writer.finish()))
}

/// Writes a message (RFC 9810, 5.1) of a whole header and a whole body, of the protection's octets where it is to be there, and of
/// the one certificate of extraCerts where they are to be there. `AllocError` where memory runs out.
pub fn write_message(
    alloc: Global,
    header: &[u8],
    body: &[u8],
    protection: Option<&[u8]>,
    extra: Option<&[u8]>,
) -> Result<Octets, AllocError>
    requires { message_size header.now body.now (option_copied protection) (option_copied extra) < 2 ^ 32 }
    ensures written { IfOk result (λ octets. octets ≡ element 0x30 (written_content header.now body.now (option_copied protection.entry) (option_copied extra.entry))) }
    ensures size { IfOk result (λ octets. length octets ≤ message_size header.now body.now (option_copied protection.entry) (option_copied extra.entry)) }
    // What is written of parts that have their forms is read again as these, where it is within the limit.
    ensures frame { (f : FrameForm) → FitsFrame f → HasParts f header.now body.now (option_copied protection.entry) (option_copied extra.entry)
        → IfOk result (λ octets. length octets ≤ message_limit → IsFrame octets f) }
    ensures message { (m : MessageForm) → FitsMessage m → HasParts (frame_in m) header.now body.now (option_copied protection.entry) (option_copied extra.entry)
        → IfOk result (λ octets. length octets ≤ message_limit → IsMessage octets m) }
{
    message_written(alloc, header, body, protection, extra)
}
