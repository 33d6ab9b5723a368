//! Parts of a line.
ghost use Rattle.std.specs.Prelude.{◌≡◌, ◌++◌, OnOk};
ghost use Rattle.std.specs.Fmt.{decimal};
ghost use Rattle.hex.specs.Hex.{encode_lower};
ghost use Rattle.deal_lines.specs.Lines.{share, reason_text, state_text};

use cmp_values::Octets;
use deal_model::{CertificateState, Reason};
use itoa::Buffer;
use std::alloc::{AllocError, Global};

/// Puts a number in decimal after the text.
pub(crate) fn put_decimal(out: &mut Octets, number: u64) -> Result<(), AllocError>
    ensures { OnOk result (out.new ≡ out.old ++ decimal number) }
{
    let mut buffer = Buffer::new();
    out.append(buffer.format(number).as_bytes())
}

/// Puts octets in hex of lower case after the text.
pub(crate) fn put_hex(alloc: Global, out: &mut Octets, octets: &[u8]) -> Result<(), AllocError>
    ensures { OnOk result (out.new ≡ out.old ++ encode_lower octets.now) }
{
    let digits = hex::encode(alloc, octets)?;
    out.append(digits.as_bytes())
}

/// Puts how many leaves are used, of how many, after the text.
pub(crate) fn put_share(out: &mut Octets, used: u64, size: u32) -> Result<(), AllocError>
    ensures { OnOk result (out.new ≡ out.old ++ share used size) }
{
    put_decimal(out, used)?;
    out.append(b" of ")?;
    put_decimal(out, u64::from(size))
}

fn put_reason(out: &mut Octets, reason: Reason) -> Result<(), AllocError>
    ensures { OnOk result (out.new ≡ out.old ++ reason_text reason) }
{
    match reason {
        Reason::Rejected => out.append(b"rejected"),
        Reason::Timeout => out.append(b"timeout"),
        Reason::Asked(number) => put_decimal(out, u64::from(number)),
    }
}

/// Puts how a certificate stands after the text.
pub(crate) fn put_state(out: &mut Octets, state: CertificateState) -> Result<(), AllocError>
    ensures { OnOk result (out.new ≡ out.old ++ state_text state) }
{
    match state {
        CertificateState::Open { deadline } => {
            out.append(b"open ")?;
            put_decimal(out, deadline)
        }
        CertificateState::Confirmed => out.append(b"confirmed"),
        CertificateState::Revoked { reason } => {
            out.append(b"revoked ")?;
            put_reason(out, reason)
        }
    }
}
