//! Replies as octets.
ghost use Rattle.std.specs.Prelude.{◌≡◌, ℕ, List, ◌++◌, OnOk, OnErr};
ghost use Rattle.http_wire.specs.Framing.{Begins, IsFrameable, closing_field, framed, length_field, reason, status_field, status_line};

use cmp_values::Octets;
use itoa::Buffer;
use std::alloc::AllocError;

const VERSION: &[u8] = b"HTTP/1.1 ";

const BLANK: &[u8] = b" ";

const LINE_END: &[u8] = b"\r\n";

const LENGTH: &[u8] = b"Content-Length: ";

/// Appends a reply over HTTP: status 200 with a PKIMessage as `body`, the last of its session or not; or the status of a refusal, which
/// has no body and is the last (RFC 9112, 2 to 4; RFC 9811, 3). After an `AllocError` `out` is as before.
pub fn frame_reply(status: u16, body: &[u8], last: bool, out: &mut Octets) -> Result<(), AllocError>
    requires { IsFrameable status body.now last }
    ensures ok { OnOk result (out.new ≡ out.old ++ framed status body.now last) }
    ensures err { OnErr result (out.new ≡ out.old) }
{
    frame(status, body, last, out)
}

/// The same of any status; one that requests aren't refused with has no phrase.
pub fn frame(status: u16, body: &[u8], last: bool, out: &mut Octets) -> Result<(), AllocError>
    ensures ok { OnOk result (out.new ≡ out.old ++ framed status body.now last) }
    ensures err { OnErr result (out.new ≡ out.old) }
{
    let before = out.len();
    let put = put_framed(status, body, last, out);
    if put.is_err() {
        out.truncate(before);
    }
    put
}

// Appends the reply; after an error some of it.
fn put_framed(status: u16, body: &[u8], last: bool, out: &mut Octets) -> Result<(), AllocError>
    ensures ok { OnOk result (out.new ≡ out.old ++ framed status body.now last) }
    ensures begins { (base : List ℕ) → Begins base out.old → Begins base out.new }
{
    put_status(status, out)?;
    put_length(body.len(), out)?;
    put(out, closing_field(last))?;
    put(out, LINE_END)?;
    put(out, body)
}

// Appends the status line and the field that goes with it.
fn put_status(status: u16, out: &mut Octets) -> Result<(), AllocError>
    ensures ok { OnOk result (out.new ≡ out.old ++ (status_line status ++ status_field status)) }
    ensures begins { (base : List ℕ) → Begins base out.old → Begins base out.new }
{
    let mut digits = Buffer::new();
    put(out, b"HTTP/1.1 ")?;
    put(out, digits.format(status).as_bytes())?;
    put(out, b" ")?;
    put(out, reason(status))?;
    put(out, LINE_END)?;
    put(out, status_field(status))
}

// Appends the field of a body of so many octets.
fn put_length(length: usize, out: &mut Octets) -> Result<(), AllocError>
    ensures ok { OnOk result (out.new ≡ out.old ++ length_field length) }
    ensures begins { (base : List ℕ) → Begins base out.old → Begins base out.new }
{
    let mut digits = Buffer::new();
    put(out, b"Content-Length: ")?;
    put(out, digits.format(length).as_bytes())?;
    put(out, LINE_END)
}

// Appends a piece, or nothing.
fn put(out: &mut Octets, piece: &[u8]) -> Result<(), AllocError>
    ensures ok { OnOk result (out.new ≡ out.old ++ piece.now) }
    ensures begins { (base : List ℕ) → Begins base out.old → Begins base out.new }
{
    match out.append(piece) {
        Ok(()) => Ok(()),
        Err(fault) => Err(fault),
    }
}

// The phrase of a status.
fn reason(status: u16) -> &'static [u8]
    ensures { result.now ≡ reason status }
{
    match status {
        200 => b"OK",
        400 => b"Bad Request",
        404 => b"Not Found",
        405 => b"Method Not Allowed",
        411 => b"Length Required",
        413 => b"Content Too Large",
        415 => b"Unsupported Media Type",
        503 => b"Service Unavailable",
        _ => b"",
    }
}

// The field that goes with a status.
fn status_field(status: u16) -> &'static [u8]
    ensures { result.now ≡ status_field status }
{
    match status {
        200 => b"Content-Type: application/pkixcmp\r\n",
        405 => b"Allow: POST\r\n",
        _ => b"",
    }
}

// The field of the last reply.
fn closing_field(last: bool) -> &'static [u8]
    ensures { result.now ≡ closing_field last }
{
    if last { b"Connection: close\r\n" } else { b"" }
}
