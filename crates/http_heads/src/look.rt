//! What the octets that came so far hold.
ghost use Rattle.std.specs.Prelude.{◌≡◌, ◌≤◌, ◌<◌, ◌==◌, ◌||◌, All, codes, length, map};
ghost use Rattle.std.specs.List.{list_any};
ghost use Rattle.std.specs.Str.{str_eq_ignore_ascii_case};
ghost use Rattle.httparse.specs.Spans.{IsHeaderWithin, IsRequestOf, IsRequestWithin, header_bytes};
ghost use Rattle.http_heads.specs.Heads.{values};
ghost use Rattle.http_heads.specs.Looks.{IsLook};

use crate::rows::{BAD_REQUEST, any_is, body_told, target_refusal};
use httparse::Status;
use httparse::spans::{EMPTY_HEADER_SPAN, HeaderSpan, RequestSpans, parse_request};

/// How many octets a head has at most.
pub const HEAD_LIMIT: usize = 8192;
/// How many fields a head has at most.
const FIELD_LIMIT: usize = 32;

/// What a head asks for.
#[derive(Clone, Copy, Debug, PartialEq, Eq)]
pub struct Asked {
    /// How many octets the head has.
    pub head: usize,
    /// How many octets the body has.
    pub body: usize,
    /// Whether it asks for the end of the session.
    pub asks: bool,
}

/// What the octets that came so far hold.
#[derive(Clone, Copy, Debug, PartialEq, Eq)]
pub enum Look {
    /// A head that is served.
    Served(Asked),
    /// A request that is turned away with this status.
    Refused(u16),
    /// No head yet.
    More,
}

/// What the octets that came so far hold, whatever follows them.
pub fn front_of(buffer: &[u8]) -> Look
    ensures { IsLook buffer.now result }
{
    if buffer.is_empty() {
        return Look::More;
    }
    let mut fields = [EMPTY_HEADER_SPAN; FIELD_LIMIT];
    match parse_request(buffer, &mut fields) {
        Ok(Status::Complete(head)) => {
            if head.len > HEAD_LIMIT {
                return Look::Refused(BAD_REQUEST);
            }
            asked_by(buffer, &fields, head)
        }
        Ok(Status::Partial) => {
            if buffer.len() < HEAD_LIMIT {
                return Look::More;
            }
            Look::Refused(BAD_REQUEST)
        }
        Err(_) => Look::Refused(BAD_REQUEST),
    }
}

// What the head says.
fn asked_by(buffer: &[u8], fields: &[HeaderSpan], head: RequestSpans) -> Look
    requires few { length fields.now ≡ 32 }
    requires short { head.len ≤ 8192 }
    requires within { IsRequestWithin buffer.now fields.now head }
    requires is_head { IsRequestOf buffer.now fields.now head }
    ensures { IsLook buffer.now result }
{
    if let Some(status) = target_refusal(head.method.of(buffer), head.path.of(buffer)) {
        return Look::Refused(status);
    }
    let told = &fields[..head.headers];
    match body_told(buffer, told) {
        Err(status) => Look::Refused(status),
        Ok(body) => Look::Served(Asked {
            head: head.len,
            body,
            asks: asks_end(buffer, told, head.version),
        }),
    }
}

// Whether the request asks for the end of the session.
fn asks_end(buffer: &[u8], fields: &[HeaderSpan], version: u8) -> bool
    requires { All (IsHeaderWithin (length buffer.now)) fields.now }
    ensures { result ≡ ((version == 0) || list_any (λ v. str_eq_ignore_ascii_case v (codes "close")) (values (codes "connection") (map (header_bytes buffer.now) fields.now))) }
{
    version == 0 || any_is(buffer, fields, b"connection", b"close")
}
