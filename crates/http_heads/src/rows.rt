//! Why a request isn't served, row by row.
ghost use Rattle.std.specs.Prelude.{◌≡◌, ◌≤◌, ◌&&◌, ℕ, List, [], ◌∷◌, Some, None, length, map, codes, All, MatchResult};
ghost use Rattle.std.specs.List.{list_any};
ghost use Rattle.std.specs.Str.{str_eq_ignore_ascii_case};
ghost use Rattle.httparse.specs.Spans.{IsHeaderWithin, header_bytes};
ghost use Rattle.http_heads.specs.Heads.{before_semicolon, field_rows, first_of, has, is_path, is_path_end, is_type, length_of, lengths, target_rows, values};
ghost use Rattle.http_heads.specs.Rows.{length_rows};
ghost use Rattle.http_heads.specs.Values.{AreValues};

use crate::fields::{Values, is_same, values_of};
use crate::number::number_of;
use httparse::spans::HeaderSpan;

/// The path of the service (RFC 9811, 3).
const PATH: &[u8] = b"/.well-known/cmp";
/// The type of a PKIMessage (RFC 9811, 3).
const TYPE: &[u8] = b"application/pkixcmp";
/// How many octets a body has at most.
const BODY_LIMIT: usize = 131_072;

/// Bad Request (RFC 9110, 15.5.1).
pub const BAD_REQUEST: u16 = 400;
/// Not Found (RFC 9110, 15.5.5).
const NOT_FOUND: u16 = 404;
/// Method Not Allowed (RFC 9110, 15.5.6).
const METHOD_NOT_ALLOWED: u16 = 405;
/// Length Required (RFC 9110, 15.5.12).
const LENGTH_REQUIRED: u16 = 411;
/// Content Too Large (RFC 9110, 15.5.14).
const CONTENT_TOO_LARGE: u16 = 413;
/// Unsupported Media Type (RFC 9110, 15.5.16).
const UNSUPPORTED_MEDIA_TYPE: u16 = 415;

/// Whether the target is the path of the service, alone or with more behind a slash or a question mark.
pub fn is_path(target: &[u8]) -> bool
    ensures { result ≡ is_path target.now }
{
    match target.strip_prefix(PATH) {
        None => false,
        Some(rest) => is_path_end(rest),
    }
}

// What may follow the path.
fn is_path_end(rest: &[u8]) -> bool
    ensures { result ≡ is_path_end rest.now }
{
    match rest {
        [] => true,
        [octet, ..] => *octet == b'/' || *octet == b'?',
    }
}

/// Why a request isn't served by its path and its method.
pub fn target_refusal(method: &[u8], target: &[u8]) -> Option<u16>
    ensures { result ≡ first_of (target_rows method.now target.now) }
{
    if !is_path(target) {
        return Some(NOT_FOUND);
    }
    if method != b"POST".as_slice() {
        return Some(METHOD_NOT_ALLOWED);
    }
    None
}

// The octets before a semicolon.
fn before_semicolon(text: &[u8]) -> &[u8]
    ensures { result.now ≡ before_semicolon text.now }
{
    for (count, octet) in text.iter().enumerate() {
        if *octet == b';' {
            return &text[..count];
        }
    }
    text
}

// Whether the first value names the type of a PKIMessage.
fn is_type(types: Values<'_>) -> bool
    ensures { (vs : List (List ℕ)) → AreValues vs types.entry → result ≡ is_type vs }
{
    match types {
        Values::Missing => false,
        Values::One(text) | Values::Several(text) => is_same(before_semicolon(text), TYPE),
    }
}

// The length that is told once, in digits, within the limit.
fn length_told(lengths: Values<'_>) -> Result<usize, u16>
    ensures { (vs : List (List ℕ)) → AreValues vs lengths.entry → MatchResult result (λ n. (first_of (length_rows vs) ≡ None) × (n ≡ length_of vs)) (λ s. first_of (length_rows vs) ≡ Some s) }
{
    match lengths {
        Values::Missing => Err(LENGTH_REQUIRED),
        Values::Several(_) => Err(BAD_REQUEST),
        Values::One(text) => length_in(text),
    }
}

// The same of one value.
fn length_in(text: &[u8]) -> Result<usize, u16>
    ensures { MatchResult result (λ n. (first_of (length_rows (text.now ∷ [])) ≡ None) × (n ≡ length_of (text.now ∷ []))) (λ s. first_of (length_rows (text.now ∷ [])) ≡ Some s) }
{
    match number_of(text) {
        None => Err(BAD_REQUEST),
        Some(number) if number > BODY_LIMIT => Err(CONTENT_TOO_LARGE),
        Some(number) => Ok(number),
    }
}

/// How many octets the body has, or why a request isn't served by its fields.
pub fn body_told(buffer: &[u8], fields: &[HeaderSpan]) -> Result<usize, u16>
    requires { All (IsHeaderWithin (length buffer.now)) fields.now }
    ensures { MatchResult result (λ n. (first_of (field_rows (map (header_bytes buffer.now) fields.now)) ≡ None) × (n ≡ length_of (lengths (map (header_bytes buffer.now) fields.now)))) (λ s. first_of (field_rows (map (header_bytes buffer.now) fields.now)) ≡ Some s) }
{
    if is_there(values_of(buffer, fields, b"transfer-encoding")) {
        return Err(LENGTH_REQUIRED);
    }
    let length = match length_told(values_of(buffer, fields, b"content-length")) {
        Ok(length) => length,
        Err(status) => return Err(status),
    };
    if !is_type(values_of(buffer, fields, b"content-type")) {
        return Err(UNSUPPORTED_MEDIA_TYPE);
    }
    Ok(length)
}

// Whether there is a value.
fn is_there(found: Values<'_>) -> bool
    ensures { (vs : List (List ℕ)) → AreValues vs found.entry → result ≡ has vs }
{
    match found {
        Values::Missing => false,
        Values::One(_) | Values::Several(_) => true,
    }
}

/// Whether a field of this name has this value, in which case doesn't count.
pub fn any_is(buffer: &[u8], fields: &[HeaderSpan], name: &[u8], word: &[u8]) -> bool
    requires { All (IsHeaderWithin (length buffer.now)) fields.now }
    ensures { result ≡ list_any (λ v. str_eq_ignore_ascii_case v word.now) (values name.now (map (header_bytes buffer.now) fields.now)) }
{
    match fields {
        [] => false,
        [field, rest @ ..] => tells(buffer, *field, name, word) || any_is(buffer, rest, name, word),
    }
}

// Whether the field has this name and this value.
fn tells(buffer: &[u8], field: HeaderSpan, name: &[u8], word: &[u8]) -> bool
    requires { IsHeaderWithin (length buffer.now) field }
    ensures { result ≡ (str_eq_ignore_ascii_case (header_bytes buffer.now field).0 name.now && str_eq_ignore_ascii_case (header_bytes buffer.now field).1 word.now) }
{
    is_same(field.name.of(buffer), name) && is_same(field.value.of(buffer), word)
}
