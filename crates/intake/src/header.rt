//! Headers, as far as the table of decisions asks.
ghost use Rattle.std.specs.Prelude.{◌≡◌, Option, option_map};
ghost use Rattle.std.specs.Option.{option_copied};
ghost use Rattle.asn_types.specs.Algorithm.{algorithm_of};
ghost use Rattle.pki_header.specs.Header.{head_of};
ghost use Rattle.deal_table.specs.Message.{echo_of, echoed};
ghost use Rattle.deal_table.specs.Table.{header_rows};
ghost use Rattle.intake.specs.Values.{sized, version_of};
ghost use Rattle.intake.specs.Headers.{kind_of, kid_of, header_of};
ghost use Rattle.intake.specs.Made.{FirstApplies};

use asn_types::{AlgorithmId, HSS_LMS};
use cmp_values::{FailInfo, Short};
use deal_changes::Kind;
use deal_model::Echo;
use pbmac::read_params;
use pki_header::Header;

/// The octets of a field, where there are at least `least` and at most 64.
fn sized(field: Option<&[u8]>, least: usize) -> Option<Short>
    ensures { result ≡ sized least 64 (option_copied field.entry) }
{
    let octets = field?;
    if octets.len() < least {
        return None;
    }
    Short::of(octets)
}

/// The version, which has one octet; 0 for any other.
fn version(content: &[u8]) -> u8
    ensures { result ≡ version_of content.now }
{
    match content {
        [n] => *n,
        _ => 0,
    }
}

/// How an algorithm protects, where it is served.
pub(crate) fn kind(alg: &Option<AlgorithmId>) -> Option<Kind>
    ensures { result ≡ kind_of (option_map algorithm_of alg.now) }
{
    let Some(alg) = alg else {
        return None;
    };
    if read_params(alg).is_ok() {
        return Some(Kind::Mac);
    }
    if alg.oid == HSS_LMS && alg.params.is_none() {
        return Some(Kind::Lms);
    }
    None
}

/// The senderKID; empty where it is absent or has more than 64 octets.
pub(crate) fn kid(header: &Header) -> Short
    ensures { result ≡ kid_of (option_copied header.now.sender_kid) }
{
    match sized(header.sender_kid, 0) {
        Some(kid) => kid,
        None => Short::empty(),
    }
}

/// The transactionID, where it has 1 to 64 octets.
pub(crate) fn transaction(header: &Header) -> Option<Short>
    ensures { result ≡ sized 1 64 (option_copied header.now.tid) }
{
    sized(header.tid, 1)
}

/// The senderNonce, where it has 16 to 64 octets.
fn nonce(header: &Header) -> Option<Short>
    ensures { result ≡ sized 16 64 (option_copied header.now.sender_nonce) }
{
    sized(header.sender_nonce, 16)
}

/// The recipNonce, where it has at most 64 octets.
pub(crate) fn recipient_nonce(header: &Header) -> Option<Short>
    ensures { result ≡ sized 0 64 (option_copied header.now.recip_nonce) }
{
    sized(header.recip_nonce, 0)
}

/// Why a header is refused: its version isn't 2 or 3, or its transactionID or its senderNonce is absent or of a wrong length.
pub(crate) fn fault(header: &Header) -> Option<FailInfo>
    ensures { FirstApplies (header_rows (header_of (head_of header.now) header.now.time)) result }
{
    if !matches!(version(header.pvno), 2 | 3) {
        return Some(FailInfo::UnsupportedVersion);
    }
    if transaction(header).is_none() {
        return Some(FailInfo::BadDataFormat);
    }
    if nonce(header).is_none() {
        return Some(FailInfo::BadSenderNonce);
    }
    None
}

/// What a reply repeats of a header: its version, or 3 where that isn't served, and the parts that are within their limits.
pub(crate) fn echo<'a>(header: &Header<'a>) -> Echo<'a>
    ensures { echoed result ≡ echo_of (header_of (head_of header.now) header.now.time) }
{
    let pvno = match version(header.pvno) {
        2 => 2,
        _ => 3,
    };
    Echo {
        pvno,
        sender: header.sender.whole,
        tid: transaction(header),
        nonce: nonce(header),
    }
}
