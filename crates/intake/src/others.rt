//! Bodies that are no requests for certificates.
ghost use Rattle.std.specs.Prelude.{◌≡◌, ℕ, List, option_and_then, option_map};
ghost use Rattle.std.specs.Option.{option_copied};
ghost use Rattle.asn_types.specs.Algorithm.{algorithm_of};
ghost use Rattle.asn_types.specs.Template.{extensions_of};
ghost use Rattle.pki_parts.specs.Confirmation.{cert_status_of, confirm_of};
ghost use Rattle.pki_parts.specs.Polling.{poll_req_of};
ghost use Rattle.pki_parts.specs.Revocation.{rev_req_of};
ghost use Rattle.pki_parts.specs.Status.{status_of};
ghost use Rattle.deal_table.specs.History.{Receipted};
ghost use Rattle.intake.specs.Values.{number_in};
ghost use Rattle.intake.specs.Bodies.{status_number, status_in, is_known_hash, capped, confirmation_of, polling_of, reason_of, withdrawal_of};
ghost use Rattle.intake.specs.Told.{confirming_told, polling_told, withdrawing_told};

use crate::bodies::{CertName, Confirming, Polling, ReqId, Withdrawing};
use crate::requests::name_octets;
use crate::values::{is_sha256, number, req_id};
use asn_types::{AlgorithmId, Extensions};
use pki_parts::{CertConfirm, PollReq, RevReq, StatusInfo, revocation_reason};

/// 0, 1, or 2 for more.
fn capped(count: u64) -> u8
    ensures { result ≡ capped count }
{
    if count <= 2 { count as u8 } else { 2 }
}

/// The number of a status, 0 to 2, or 3 for any other.
fn status_number(content: &[u8]) -> u8
    ensures { result ≡ status_number content.now }
{
    match content {
        [n] if *n <= 2 => *n,
        _ => 3,
    }
}

/// The number of a status that may be absent, which stands for 0.
fn status(info: &Option<StatusInfo>) -> u8
    ensures { result ≡ status_in (option_map status_of info.now) }
{
    match info {
        None => 0,
        Some(info) => status_number(info.status),
    }
}

/// Whether a hashAlg is absent or SHA-256.
fn is_known_hash(alg: &Option<AlgorithmId>) -> bool
    ensures { result ≡ is_known_hash (option_map algorithm_of alg.now) }
{
    match alg {
        None => true,
        Some(alg) => is_sha256(alg),
    }
}

/// What a certConf says (RFC 9810, 5.3.18).
pub(crate) fn confirming<'a>(list: &CertConfirm<'a>) -> Confirming<'a>
    ensures { (hashes : Receipted → List ℕ) → confirmation_of hashes (confirm_of list.now).count (confirm_of list.now).first ≡ confirming_told hashes result }
{
    let count = capped(list.count);
    match &list.first {
        None => Confirming {
            count,
            id: ReqId::Zero,
            status: 0,
            has_known_hash: true,
            hash: None,
        },
        Some(first) => Confirming {
            count,
            id: req_id(first.id),
            status: status(&first.status),
            has_known_hash: is_known_hash(&first.hash_alg),
            hash: Some(first.hash),
        },
    }
}

/// What a pollReq says (RFC 9810, 5.3.22).
pub(crate) fn polling(list: &PollReq) -> Polling
    ensures { polling_of (poll_req_of list.now).count (poll_req_of list.now).first ≡ polling_told result }
{
    match list.first {
        None => Polling {
            is_one: false,
            id: ReqId::Other,
        },
        Some(id) => Polling {
            is_one: list.count == 1,
            id: req_id(id),
        },
    }
}

/// The reason that crlEntryDetails give.
fn reason(exts: Option<Extensions>) -> Option<u8>
    ensures { result ≡ reason_of (option_map extensions_of exts.entry) }
{
    match revocation_reason(exts) {
        Ok(reason) => Some(reason),
        Err(_) => None,
    }
}

/// The number of a serial number that is there.
fn serial_number(serial: Option<&[u8]>) -> Option<u64>
    ensures { result ≡ option_and_then number_in (option_copied serial.entry) }
{
    match serial {
        None => None,
        Some(content) => number(content),
    }
}

/// What an rr says (RFC 9810, 5.3.9).
pub(crate) fn withdrawing<'a>(list: &RevReq<'a>) -> Withdrawing<'a>
    ensures { withdrawal_of (rev_req_of list.now).count (rev_req_of list.now).first ≡ withdrawing_told result }
{
    match &list.first {
        None => Withdrawing {
            is_one: false,
            reason: None,
            certificate: CertName {
                issuer: None,
                serial: None,
            },
        },
        Some(first) => Withdrawing {
            is_one: list.count == 1,
            reason: reason(first.exts),
            certificate: CertName {
                issuer: name_octets(first.template.issuer),
                serial: serial_number(first.template.serial),
            },
        },
    }
}
