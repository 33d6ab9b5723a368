//! Each message is read, written again from its parts, and refused with its last octet cut off.
ghost use Rattle.std.specs.Prelude.{◌≡◌};

use crate::common::{cut, is};
use crate::vectors::{
    CERT_CONF, CP, CR, ERROR, GENM, GENP, HEADER, IP, IR, KUP, KUR, NESTED, P10CR, PKICONF,
    POLL_REP, POLL_REQ, RANN, RP, RR,
};
use pki_message::{Message, read_message, write_message};
use std::alloc::Global;

/// The messages with these bodies.
const MESSAGES: &[(&str, &[u8])] = &[
    ("ir", IR),
    ("cr", CR),
    ("kur", KUR),
    ("p10cr", P10CR),
    ("ip", IP),
    ("cp", CP),
    ("kup", KUP),
    ("rr", RR),
    ("rp", RP),
    ("rann", RANN),
    ("pkiconf", PKICONF),
    ("nested", NESTED),
    ("genm", GENM),
    ("genp", GENP),
    ("error", ERROR),
    ("cert conf", CERT_CONF),
    ("poll req", POLL_REQ),
    ("poll rep", POLL_REP),
];

/// Whether the parts of a message, of at most 999 octets each, are written as these octets.
fn is_written(alloc: Global, message: &Message<'_>, octets: &[u8]) -> bool {
    let (protection, extra) = (message.protection, message.extra);
    if message.header_bytes.len() > 999 || message.body_bytes.len() > 999 {
        return false;
    }
    if protection.unwrap_or(&[]).len() > 999 || extra.unwrap_or(&[]).len() > 999 {
        return false;
    }
    is(
        write_message(
            alloc,
            message.header_bytes,
            message.body_bytes,
            protection,
            extra,
        ),
        octets,
    )
}

/// Whether octets are read as a message with that header, and written again.
fn goes_both_ways(alloc: Global, octets: &[u8]) -> bool {
    match read_message(octets) {
        Ok(message) => message.header_bytes == HEADER && is_written(alloc, &message, octets),
        Err(_) => false,
    }
}

#[test]
fn each_message_goes_both_ways(rt: HostRuntime) {
    for (name, octets) in MESSAGES {
        assert!(rt; goes_both_ways(rt.alloc(), octets), "{name}");
    }
}

#[test]
fn a_message_that_is_cut_is_refused(rt: HostRuntime) {
    for (name, octets) in MESSAGES {
        assert!(rt; read_message(cut(octets)).is_err(), "{name}");
    }
}
