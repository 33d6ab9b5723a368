//! Frames of messages, and what is protected of one.
use crate::common::is;
use crate::vectors::{IR, IR_PART, PKICONF, TIMED};
use pki_message::{Frame, protected_part, read_frame};
use std::alloc::Global;

/// Whether a frame is that of a pkiconf.
fn is_pkiconf(frame: &Frame<'_>) -> bool {
    frame.body_tag == 19 && frame.body_bytes == b"\xb3\x02\x05\x00".as_slice()
}

/// Whether a frame is of a pkiconf with an algorithm, from the second 1,700,000,000.
fn is_timed(frame: &Frame<'_>) -> bool {
    is_pkiconf(frame) && frame.header.time == Some(1_700_000_000) && frame.header.alg.is_some()
}

#[test]
fn frames_are_read(rt: HostRuntime) {
    assert!(rt; matches!(read_frame(PKICONF), Ok(frame) if is_pkiconf(&frame)));
    assert!(rt; matches!(read_frame(TIMED), Ok(frame) if is_timed(&frame)));
}

/// Whether what is protected of a message is these octets.
fn is_protected(alloc: Global, octets: &[u8], part: &[u8]) -> bool {
    let Ok(frame) = read_frame(octets) else {
        return false;
    };
    if frame.header_bytes.len() > 999 || frame.body_bytes.len() > 999 {
        return false;
    }
    is(
        protected_part(alloc, frame.header_bytes, frame.body_bytes),
        part,
    )
}

#[test]
fn the_header_and_the_body_are_protected(rt: HostRuntime) {
    assert!(rt; is_protected(rt.alloc(), IR, IR_PART));
}
