//! Each row of the table, with ample memory.

use crate::given::{At, Told, deal, event, stage};
use crate::seen::{Does, seen};
use cmp_values::FailInfo;
use device_table::{Cause, deed};
use std::alloc::{AllocError, Global};
use std::test::Fail;

// What a device does in a stage, when it is told something.
const ROWS: &[(At, Told, Does)] = &[
    (At::Start, Told::Begin, Does::Requests),
    (At::Start, Told::Confirmation, Does::Keeps),
    (At::Start, Told::LostAfter(0), Does::Keeps),
    (At::Start, Told::Wake, Does::Keeps),
    // A message is sent eight times, whatever it is about.
    (At::Asked, Told::LostAfter(0), Does::Repeats(1)),
    (At::Asked, Told::LostAfter(6), Does::Repeats(7)),
    (At::Asked, Told::LostAfter(7), Does::Fails(Cause::Silent)),
    (At::Polling, Told::LostAfter(6), Does::Repeats(7)),
    (At::Confirming, Told::LostAfter(6), Does::Repeats(7)),
    (
        At::Rejecting,
        Told::LostAfter(7),
        Does::Fails(Cause::Silent),
    ),
    // Replies to something else are kept out.
    (At::Asked, Told::Garbage, Does::Fails(Cause::BadReply)),
    (At::Asked, Told::OtherTransaction, Does::Keeps),
    (At::Asked, Told::NoAnswer, Does::Keeps),
    (At::Asked, Told::ToTheFirst, Does::Keeps),
    (At::Confirming, Told::NoAnswer, Does::Keeps),
    (At::Confirming, Told::ToTheFirst, Does::Keeps),
    (At::Polling, Told::NoAnswer, Does::Keeps),
    // What waited may be answered as the first request.
    (At::Polling, Told::ToTheFirst, Does::Accepts),
    // An error ends a run, protected or not; nothing else does that isn't protected.
    (
        At::Asked,
        Told::Error,
        Does::Fails(Cause::Refused(Some(FailInfo::BadPop))),
    ),
    (
        At::Rejecting,
        Told::Error,
        Does::Fails(Cause::Refused(Some(FailInfo::BadPop))),
    ),
    (
        At::Confirming,
        Told::Unproven,
        Does::Fails(Cause::BadProtection),
    ),
    (At::Asked, Told::Unproven, Does::Fails(Cause::BadProtection)),
    // The request waits.
    (At::Asked, Told::Delay(1), Does::Rests(1)),
    (
        At::Polling,
        Told::Delay(4_294_967_295),
        Does::Rests(4_294_967_295),
    ),
    (At::Confirming, Told::Delay(1), Does::Fails(Cause::BadReply)),
    (At::Waits, Told::Wake, Does::Polls),
    (At::Waits, Told::Certificate, Does::Keeps),
    (At::Waits, Told::LostAfter(0), Does::Keeps),
    (At::Waits, Told::Begin, Does::Keeps),
    // It is rejected.
    (At::Asked, Told::Denial, Does::Fails(Cause::Denied)),
    (At::Polling, Told::Denial, Does::Fails(Cause::Denied)),
    (At::Rejecting, Told::Denial, Does::Fails(Cause::BadReply)),
    // A certificate comes.
    (At::Asked, Told::Certificate, Does::Accepts),
    (At::Asked, Told::CertificateImplicitly, Does::Wins),
    (At::Asked, Told::OtherCertificate, Does::Rejects),
    (At::Polling, Told::CertificateImplicitly, Does::Wins),
    (At::Polling, Told::OtherCertificate, Does::Rejects),
    (
        At::Confirming,
        Told::Certificate,
        Does::Fails(Cause::BadReply),
    ),
    // The confirmation is accepted.
    (At::Confirming, Told::Confirmation, Does::Wins),
    (
        At::Rejecting,
        Told::Confirmation,
        Does::Fails(Cause::BadCertificate),
    ),
    (At::Asked, Told::Confirmation, Does::Fails(Cause::BadReply)),
    (At::Polling, Told::OtherBody, Does::Fails(Cause::BadReply)),
    (
        At::Confirming,
        Told::OtherBody,
        Does::Fails(Cause::BadReply),
    ),
    // No row.
    (At::Asked, Told::Begin, Does::Keeps),
    (At::Asked, Told::Wake, Does::Keeps),
    (At::Ended, Told::Certificate, Does::Keeps),
    (At::Ended, Told::Begin, Does::Keeps),
];

// Whether a device in this stage does so, when it is told this.
fn is_done(alloc: Global, at: At, told: Told, does: Does) -> Result<bool, AllocError> {
    let stage = stage(alloc, at, told)?;
    let event = event(alloc, told)?;
    let done = deed(alloc, &deal(), &stage, &event)?;
    Ok(seen(&done) == does)
}

#[test]
fn each_row_is_done(rt: HostRuntime) -> Result<(), Fail> {
    for (at, told, does) in ROWS {
        assert!(rt; is_done(rt.alloc(), *at, *told, *does)?);
    }
    Ok(())
}
