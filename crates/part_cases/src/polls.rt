//! Polls, by Bouncy Castle 1.72 (tests/vectors/java/BodyVectors.java), and their neighbours by hand.
use crate::common::{cut, is};
use der_base::whole;
use pki_parts::{
    BadForm, PollEntry, PollRep, PollReq, read_poll_rep, read_poll_req, write_poll_rep,
    write_poll_req,
};

/// A poll for the requests 0 and 300.
const TWO_POLLS: &[u8] = b"\x30\x0b\x30\x03\x02\x01\x00\x30\x04\x02\x02\x01\x2c";

/// The answer to a poll for the request 0, after 300 seconds, with a reason of two texts.
const REASONED: &[u8] =
    b"\x30\x19\x30\x17\x02\x01\x00\x02\x02\x01\x2c\x30\x0e\x0c\x04\x68\x65\x6c\x64\x0c\x06\x47\x65\x72\xc3\xa4\x74";

/// No polls: one whose second certReqId is not an INTEGER of DER, one of an entry with octets over, and a SET.
const NO_POLLS: &[&[u8]] = &[
    b"\x30\x0b\x30\x03\x02\x01\x00\x30\x04\x02\x02\x00\x2c",
    b"\x30\x07\x30\x05\x02\x01\x00\x05\x00",
    b"\x31\x05\x30\x03\x02\x01\x00",
];

/// No answers: one whose reason is not of texts, and one without checkAfter.
const NO_ANSWERS: &[&[u8]] = &[
    b"\x30\x0c\x30\x0a\x02\x01\x00\x02\x01\x3c\x30\x02\x05\x00",
    b"\x30\x05\x30\x03\x02\x01\x00",
];

/// What reading a poll gives, where these octets are an element; and where its content is cut.
fn poll_in(octets: &[u8]) -> Option<Result<PollReq<'_>, BadForm>> {
    match whole(octets) {
        Ok(e) => Some(read_poll_req(&e)),
        Err(_) => None,
    }
}

fn cut_poll_in(octets: &[u8]) -> Option<Result<PollReq<'_>, BadForm>> {
    match whole(octets) {
        Ok(e) => Some(read_poll_req(&cut(&e))),
        Err(_) => None,
    }
}

/// What reading an answer to a poll gives, where these octets are an element; and where its content is cut.
fn answer_in(octets: &[u8]) -> Option<Result<PollRep<'_>, BadForm>> {
    match whole(octets) {
        Ok(e) => Some(read_poll_rep(&e)),
        Err(_) => None,
    }
}

fn cut_answer_in(octets: &[u8]) -> Option<Result<PollRep<'_>, BadForm>> {
    match whole(octets) {
        Ok(e) => Some(read_poll_rep(&cut(&e))),
        Err(_) => None,
    }
}

#[test]
fn reads_polls(rt: HostRuntime) {
    let two = PollReq {
        count: 2,
        first: Some(b"\x00"),
    };
    assert_eq!(rt; poll_in(TWO_POLLS), Some(Ok(two)));
    let none = PollReq {
        count: 0,
        first: None,
    };
    assert_eq!(rt; poll_in(b"\x30\x00"), Some(Ok(none)));
}

#[test]
fn refuses_neighbours_of_polls(rt: HostRuntime) {
    assert!(rt; matches!(cut_poll_in(TWO_POLLS), Some(Err(_))));
    for octets in NO_POLLS {
        assert!(rt; matches!(poll_in(octets), Some(Err(_))));
    }
}

#[test]
fn reads_answers_to_polls(rt: HostRuntime) {
    let entry = PollEntry {
        id: b"\x00",
        after: b"\x01\x2c",
    };
    let answer = PollRep {
        count: 1,
        first: Some(entry),
    };
    assert_eq!(rt; answer_in(REASONED), Some(Ok(answer)));
}

#[test]
fn refuses_neighbours_of_answers(rt: HostRuntime) {
    assert!(rt; matches!(cut_answer_in(REASONED), Some(Err(_))));
    for octets in NO_ANSWERS {
        assert!(rt; matches!(answer_in(octets), Some(Err(_))));
    }
}

#[test]
fn writes_polls(rt: HostRuntime) {
    assert!(rt;
        is(
            write_poll_req(rt.alloc(), 0),
            b"\x30\x05\x30\x03\x02\x01\x00"
        )
    );
    assert!(rt;
        is(
            write_poll_req(rt.alloc(), -1),
            b"\x30\x05\x30\x03\x02\x01\xff"
        )
    );
}

#[test]
fn writes_answers_to_polls(rt: HostRuntime) {
    let soon = b"\x30\x08\x30\x06\x02\x01\xff\x02\x01\x3c";
    assert!(rt; is(write_poll_rep(rt.alloc(), -1, 60), soon));
    let latest = b"\x30\x0c\x30\x0a\x02\x01\xff\x02\x05\x00\xff\xff\xff\xff";
    assert!(rt; is(write_poll_rep(rt.alloc(), -1, 4_294_967_295), latest));
}
