//! Streams and answerers that fail.

use crate::echo::{After, Echo, note_of};
use cmp_links::{EndCause, MemLink, SessionEnd};
use http_wire::serve_http;
use std::alloc::{AllocError, Global};
use std::test::Fail;

/// A stream, the number of its call that fails, how requests are answered, what is written, why the session ends, and how many requests
/// are noted.
struct Row {
    stream: &'static [u8],
    call: u64,
    after: After,
    written: &'static [u8],
    cause: EndCause,
    noted: u64,
}

const TWO: &[u8] =
    b"POST /.well-known/cmp HTTP/1.1\r\nContent-Type: application/pkixcmp\r\nContent-Length: 3\r\n\r\nonePOST /.well-known/cmp HTTP/1.1\r\nContent-Type: application/pkixcmp\r\nContent-Length: 6\r\n\r\nsecond";

const GET: &[u8] = b"GET /.well-known/cmp HTTP/1.1\r\n\r\n";

// Each with what fails in it.
const ROWS: &[Row] = &[
    // the first read
    Row {
        stream: TWO,
        call: 1,
        after: After::Echoes,
        written: b"",
        cause: EndCause::ReadFault,
        noted: 0,
    },
    // the write of the first reply
    Row {
        stream: TWO,
        call: 2,
        after: After::Echoes,
        written: b"",
        cause: EndCause::WriteFault,
        noted: 1,
    },
    // the write of the second one
    Row {
        stream: TWO,
        call: 3,
        after: After::Echoes,
        written: b"HTTP/1.1 200 OK\r\nContent-Type: application/pkixcmp\r\nContent-Length: 3\r\n\r\none",
        cause: EndCause::WriteFault,
        noted: 2,
    },
    // the read behind them
    Row {
        stream: TWO,
        call: 4,
        after: After::Echoes,
        written: b"HTTP/1.1 200 OK\r\nContent-Type: application/pkixcmp\r\nContent-Length: 3\r\n\r\noneHTTP/1.1 200 OK\r\nContent-Type: application/pkixcmp\r\nContent-Length: 6\r\n\r\nsecond",
        cause: EndCause::ReadFault,
        noted: 2,
    },
    // no call
    Row {
        stream: TWO,
        call: 5,
        after: After::Echoes,
        written: b"HTTP/1.1 200 OK\r\nContent-Type: application/pkixcmp\r\nContent-Length: 3\r\n\r\noneHTTP/1.1 200 OK\r\nContent-Type: application/pkixcmp\r\nContent-Length: 6\r\n\r\nsecond",
        cause: EndCause::Closed,
        noted: 2,
    },
    // the write of a refusal
    Row {
        stream: GET,
        call: 2,
        after: After::Echoes,
        written: b"",
        cause: EndCause::WriteFault,
        noted: 0,
    },
    // the answerer at the first request
    Row {
        stream: TWO,
        call: 0,
        after: After::Fails(1),
        written: b"HTTP/1.1 503 Service Unavailable\r\nContent-Length: 0\r\nConnection: close\r\n\r\n",
        cause: EndCause::Unanswered,
        noted: 0,
    },
    // at the second one
    Row {
        stream: TWO,
        call: 0,
        after: After::Fails(2),
        written: b"HTTP/1.1 200 OK\r\nContent-Type: application/pkixcmp\r\nContent-Length: 3\r\n\r\noneHTTP/1.1 503 Service Unavailable\r\nContent-Length: 0\r\nConnection: close\r\n\r\n",
        cause: EndCause::Unanswered,
        noted: 1,
    },
    // and the write of that
    Row {
        stream: TWO,
        call: 3,
        after: After::Fails(2),
        written: b"HTTP/1.1 200 OK\r\nContent-Type: application/pkixcmp\r\nContent-Length: 3\r\n\r\none",
        cause: EndCause::Unanswered,
        noted: 1,
    },
    // memory at the first request
    Row {
        stream: TWO,
        call: 0,
        after: After::WantsMemory(1),
        written: b"HTTP/1.1 503 Service Unavailable\r\nContent-Length: 0\r\nConnection: close\r\n\r\n",
        cause: EndCause::NoMemory,
        noted: 0,
    },
    // at the second one, and the write of that
    Row {
        stream: TWO,
        call: 3,
        after: After::WantsMemory(2),
        written: b"HTTP/1.1 200 OK\r\nContent-Type: application/pkixcmp\r\nContent-Length: 3\r\n\r\none",
        cause: EndCause::NoMemory,
        noted: 1,
    },
];

// Whether the notes are those of so many requests, in their order.
fn are_noted(end: &SessionEnd, noted: u64) -> bool {
    let mut number = 0u64;
    for note in end.notes.as_slice() {
        number = number.saturating_add(1);
        if *note != note_of(number) {
            return false;
        }
    }
    number == noted
}

// Whether the session fails as is told.
fn is_served(alloc: Global, row: &Row) -> Result<bool, AllocError> {
    let mut link = MemLink::failing(row.stream.to_vec(alloc)?, vec![in alloc; row.call]?);
    let mut echo = Echo::new(row.after);
    let end = serve_http(alloc, &mut echo, &mut link);
    Ok(end.cause == row.cause && link.written() == row.written && are_noted(&end, row.noted))
}

#[test]
fn failures_end_a_session(rt: HostRuntime) -> Result<(), Fail> {
    for row in ROWS {
        assert!(rt; is_served(rt.alloc(), row)?);
    }
    Ok(())
}
