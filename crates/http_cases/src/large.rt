//! Streams at the limits: bodies, heads and numbers of requests.

use crate::cut::Cut;
use crate::echo::{After, Echo};
use cmp_links::{EndCause, MemLink};
use http_wire::serve_http;
use std::alloc::{AllocError, Global};
use std::test::Fail;

/// Octets, of which a piece stands so many times.
struct Parts {
    before: &'static [u8],
    piece: &'static [u8],
    times: usize,
    after: &'static [u8],
}

/// A stream, what is written to it, why the session ends, and how many requests are answered.
struct Row {
    stream: Parts,
    written: Parts,
    cause: EndCause,
    answered: u64,
}

const ROWS: &[Row] = &[
    // the largest body
    Row {
        stream: Parts {
            before: b"POST /.well-known/cmp HTTP/1.1\r\nContent-Type: application/pkixcmp\r\nContent-Length: 131072\r\n\r\n",
            piece: b"x",
            times: 131072,
            after: b"",
        },
        written: Parts {
            before: b"HTTP/1.1 200 OK\r\nContent-Type: application/pkixcmp\r\nContent-Length: 131072\r\n\r\n",
            piece: b"x",
            times: 131072,
            after: b"",
        },
        cause: EndCause::Closed,
        answered: 1,
    },
    // one octet more
    Row {
        stream: Parts {
            before: b"POST /.well-known/cmp HTTP/1.1\r\nContent-Type: application/pkixcmp\r\nContent-Length: 131073\r\n\r\n",
            piece: b"x",
            times: 131073,
            after: b"",
        },
        written: Parts {
            before: b"HTTP/1.1 413 Content Too Large\r\nContent-Length: 0\r\nConnection: close\r\n\r\n",
            piece: b"",
            times: 0,
            after: b"",
        },
        cause: EndCause::Rejected(413),
        answered: 0,
    },
    // a head of 8,192 octets
    Row {
        stream: Parts {
            before: b"POST /.well-known/cmp HTTP/1.1\r\nContent-Type: application/pkixcmp\r\nContent-Length: 1\r\nX: ",
            piece: b"a",
            times: 8099,
            after: b"\r\n\r\nx",
        },
        written: Parts {
            before: b"HTTP/1.1 200 OK\r\nContent-Type: application/pkixcmp\r\nContent-Length: 1\r\n\r\nx",
            piece: b"",
            times: 0,
            after: b"",
        },
        cause: EndCause::Closed,
        answered: 1,
    },
    // one octet more
    Row {
        stream: Parts {
            before: b"POST /.well-known/cmp HTTP/1.1\r\nContent-Type: application/pkixcmp\r\nContent-Length: 1\r\nX: ",
            piece: b"a",
            times: 8100,
            after: b"\r\n\r\nx",
        },
        written: Parts {
            before: b"HTTP/1.1 400 Bad Request\r\nContent-Length: 0\r\nConnection: close\r\n\r\n",
            piece: b"",
            times: 0,
            after: b"",
        },
        cause: EndCause::Rejected(400),
        answered: 0,
    },
    // 32 fields
    Row {
        stream: Parts {
            before: b"POST /.well-known/cmp HTTP/1.1\r\nContent-Type: application/pkixcmp\r\nContent-Length: 1\r\n",
            piece: b"X: y\r\n",
            times: 30,
            after: b"\r\nx",
        },
        written: Parts {
            before: b"HTTP/1.1 200 OK\r\nContent-Type: application/pkixcmp\r\nContent-Length: 1\r\n\r\nx",
            piece: b"",
            times: 0,
            after: b"",
        },
        cause: EndCause::Closed,
        answered: 1,
    },
    // 33 fields
    Row {
        stream: Parts {
            before: b"POST /.well-known/cmp HTTP/1.1\r\nContent-Type: application/pkixcmp\r\nContent-Length: 1\r\n",
            piece: b"X: y\r\n",
            times: 31,
            after: b"\r\nx",
        },
        written: Parts {
            before: b"HTTP/1.1 400 Bad Request\r\nContent-Length: 0\r\nConnection: close\r\n\r\n",
            piece: b"",
            times: 0,
            after: b"",
        },
        cause: EndCause::Rejected(400),
        answered: 0,
    },
    // 999 requests
    Row {
        stream: Parts {
            before: b"",
            piece: b"POST /.well-known/cmp HTTP/1.1\r\nContent-Type: application/pkixcmp\r\nContent-Length: 0\r\n\r\n",
            times: 999,
            after: b"",
        },
        written: Parts {
            before: b"",
            piece: b"HTTP/1.1 200 OK\r\nContent-Type: application/pkixcmp\r\nContent-Length: 0\r\n\r\n",
            times: 999,
            after: b"",
        },
        cause: EndCause::Closed,
        answered: 999,
    },
    // 1,001 requests
    Row {
        stream: Parts {
            before: b"",
            piece: b"POST /.well-known/cmp HTTP/1.1\r\nContent-Type: application/pkixcmp\r\nContent-Length: 0\r\n\r\n",
            times: 1001,
            after: b"",
        },
        written: Parts {
            before: b"",
            piece: b"HTTP/1.1 200 OK\r\nContent-Type: application/pkixcmp\r\nContent-Length: 0\r\n\r\n",
            times: 999,
            after: b"HTTP/1.1 200 OK\r\nContent-Type: application/pkixcmp\r\nContent-Length: 0\r\nConnection: close\r\n\r\n",
        },
        cause: EndCause::Limit,
        answered: 1000,
    },
    // 1,001 requests, of which the thousandth asks for the end
    Row {
        stream: Parts {
            before: b"",
            piece: b"POST /.well-known/cmp HTTP/1.1\r\nContent-Type: application/pkixcmp\r\nContent-Length: 0\r\n\r\n",
            times: 999,
            after: b"POST /.well-known/cmp HTTP/1.1\r\nContent-Type: application/pkixcmp\r\nContent-Length: 0\r\nConnection: close\r\n\r\nPOST /.well-known/cmp HTTP/1.1\r\nContent-Type: application/pkixcmp\r\nContent-Length: 0\r\n\r\n",
        },
        written: Parts {
            before: b"",
            piece: b"HTTP/1.1 200 OK\r\nContent-Type: application/pkixcmp\r\nContent-Length: 0\r\n\r\n",
            times: 999,
            after: b"HTTP/1.1 200 OK\r\nContent-Type: application/pkixcmp\r\nContent-Length: 0\r\nConnection: close\r\n\r\n",
        },
        cause: EndCause::Asked,
        answered: 1000,
    },
];

// The octets in one.
fn whole(alloc: Global, parts: &Parts) -> Result<Vec<u8>, AllocError> {
    let mut octets = parts.before.to_vec(alloc)?;
    for _ in 0..parts.times {
        octets.extend_from_slice(parts.piece)?;
    }
    octets.extend_from_slice(parts.after)?;
    Ok(octets)
}

// Whether the stream is served as is told.
fn is_served(alloc: Global, row: &Row, most: usize) -> Result<bool, AllocError> {
    let written = whole(alloc, &row.written)?;
    let mut link = Cut::new(MemLink::new(whole(alloc, &row.stream)?), most);
    let mut echo = Echo::new(After::Echoes);
    let end = serve_http(alloc, &mut echo, &mut link);
    Ok(
        end.cause == row.cause
            && link.link.written() == written.as_slice()
            && echo.asked == row.answered,
    )
}

#[test]
fn limits_are_kept(rt: HostRuntime) -> Result<(), Fail> {
    for row in ROWS {
        assert!(rt; is_served(rt.alloc(), row, 4095)?);
        assert!(rt; is_served(rt.alloc(), row, 1_000_000)?);
    }
    Ok(())
}
