//! Streams of a few requests, whole and in pieces.

use crate::cut::Cut;
use crate::echo::{After, Echo};
use cmp_links::{EndCause, MemLink};
use http_wire::serve_http;
use std::alloc::{AllocError, Global};
use std::test::Fail;

/// A stream, what is written to it, why the session ends, and how many requests are answered.
struct Row {
    stream: &'static [u8],
    written: &'static [u8],
    cause: EndCause,
    answered: u64,
}

const REFUSED_400: &[u8] =
    b"HTTP/1.1 400 Bad Request\r\nContent-Length: 0\r\nConnection: close\r\n\r\n";

const REFUSED_404: &[u8] =
    b"HTTP/1.1 404 Not Found\r\nContent-Length: 0\r\nConnection: close\r\n\r\n";

const REFUSED_405: &[u8] =
    b"HTTP/1.1 405 Method Not Allowed\r\nAllow: POST\r\nContent-Length: 0\r\nConnection: close\r\n\r\n";

const REFUSED_411: &[u8] =
    b"HTTP/1.1 411 Length Required\r\nContent-Length: 0\r\nConnection: close\r\n\r\n";

const REFUSED_413: &[u8] =
    b"HTTP/1.1 413 Content Too Large\r\nContent-Length: 0\r\nConnection: close\r\n\r\n";

const REFUSED_415: &[u8] =
    b"HTTP/1.1 415 Unsupported Media Type\r\nContent-Length: 0\r\nConnection: close\r\n\r\n";

const ROWS: &[Row] = &[
    // a request, and then the end
    Row {
        stream: b"POST /.well-known/cmp HTTP/1.1\r\nContent-Type: application/pkixcmp\r\nContent-Length: 3\r\n\r\none",
        written: b"HTTP/1.1 200 OK\r\nContent-Type: application/pkixcmp\r\nContent-Length: 3\r\n\r\none",
        cause: EndCause::Closed,
        answered: 1,
    },
    // two of them
    Row {
        stream: b"POST /.well-known/cmp HTTP/1.1\r\nContent-Type: application/pkixcmp\r\nContent-Length: 3\r\n\r\nonePOST /.well-known/cmp HTTP/1.1\r\nContent-Type: application/pkixcmp\r\nContent-Length: 6\r\n\r\nsecond",
        written: b"HTTP/1.1 200 OK\r\nContent-Type: application/pkixcmp\r\nContent-Length: 3\r\n\r\noneHTTP/1.1 200 OK\r\nContent-Type: application/pkixcmp\r\nContent-Length: 6\r\n\r\nsecond",
        cause: EndCause::Closed,
        answered: 2,
    },
    // no octets at all
    Row {
        stream: b"",
        written: b"",
        cause: EndCause::Closed,
        answered: 0,
    },
    // a body of none
    Row {
        stream: b"POST /.well-known/cmp HTTP/1.1\r\nContent-Type: application/pkixcmp\r\nContent-Length: 0\r\n\r\n",
        written: b"HTTP/1.1 200 OK\r\nContent-Type: application/pkixcmp\r\nContent-Length: 0\r\n\r\n",
        cause: EndCause::Closed,
        answered: 1,
    },
    // HTTP/1.0, and what is behind it isn't read
    Row {
        stream: b"POST /.well-known/cmp HTTP/1.0\r\nContent-Type: application/pkixcmp\r\nContent-Length: 3\r\n\r\nonePOST /.well-known/cmp HTTP/1.1\r\nContent-Type: application/pkixcmp\r\nContent-Length: 6\r\n\r\nsecond",
        written: b"HTTP/1.1 200 OK\r\nContent-Type: application/pkixcmp\r\nContent-Length: 3\r\nConnection: close\r\n\r\none",
        cause: EndCause::Asked,
        answered: 1,
    },
    // the end that is asked for, in whatever case
    Row {
        stream: b"POST /.well-known/cmp HTTP/1.1\r\nContent-Type: application/pkixcmp\r\nContent-Length: 3\r\nconnection: CLOSE\r\n\r\nonePOST /.well-known/cmp HTTP/1.1\r\nContent-Type: application/pkixcmp\r\nContent-Length: 6\r\n\r\nsecond",
        written: b"HTTP/1.1 200 OK\r\nContent-Type: application/pkixcmp\r\nContent-Length: 3\r\nConnection: close\r\n\r\none",
        cause: EndCause::Asked,
        answered: 1,
    },
    // another option of the connection, and fields that don't count
    Row {
        stream: b"POST /.well-known/cmp HTTP/1.1\r\nContent-Type: application/pkixcmp\r\nContent-Length: 3\r\nConnection: keep-alive\r\nExpect: 100-continue\r\n\r\none",
        written: b"HTTP/1.1 200 OK\r\nContent-Type: application/pkixcmp\r\nContent-Length: 3\r\n\r\none",
        cause: EndCause::Closed,
        answered: 1,
    },
    // a line that ends in LF alone, a parameter of the type, zeros before the length
    Row {
        stream: b"POST /.well-known/cmp/p/x?y HTTP/1.1\nContent-type:Application/PKIXCMP; q=1\ncontent-length: 0000000005\n\nhello",
        written: b"HTTP/1.1 200 OK\r\nContent-Type: application/pkixcmp\r\nContent-Length: 5\r\n\r\nhello",
        cause: EndCause::Closed,
        answered: 1,
    },
    // a GET on the path
    Row {
        stream: b"GET /.well-known/cmp HTTP/1.1\r\n\r\n",
        written: REFUSED_405,
        cause: EndCause::Rejected(405),
        answered: 0,
    },
    // a method in another case
    Row {
        stream: b"post /.well-known/cmp HTTP/1.1\r\nContent-Type: application/pkixcmp\r\nContent-Length: 1\r\n\r\nx",
        written: REFUSED_405,
        cause: EndCause::Rejected(405),
        answered: 0,
    },
    // another path, also where the method is another one
    Row {
        stream: b"GET /other HTTP/1.1\r\n\r\n",
        written: REFUSED_404,
        cause: EndCause::Rejected(404),
        answered: 0,
    },
    // a longer name
    Row {
        stream: b"POST /.well-known/cmpx HTTP/1.1\r\nContent-Type: application/pkixcmp\r\nContent-Length: 1\r\n\r\nx",
        written: REFUSED_404,
        cause: EndCause::Rejected(404),
        answered: 0,
    },
    // the absolute form
    Row {
        stream: b"POST http://ca/.well-known/cmp HTTP/1.1\r\nContent-Type: application/pkixcmp\r\nContent-Length: 1\r\n\r\nx",
        written: REFUSED_404,
        cause: EndCause::Rejected(404),
        answered: 0,
    },
    // a path in another case
    Row {
        stream: b"POST /.well-known/CMP HTTP/1.1\r\nContent-Type: application/pkixcmp\r\nContent-Length: 1\r\n\r\nx",
        written: REFUSED_404,
        cause: EndCause::Rejected(404),
        answered: 0,
    },
    // no length
    Row {
        stream: b"POST /.well-known/cmp HTTP/1.1\r\nContent-Type: application/pkixcmp\r\n\r\n",
        written: REFUSED_411,
        cause: EndCause::Rejected(411),
        answered: 0,
    },
    // a coding beside a length, and a request in the body
    Row {
        stream: b"POST /.well-known/cmp HTTP/1.1\r\nContent-Type: application/pkixcmp\r\nTransfer-Encoding: identity\r\nContent-Length: 3\r\n\r\nonePOST /.well-known/cmp HTTP/1.1\r\nContent-Type: application/pkixcmp\r\nContent-Length: 3\r\n\r\ntwo",
        written: REFUSED_411,
        cause: EndCause::Rejected(411),
        answered: 0,
    },
    // a chunked body
    Row {
        stream: b"POST /.well-known/cmp HTTP/1.1\r\nContent-Type: application/pkixcmp\r\nTransfer-Encoding: chunked\r\n\r\n0\r\n\r\n",
        written: REFUSED_411,
        cause: EndCause::Rejected(411),
        answered: 0,
    },
    // one length twice
    Row {
        stream: b"POST /.well-known/cmp HTTP/1.1\r\nContent-Type: application/pkixcmp\r\nContent-Length: 3\r\nContent-Length: 3\r\n\r\none",
        written: REFUSED_400,
        cause: EndCause::Rejected(400),
        answered: 0,
    },
    // two lengths
    Row {
        stream: b"POST /.well-known/cmp HTTP/1.1\r\nContent-Type: application/pkixcmp\r\nContent-Length: 3\r\nContent-Length: 4\r\n\r\none",
        written: REFUSED_400,
        cause: EndCause::Rejected(400),
        answered: 0,
    },
    // a length that is no number: +5
    Row {
        stream: b"POST /.well-known/cmp HTTP/1.1\r\nContent-Type: application/pkixcmp\r\nContent-Length: +5\r\n\r\nhello",
        written: REFUSED_400,
        cause: EndCause::Rejected(400),
        answered: 0,
    },
    // a length that is no number: 0x5
    Row {
        stream: b"POST /.well-known/cmp HTTP/1.1\r\nContent-Type: application/pkixcmp\r\nContent-Length: 0x5\r\n\r\nhello",
        written: REFUSED_400,
        cause: EndCause::Rejected(400),
        answered: 0,
    },
    // a length that is no number: 5, 5
    Row {
        stream: b"POST /.well-known/cmp HTTP/1.1\r\nContent-Type: application/pkixcmp\r\nContent-Length: 5, 5\r\n\r\nhello",
        written: REFUSED_400,
        cause: EndCause::Rejected(400),
        answered: 0,
    },
    // an empty length
    Row {
        stream: b"POST /.well-known/cmp HTTP/1.1\r\nContent-Type: application/pkixcmp\r\nContent-Length: \r\n\r\nhello",
        written: REFUSED_400,
        cause: EndCause::Rejected(400),
        answered: 0,
    },
    // a length that is no number: 12345678901
    Row {
        stream: b"POST /.well-known/cmp HTTP/1.1\r\nContent-Type: application/pkixcmp\r\nContent-Length: 12345678901\r\n\r\nhello",
        written: REFUSED_400,
        cause: EndCause::Rejected(400),
        answered: 0,
    },
    // a length that is no number: 5 5
    Row {
        stream: b"POST /.well-known/cmp HTTP/1.1\r\nContent-Type: application/pkixcmp\r\nContent-Length: 5 5\r\n\r\nhello",
        written: REFUSED_400,
        cause: EndCause::Rejected(400),
        answered: 0,
    },
    // a length that is no number: -1
    Row {
        stream: b"POST /.well-known/cmp HTTP/1.1\r\nContent-Type: application/pkixcmp\r\nContent-Length: -1\r\n\r\nhello",
        written: REFUSED_400,
        cause: EndCause::Rejected(400),
        answered: 0,
    },
    // a body one octet too large
    Row {
        stream: b"POST /.well-known/cmp HTTP/1.1\r\nContent-Type: application/pkixcmp\r\nContent-Length: 131073\r\n\r\nx",
        written: REFUSED_413,
        cause: EndCause::Rejected(413),
        answered: 0,
    },
    // no type
    Row {
        stream: b"POST /.well-known/cmp HTTP/1.1\r\nContent-Length: 1\r\n\r\nx",
        written: REFUSED_415,
        cause: EndCause::Rejected(415),
        answered: 0,
    },
    // another type
    Row {
        stream: b"POST /.well-known/cmp HTTP/1.1\r\nContent-Type: text/plain\r\nContent-Length: 1\r\n\r\nx",
        written: REFUSED_415,
        cause: EndCause::Rejected(415),
        answered: 0,
    },
    // a blank before the semicolon
    Row {
        stream: b"POST /.well-known/cmp HTTP/1.1\r\nContent-Type: application/pkixcmp ;q=1\r\nContent-Length: 1\r\n\r\nx",
        written: REFUSED_415,
        cause: EndCause::Rejected(415),
        answered: 0,
    },
    // a folded line
    Row {
        stream: b"POST /.well-known/cmp HTTP/1.1\r\nContent-Type: application/pkixcmp\r\nX: a\r\n b\r\nContent-Length: 1\r\n\r\nx",
        written: REFUSED_400,
        cause: EndCause::Rejected(400),
        answered: 0,
    },
    // a blank before the colon
    Row {
        stream: b"POST /.well-known/cmp HTTP/1.1\r\nContent-Type: application/pkixcmp\r\nContent-Length : 1\r\n\r\nx",
        written: REFUSED_400,
        cause: EndCause::Rejected(400),
        answered: 0,
    },
    // a NUL in a value
    Row {
        stream: b"POST /.well-known/cmp HTTP/1.1\r\nContent-Type: application/pkixcmp\r\nX: a\0b\r\nContent-Length: 1\r\n\r\nx",
        written: REFUSED_400,
        cause: EndCause::Rejected(400),
        answered: 0,
    },
    // CR alone
    Row {
        stream: b"POST /.well-known/cmp HTTP/1.1\r\nContent-Type: application/pkixcmp\r\nX: a\rb\r\nContent-Length: 1\r\n\r\nx",
        written: REFUSED_400,
        cause: EndCause::Rejected(400),
        answered: 0,
    },
    // HTTP/2.0
    Row {
        stream: b"POST /.well-known/cmp HTTP/2.0\r\nContent-Type: application/pkixcmp\r\nContent-Length: 1\r\n\r\nx",
        written: REFUSED_400,
        cause: EndCause::Rejected(400),
        answered: 0,
    },
    // a target that is no UTF-8
    Row {
        stream: b"POST /.well-known/cmp\xff HTTP/1.1\r\nContent-Type: application/pkixcmp\r\nContent-Length: 1\r\n\r\nx",
        written: REFUSED_400,
        cause: EndCause::Rejected(400),
        answered: 0,
    },
    // the end in a head
    Row {
        stream: b"POST /.well-known/cmp HTT",
        written: REFUSED_400,
        cause: EndCause::Rejected(400),
        answered: 0,
    },
    // the end in a body
    Row {
        stream: b"POST /.well-known/cmp HTTP/1.1\r\nContent-Type: application/pkixcmp\r\nContent-Length: 4\r\n\r\none",
        written: REFUSED_400,
        cause: EndCause::Rejected(400),
        answered: 0,
    },
    // a request, and then a refusal
    Row {
        stream: b"POST /.well-known/cmp HTTP/1.1\r\nContent-Type: application/pkixcmp\r\nContent-Length: 3\r\n\r\noneGET /.well-known/cmp HTTP/1.1\r\n\r\nPOST /.well-known/cmp HTTP/1.1\r\nContent-Type: application/pkixcmp\r\nContent-Length: 6\r\n\r\nsecond",
        written: b"HTTP/1.1 200 OK\r\nContent-Type: application/pkixcmp\r\nContent-Length: 3\r\n\r\noneHTTP/1.1 405 Method Not Allowed\r\nAllow: POST\r\nContent-Length: 0\r\nConnection: close\r\n\r\n",
        cause: EndCause::Rejected(405),
        answered: 1,
    },
];

// How many octets come and go at once.
const PIECES: &[usize] = &[1, 2, 4095, 1_000_000];

// Whether the stream is served as is told.
fn is_served(alloc: Global, row: &Row, most: usize) -> Result<bool, AllocError> {
    let mut link = Cut::new(MemLink::new(row.stream.to_vec(alloc)?), most);
    let mut echo = Echo::new(After::Echoes);
    let end = serve_http(alloc, &mut echo, &mut link);
    Ok(end.cause == row.cause && link.link.written() == row.written && echo.asked == row.answered)
}

#[test]
fn streams_are_served_in_any_pieces(rt: HostRuntime) -> Result<(), Fail> {
    for row in ROWS {
        for most in PIECES {
            assert!(rt; is_served(rt.alloc(), row, *most)?);
        }
    }
    Ok(())
}
