//! The next requests of streams in memory, with ample memory.

use crate::{Next, next_request};
use cmp_links::MemLink;
use cmp_values::Octets;
use std::alloc::{AllocError, Global};
use std::test::Fail;

// A request whose body is cut in no read, another one that asks for the end, and a third whose path isn't served.
const THREE: &[u8] =
    b"POST /.well-known/cmp HTTP/1.1\r\nContent-Type: application/pkixcmp\r\nContent-Length: 3\r\n\r\nonePOST /.well-known/cmp/p/x HTTP/1.0\nContent-type:Application/PKIXCMP; q=1\nContent-Length: 0000000003\n\ntwoPOST /.well-known/cmpx HTTP/1.1\r\n\r\n";

// Streams whose first request is turned away, each with its status (RFC 9110, 15.5).
const REFUSED: &[(&[u8], u16)] = &[
    (b"GET /.well-known/cmp HTTP/1.1\r\n\r\n", 405),
    (b"GET /other HTTP/1.1\r\n\r\n", 404),
    (b"POST /.well-known/cmp HTTP/1.1\r\n\r\n", 411),
    (
        b"POST /.well-known/cmp HTTP/1.1\r\nTransfer-Encoding: identity\r\nContent-Length: 1\r\n\r\nx",
        411,
    ),
    (
        b"POST /.well-known/cmp HTTP/1.1\r\nContent-Length: 1\r\nContent-Length: 1\r\n\r\nx",
        400,
    ),
    (
        b"POST /.well-known/cmp HTTP/1.1\r\nContent-Length: +5\r\n\r\nxxxxx",
        400,
    ),
    (
        b"POST /.well-known/cmp HTTP/1.1\r\nContent-Length: 131073\r\n\r\n",
        413,
    ),
    (
        b"POST /.well-known/cmp HTTP/1.1\r\nContent-Length: 1\r\nContent-Type: text/plain\r\n\r\nx",
        415,
    ),
    (
        b"POST /.well-known/cmp HTTP/1.1\r\nContent-Length: 2\r\nContent-Type: application/pkixcmp\r\n\r\nx",
        400,
    ),
    (b"POST /.well-known/cmp HTTP/2.0\r\n\r\n", 400),
    (b"POST", 400),
];

// Whether the request has this body, and asks for the end as is told.
fn has_body(next: &Next, body: &[u8], asks: bool) -> bool {
    match next {
        Next::Request(octets, end) => octets.as_slice() == body && *end == asks,
        _ => false,
    }
}

// Whether the first request of the stream is turned away with this status.
fn is_refused(alloc: Global, stream: &[u8], status: u16) -> Result<bool, AllocError> {
    let mut link = MemLink::new(stream.to_vec(alloc)?);
    let mut buffer = Octets::empty(alloc);
    Ok(matches!(next_request(alloc, &mut link, &mut buffer), Next::Reject(told) if told == status))
}

#[test]
fn requests_are_read_one_by_one(rt: HostRuntime) -> Result<(), Fail> {
    let alloc = rt.alloc();
    let mut link = MemLink::new(THREE.to_vec(alloc)?);
    let mut buffer = Octets::empty(alloc);
    assert!(rt; has_body(&next_request(alloc, &mut link, &mut buffer), b"one", false));
    assert!(rt; has_body(&next_request(alloc, &mut link, &mut buffer), b"two", true));
    assert!(rt;
        matches!(
            next_request(alloc, &mut link, &mut buffer),
            Next::Reject(404)
        )
    );
    Ok(())
}

#[test]
fn each_refusal_has_its_status(rt: HostRuntime) -> Result<(), Fail> {
    for (stream, status) in REFUSED {
        assert!(rt; is_refused(rt.alloc(), stream, *status)?);
    }
    Ok(())
}

#[test]
fn a_stream_ends_and_a_read_fails(rt: HostRuntime) -> Result<(), Fail> {
    let alloc = rt.alloc();
    let mut link = MemLink::failing(Vec::new(alloc), vec![in alloc; 1]?);
    let mut buffer = Octets::empty(alloc);
    assert!(rt; matches!(next_request(alloc, &mut link, &mut buffer), Next::ReadFault));
    assert!(rt; matches!(next_request(alloc, &mut link, &mut buffer), Next::Ended));
    Ok(())
}
