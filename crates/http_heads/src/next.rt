//! The next request of a stream.
ghost use Rattle.std.specs.Prelude.{◌≡◌, ◌≢◌, ◌≤◌, IfSome, length};
ghost use Rattle.std.specs.Io.KnownBytes.{Keeps, prepend_known};
ghost use Rattle.cmp_ports.specs.Faults.{Rose};
ghost use Rattle.http_heads.specs.Comings.{input};
ghost use Rattle.http_heads.specs.Looks.{IsServedHead};
ghost use Rattle.http_heads.specs.Nexts.{IsNext, IsTaken};

use crate::look::Asked;
use crate::read::{Came, read_head, read_until};
use crate::rows::BAD_REQUEST;
use cmp_links::Link;
use cmp_ports::ReadError;
use cmp_values::Octets;
use std::alloc::Global;

/// What comes next from a stream.
#[derive(Debug, Drop)]
pub enum Next {
    /// A request that is served: its body, and whether it asks for the end of the session.
    Request(Octets, bool),
    /// The stream ended between two requests.
    Ended,
    /// No request that is served: the status that it is turned away with (RFC 9110, 15.5).
    Reject(u16),
    /// A read of the stream failed.
    ReadFault,
    /// Memory ran out.
    NoMemory,
}

/// Takes the next request from the front of `buffer` and `link`, of which the first holds what was read and belongs to no request yet
/// (RFC 9112, 9.3). A head has at most 8,192 octets and 32 fields, a body at most 131,072 octets. What was written to the link stays.
pub fn next_request<L: Link>(alloc: Global, link: &mut L, buffer: &mut Octets) -> Next
    ensures next { IfSome (prepend_known buffer.old (L.left link.old)) (λ all. IsNext all (prepend_known buffer.new (L.left link.new)) result) }
    ensures input { Keeps (input (L.gave link.old) (L.left link.old)) (input (L.gave link.new) (L.left link.new)) }
    ensures written { Keeps (L.written link.old) (L.written link.new) }
    ensures later { L.faults link.old ≤ L.faults link.new }
    ensures kept { result ≢ Next.ReadFault → L.faults link.new ≡ L.faults link.old }
    ensures fault { result ≡ Next.ReadFault → Rose (L.faults link.old) (L.faults link.new) }
{
    match read_head(link, buffer) {
        Ok(Came::Head(asked)) => next_body(alloc, link, buffer, asked),
        Ok(Came::Turned(status)) => Next::Reject(status),
        Ok(Came::Nothing) => Next::Ended,
        Err(ReadError::Fault) => Next::ReadFault,
        Err(ReadError::NoMemory) => Next::NoMemory,
    }
}

// The request whose head is at the front of the buffer.
fn next_body<L: Link>(alloc: Global, link: &mut L, buffer: &mut Octets, asked: Asked) -> Next
    requires { IsServedHead buffer.old asked }
    ensures next { IfSome (prepend_known buffer.old (L.left link.old)) (λ all. IsNext all (prepend_known buffer.new (L.left link.new)) result) }
    ensures input { Keeps (input (L.gave link.old) (L.left link.old)) (input (L.gave link.new) (L.left link.new)) }
    ensures written { Keeps (L.written link.old) (L.written link.new) }
    ensures later { L.faults link.old ≤ L.faults link.new }
    ensures kept { result ≢ Next.ReadFault → L.faults link.new ≡ L.faults link.old }
    ensures fault { result ≡ Next.ReadFault → Rose (L.faults link.old) (L.faults link.new) }
{
    buffer.drop_first(asked.head);
    match read_until(link, buffer, asked.body) {
        Ok(true) => take_body(alloc, buffer, asked),
        Ok(false) => Next::Reject(BAD_REQUEST),
        Err(ReadError::Fault) => Next::ReadFault,
        Err(ReadError::NoMemory) => Next::NoMemory,
    }
}

// The body, taken from the front of the buffer.
fn take_body(alloc: Global, buffer: &mut Octets, asked: Asked) -> Next
    requires { asked.body ≤ length buffer.old }
    ensures { IsTaken buffer.old buffer.new asked result }
{
    let front = &buffer.as_slice()[..asked.body];
    let Ok(body) = Octets::copy_of(alloc, front) else {
        return Next::NoMemory;
    };
    buffer.drop_first(asked.body);
    Next::Request(body, asked.asks)
}
