//! One step of a session.
ghost use Rattle.std.specs.Prelude.{◌≡◌, ◌≤◌, Some};
ghost use Rattle.std.specs.Io.KnownBytes.{Keeps, prepend_known};
ghost use Rattle.cmp_ports.specs.Faults.{Rose};
ghost use Rattle.http_heads.specs.Comings.{input};
ghost use Rattle.http_heads.specs.Requests.{ending_after};
ghost use Rattle.http_wire.specs.Steps.{IsStep, IsTurned, moment};

use crate::exchange::{Room, exchange};
use crate::frame::frame;
use crate::send::{excuse, send};
use cmp_links::{EndCause, Link, Notes};
use cmp_ports::Answerer;
use cmp_values::Octets;
use http_heads::{Next, next_request};
use std::alloc::Global;

/// How many requests a session has at most.
const REQUEST_LIMIT: u32 = 1000;

/// A session between two requests.
#[derive(Debug, Drop)]
pub struct Session {
    /// What was read and belongs to no request yet.
    pub buffer: Octets,
    pub room: Room,
    pub notes: Notes,
}

/// Takes the next request, of this number, and answers it. `None` where the session goes on, else why it ends.
pub fn step<A: Answerer, L: Link>(
    alloc: Global,
    to: &mut A,
    link: &mut L,
    number: u32,
    session: &mut Session,
) -> Option<EndCause>
    ensures step { IsStep A.answers number (moment to.old (prepend_known session.old.buffer (L.left link.old)) (L.written link.old) (L.faults link.old) session.old.notes) (moment to.new (prepend_known session.new.buffer (L.left link.new)) (L.written link.new) (L.faults link.new) session.new.notes) result }
    ensures input { Keeps (input (L.gave link.old) (L.left link.old)) (input (L.gave link.new) (L.left link.new)) }
    ensures later { L.faults link.old ≤ L.faults link.new }
    ensures answerer { A.faults to.old ≤ A.faults to.new }
    ensures unanswered { result ≡ Some EndCause.Unanswered → Rose (A.faults to.old) (A.faults to.new) }
{
    match next_request(alloc, link, &mut session.buffer) {
        Next::Request(body, asks) => {
            let ending = ending_after(number, asks);
            let last = ending.is_some();
            match exchange(
                to,
                link,
                body.as_slice(),
                last,
                &mut session.room,
                &mut session.notes,
            ) {
                Ok(()) => ending,
                Err(cause) => Some(cause),
            }
        }
        Next::Ended => Some(EndCause::Closed),
        Next::Reject(status) => Some(turn_away(link, status, &mut session.room.text)),
        Next::ReadFault => Some(EndCause::ReadFault),
        Next::NoMemory => {
            excuse(link);
            Some(EndCause::NoMemory)
        }
    }
}

// How the session ends after a request of this number, where it does.
fn ending_after(number: u32, asks: bool) -> Option<EndCause>
    ensures { result ≡ ending_after number asks }
{
    if asks {
        Some(EndCause::Asked)
    } else if number == REQUEST_LIMIT {
        Some(EndCause::Limit)
    } else {
        None
    }
}

// Writes a refusal with this status, and says how the session ends by it.
fn turn_away<L: Link>(link: &mut L, status: u16, text: &mut Octets) -> EndCause
    ensures turned { IsTurned status (L.written link.old) (L.written link.new) (L.faults link.old) (L.faults link.new) result }
    ensures left { Keeps (L.left link.old) (L.left link.new) }
    ensures gave { Keeps (L.gave link.old) (L.gave link.new) }
    ensures later { L.faults link.old ≤ L.faults link.new }
{
    text.clear();
    if frame(status, b"", true, text).is_err() {
        excuse(link);
        return EndCause::NoMemory;
    }
    match send(link, text.as_slice()) {
        Ok(()) => EndCause::Rejected(status),
        Err(_) => EndCause::WriteFault,
    }
}
