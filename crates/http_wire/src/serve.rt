//! A session over HTTP.
ghost use Rattle.std.specs.Prelude.{◌≡◌, ◌≤◌, true};
ghost use Rattle.std.specs.Io.KnownBytes.{Keeps};
ghost use Rattle.cmp_links.specs.Ends.{is_link_fault};
ghost use Rattle.cmp_ports.specs.Faults.{Rose};
ghost use Rattle.http_heads.specs.Comings.{input};
ghost use Rattle.http_wire.specs.Sessions.{IsServed, is_orderly};

use crate::exchange::Room;
use crate::step::{Session, step};
use cmp_links::{EndCause, Link, Notes, SessionEnd};
use cmp_ports::Answerer;
use cmp_values::Octets;
use std::alloc::Global;

/// Serves a session over HTTP to its end: reads the requests of the stream one by one, has each answered once and in its turn, and writes
/// its reply before the next is read (RFC 9112, 9.3; RFC 9811, 3). The session ends where the stream ends between two requests, after a
/// request that asks for it, after 1,000 requests, at what is refused, or where a call fails. What is no reply is told by a refusal with
/// its status (RFC 9110, 15.5), or by 503 where the answerer failed or memory ran out.
pub fn serve_http<A: Answerer, L: Link>(alloc: Global, to: &mut A, link: &mut L) -> SessionEnd
    ensures served { IsServed A.answers to.old to.new (L.left link.old) (L.written link.old) (L.written link.new) (L.faults link.old) (L.faults link.new) result }
    ensures input { Keeps (input (L.gave link.old) (L.left link.old)) (input (L.gave link.new) (L.left link.new)) }
    ensures later { L.faults link.old ≤ L.faults link.new }
    ensures answerer { A.faults to.old ≤ A.faults to.new }
    ensures kept { is_orderly result.cause ≡ true → L.faults link.new ≡ L.faults link.old }
    ensures link_fault { is_link_fault result.cause ≡ true → Rose (L.faults link.old) (L.faults link.new) }
    ensures unanswered { result.cause ≡ EndCause.Unanswered → Rose (A.faults to.old) (A.faults to.new) }
{
    let mut session = Session {
        buffer: Octets::empty(alloc),
        room: Room::empty(alloc),
        notes: Notes::empty(alloc),
    };
    let mut number = 1;
    loop {
        if let Some(cause) = step(alloc, to, link, number, &mut session) {
            return SessionEnd {
                notes: session.notes,
                cause,
            };
        }
        number += 1;
    }
}
