//! A session over a stream, by a front.
ghost use Rattle.std.specs.Prelude.{◌≡◌, ◌≤◌, true};
ghost use Rattle.std.specs.Io.KnownBytes.{Keeps};
ghost use Rattle.cmp_links.specs.Ends.{is_link_fault};
ghost use Rattle.cmp_ports.specs.Faults.{Rose};
ghost use Rattle.http_heads.specs.Comings.{input};
ghost use Rattle.http_wire.specs.Sessions.{is_orderly};
ghost use Rattle.sessions.specs.Links.{IsLinkServed, parts_of};

use cmp_links::{Link, SessionEnd};
use cmp_ports::{Clock, Entropy, Gate};
use deal_table::{what_is_left_decides, what_is_settled_stays};
use desk::Clerk;
use front::Front;
use http_wire::serve_http;
use std::alloc::Global;

/// Serves the messages of a stream, each answered in its turn by the front, to the end of the session (RFC 9811, 3).
pub fn serve_link<K: Clerk, L: Link, C: Clock, E: Entropy, G: Gate>(
    alloc: Global,
    front: &mut Front<'_, K, C, E, G>,
    link: &mut L,
) -> SessionEnd
    ensures served { IsLinkServed K.Clerk C.Clock E.Entropy (parts_of front.old) (parts_of front.new) (L.left link.old) (L.written link.old) (L.written link.new) (L.faults link.old) (L.faults link.new) result }
    ensures input { Keeps (input (L.gave link.old) (L.left link.old)) (input (L.gave link.new) (L.left link.new)) }
    ensures later { L.faults link.old ≤ L.faults link.new }
    ensures kept { is_orderly result.cause ≡ true → L.faults link.new ≡ L.faults link.old }
    ensures link_fault { is_link_fault result.cause ≡ true → Rose (L.faults link.old) (L.faults link.new) }
{
    what_is_settled_stays();
    what_is_left_decides();
    serve_http(alloc, front, link)
}
