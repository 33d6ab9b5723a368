//! Serving the streams of a door.
ghost use Rattle.std.specs.Prelude.{◌≡◌, ◌≤◌, List, length, true, false};
ghost use Rattle.cmp_ports.specs.Faults.{Rose};
ghost use Rattle.sessions.specs.Links.{parts_of};
ghost use Rattle.workers.specs.Doors.{IsDoorServed, Served};
ghost use Rattle.workers.specs.Tallies.{is_want_of_memory};

use crate::tally::Tally;
use cmp_links::{Door, EndCause};
use cmp_ports::{Clock, Entropy, Gate};
use desk::Clerk;
use front::Front;
use sessions::serve_link;
use std::alloc::Global;

/// Whether memory ran out.
fn is_want_of_memory(cause: EndCause) -> bool
    ensures { result ≡ is_want_of_memory cause }
{
    matches!(cause, EndCause::NoMemory)
}

/// Serves the next stream of a door, and hands it back with the end of its session; or none, where the door fails.
fn serve_next<K: Clerk, S: Door, C: Clock, E: Entropy, G: Gate>(
    alloc: Global,
    front: &mut Front<'_, K, C, E, G>,
    door: &mut S,
) -> Tally
    ensures served { (streams : List (Served S.Joined)) × IsDoorServed S.Joined.Link S.Door K.Clerk C.Clock E.Entropy (parts_of front.old) (parts_of front.new) door.old door.new streams result × (length streams ≤ 1) × (result.door ≡ false → length streams ≡ 1) }
    ensures door { result.door ≡ true → Rose (S.faults door.old) (S.faults door.new) }
{
    let Ok(mut link) = door.accept() else {
        return Tally {
            door: true,
            memory: false,
            failures: 0,
        };
    };
    let end = serve_link(alloc, front, &mut link);
    let tally = Tally {
        door: false,
        memory: is_want_of_memory(end.cause),
        failures: end.notes.failures() as u64,
    };
    door.finish(link, end);
    tally
}

/// Serves so many streams of a door, one after the other, and hands each back with the end of its session. Where the door fails, no
/// more are served.
pub(crate) fn serve_door<K: Clerk, S: Door, C: Clock, E: Entropy, G: Gate>(
    alloc: Global,
    front: &mut Front<'_, K, C, E, G>,
    door: &mut S,
    count: u32,
) -> Tally
    ensures served { (streams : List (Served S.Joined)) × IsDoorServed S.Joined.Link S.Door K.Clerk C.Clock E.Entropy (parts_of front.old) (parts_of front.new) door.old door.new streams result × (length streams ≤ count) × (result.door ≡ false → length streams ≡ count) }
    ensures door { result.door ≡ true → Rose (S.faults door.old) (S.faults door.new) }
{
    let mut tally = Tally::nothing();
    for _ in 0..count {
        tally = tally.followed_by(serve_next(alloc, front, door));
        if tally.door {
            return tally;
        }
    }
    tally
}
