//! One request and its reply.
ghost use Rattle.std.specs.Prelude.{◌≡◌, ◌≤◌, ◌<◌, IsErrOf, length};
ghost use Rattle.std.specs.Io.KnownBytes.{Keeps};
ghost use Rattle.cmp_ports.specs.Faults.{Rose};
ghost use Rattle.http_wire.specs.Steps.{IsAnswer, IsExchange, IsFramed, moment};

use crate::frame::frame_reply;
use crate::send::{excuse, send};
use cmp_links::{EndCause, Link, Notes};
use cmp_ports::{Answered, Answerer, Note, Outcome};
use cmp_values::Octets;
use std::alloc::Global;

/// OK (RFC 9110, 15.3.1).
const OK: u16 = 200;
/// What keeps the place of a note until there is one.
const PENDING: Note = Note {
    place: 0,
    time: 0,
    words: [0; 32],
    outcome: Outcome::SystemFailure,
};

/// The buffers of a session, kept from one request to the next.
#[derive(Debug, Drop)]
pub struct Room {
    reply: Octets,
    pub text: Octets,
}

impl Room {
    /// With nothing in them. Takes no memory.
    pub fn empty(alloc: Global) -> Room {
        Room {
            reply: Octets::empty(alloc),
            text: Octets::empty(alloc),
        }
    }
}

/// Answers a request and writes its reply in one piece, or tells the peer that there is none. An error is why the session ends.
pub fn exchange<A: Answerer, L: Link>(
    to: &mut A,
    link: &mut L,
    request: &[u8],
    last: bool,
    room: &mut Room,
    notes: &mut Notes,
) -> Result<(), EndCause>
    ensures exchange { IsExchange A.answers (moment to.old (L.left link.old) (L.written link.old) (L.faults link.old) notes.old) (moment to.new (L.left link.new) (L.written link.new) (L.faults link.new) notes.new) request.now last result }
    ensures left { Keeps (L.left link.old) (L.left link.new) }
    ensures gave { Keeps (L.gave link.old) (L.gave link.new) }
    ensures later { L.faults link.old ≤ L.faults link.new }
    ensures answerer { A.faults to.old ≤ A.faults to.new }
    ensures unanswered { IsErrOf result EndCause.Unanswered → Rose (A.faults to.old) (A.faults to.new) }
{
    match answer(to, request, last, room, notes) {
        Ok(()) => match send(link, room.text.as_slice()) {
            Ok(()) => Ok(()),
            Err(_) => Err(EndCause::WriteFault),
        },
        Err(cause) => {
            excuse(link);
            Err(cause)
        }
    }
}

// Answers a request, notes it and frames its reply. The note has its place before the call, so that what was replied is noted.
fn answer<A: Answerer>(
    to: &mut A,
    request: &[u8],
    last: bool,
    room: &mut Room,
    notes: &mut Notes,
) -> Result<(), EndCause>
    ensures answer { IsAnswer A.answers to.old to.new request.now last notes.old notes.new room.new.text result }
    ensures answerer { A.faults to.old ≤ A.faults to.new }
    ensures unanswered { IsErrOf result EndCause.Unanswered → Rose (A.faults to.old) (A.faults to.new) }
{
    if notes.push(PENDING).is_err() {
        return Err(EndCause::NoMemory);
    }
    match to.answer(request, &mut room.reply) {
        Answered::Replied(note) => framed(note, last, room, notes),
        Answered::Failed => {
            notes.pop();
            Err(EndCause::Unanswered)
        }
        Answered::NoMemory => {
            notes.pop();
            Err(EndCause::NoMemory)
        }
    }
}

// Frames the reply and sets its note in the last place; where memory runs out, the place goes.
fn framed(note: Note, last: bool, room: &mut Room, notes: &mut Notes) -> Result<(), EndCause>
    requires { 0 < length notes.old }
    ensures { IsFramed room.old.reply last note notes.old notes.new room.new.text result }
{
    room.text.clear();
    match frame_reply(OK, room.reply.as_slice(), last, &mut room.text) {
        Ok(()) => {
            notes.set_last(note);
            Ok(())
        }
        Err(_) => {
            notes.pop();
            Err(EndCause::NoMemory)
        }
    }
}
