//! A door in memory.
ghost use Rattle.std.specs.Prelude.{◌≡◌, ◌<◌, true, All, [], ◌∷◌, IsErr, IsTrue, IfOk, IfSome, MatchOption, MatchResult, Some};
ghost use Rattle.cmp_links.specs.Ends.{is_link_fault};
ghost use Rattle.cmp_links.specs.Links.{IsUntouched, Stays, Adds};
ghost use Rattle.cmp_links.specs.MemLink.{IsFresh};

use crate::calls::Calls;
use crate::door::Door;
use crate::end::{EndCause, SessionEnd};
use crate::link::Link;
use crate::mem_link::MemLink;
use crate::notes::Notes;
use cmp_ports::Failed;
use std::alloc::{AllocError, Global};
use std::marker::Model;

/// A stream that was taken back, the end of the session over it, and those that were taken back before.
#[derive(Drop)]
pub struct Finished {
    link: MemLink,
    end: SessionEnd,
    before: Option<Box<Finished>>,
}

impl Finished {
    ghost use Rattle.cmp_links.specs.MemDoor.{link_of, end_of, before_of, finished_from};

    /// The stream.
    pub fn link(&self) -> &MemLink
        ensures { result.now ≡ link_of self.now }
    {
        &self.link
    }

    /// How the session over it ended.
    pub fn end(&self) -> &SessionEnd
        ensures { result.now ≡ end_of self.now }
    {
        &self.end
    }

    /// The stream that was taken back before this one.
    pub fn before(&self) -> Option<&Finished>
        ensures { MatchOption result (before_of self.now ≡ []) (λ f. before_of self.now ≡ finished_from f.now) }
    {
        self.before.as_deref()
    }
}

/// A stream that a door in memory has accepted, with the room in which the door notes its end. Contracts see it as the stream.
#[derive(Drop)]
pub struct Accepted {
    room: Box<Finished>,
}

impl Model for Accepted {
    ghost use Rattle.cmp_links.specs.declared.mem_link.MemLink.{MemLink};
    ghost use Rattle.cmp_links.specs.MemDoor.{link_of};

    ghost Value = { MemLink };

    ghost view = { λ a. link_of a.room.value };
}

impl Accepted {
    // The stream, with room for its end.
    fn of(alloc: Global, link: MemLink) -> Result<Accepted, AllocError>
        ensures { IfOk result (λ a. a ≡ link) }
    {
        let end = SessionEnd {
            notes: Notes::empty(alloc),
            cause: EndCause::Closed,
        };
        let room = Box::new(
            alloc,
            Finished {
                link,
                end,
                before: None,
            },
        )?;
        Ok(Accepted { room })
    }

    /// The stream.
    pub fn link(&self) -> &MemLink
        ensures { result.now ≡ self.now }
    {
        &self.room.link
    }
}

impl Link for Accepted {
    ghost use Rattle.std.specs.Prelude.{length};
    ghost use Rattle.cmp_links.specs.MemLink.{left_of, gave_of, written_of, faults_of};

    ghost left = { λ l. Some (left_of l) };

    ghost gave = { λ l. Some (gave_of l) };

    ghost written = { λ l. Some (written_of l) };

    ghost faults = { λ l. faults_of l };

    fn read(&mut self, into: &mut [u8]) -> Result<usize, Failed> {
        self.room.link.read(into)
    }

    fn write(&mut self, bytes: &[u8]) -> Result<usize, Failed> {
        self.room.link.write(bytes)
    }
}

/// Links in memory, accepted from the front to the end. A call of `accept` fails where its number is listed, the numbers counting these
/// calls from 1, where no link is left, and where the memory for the link's end is refused; it then accepts none.
#[derive(Drop)]
pub struct MemDoor {
    links: Vec<MemLink>,
    last: Option<Box<Finished>>,
    accepted: u64,
    ended: u64,
    calls: Calls,
    ghost fresh: { All IsFresh links.items },
}

impl MemDoor {
    ghost use Rattle.cmp_links.specs.MemDoor.{links_of, finished_of, door_faults, door_fails, door_calls, finished_from};

    /// These links, and no call fails before they are used up.
    pub fn new(links: Vec<MemLink>) -> MemDoor
        requires { All IsFresh links.items }
        ensures links { links_of result ≡ links.items }
        ensures finished { finished_of result ≡ [] }
        ensures accepted { result.accepted ≡ 0 }
        ensures ended { result.ended ≡ 0 }
        ensures faults { door_faults result ≡ 0 }
        ensures fails { door_fails result ≡ [] }
        ensures calls { door_calls result ≡ 0 }
    {
        MemDoor {
            links,
            last: None,
            accepted: 0,
            ended: 0,
            calls: Calls::none(),
        }
    }

    /// These links, and the calls of `accept` with these numbers fail, counted from 1.
    pub fn failing(links: Vec<MemLink>, fails: Vec<u64>) -> MemDoor
        requires { All IsFresh links.items }
        ensures links { links_of result ≡ links.items }
        ensures finished { finished_of result ≡ [] }
        ensures accepted { result.accepted ≡ 0 }
        ensures ended { result.ended ≡ 0 }
        ensures faults { door_faults result ≡ 0 }
        ensures fails { door_fails result ≡ fails.items }
        ensures calls { door_calls result ≡ 0 }
    {
        MemDoor {
            links,
            last: None,
            accepted: 0,
            ended: 0,
            calls: Calls::of(fails),
        }
    }

    /// The stream that was taken back last, from which those before it are found.
    pub fn last(&self) -> Option<&Finished>
        ensures { MatchOption result (finished_of self.now ≡ []) (λ f. finished_of self.now ≡ finished_from f.now) }
    {
        self.last.as_deref()
    }

    /// How many calls failed.
    pub fn faults(&self) -> u64
        ensures { result ≡ door_faults self.now }
    {
        self.calls.faults()
    }
}

// The first of the links, with room for its end; nothing where there is none, or no memory.
fn take_first(links: &mut Vec<MemLink>) -> Option<Accepted>
    requires { All IsFresh links.old.items }
    ensures first { MatchOption result (links.new.items ≡ links.old.items) (λ l. links.old.items ≡ l ∷ links.new.items) }
    ensures fresh { IfSome result IsFresh }
    ensures others { All IsFresh links.new.items }
{
    if links.is_empty() {
        return None;
    }
    let alloc = *links.allocator();
    let mut accepted = Accepted::of(alloc, MemLink::new(Vec::new(alloc))).ok()?;
    accepted.room.link = links.remove(0);
    Some(accepted)
}

impl Door for MemDoor {
    ghost use Rattle.cmp_links.specs.MemLink.{faults_of, gave_of, written_of};
    ghost use Rattle.cmp_links.specs.MemDoor.{links_of, finished_of, door_accepted, door_ended, door_faults, door_fails, door_calls, is_door_due};
    ghost use Rattle.cmp_ports.specs.Faults.{CountedOnce, HasCause, counted};

    type Joined = Accepted;

    ghost accepted = { door_accepted };

    ghost ended = { door_ended };

    ghost faults = { door_faults };

    ghost finished = { λ d. Some (finished_of d) };

    /// Accepts the first of the links that are left.
    fn accept(&mut self) -> Result<Accepted, Failed>
        ensures accepted { MatchResult result (λ _. door_accepted self.new ≡ counted (door_accepted self.old)) (λ _. door_accepted self.new ≡ door_accepted self.old) }
        ensures fresh { IfOk result (λ l. IsUntouched (faults_of l) (Some (gave_of l)) (Some (written_of l))) }
        ensures ended { door_ended self.new ≡ door_ended self.old }
        ensures finished { Stays (Some (finished_of self.old)) (Some (finished_of self.new)) }
        ensures cause { HasCause (door_faults self.old) (door_faults self.new) result }
        ensures once { CountedOnce (door_faults self.old) (door_faults self.new) result }
        ensures fails { IsTrue (is_door_due self.old) → IsErr result }
        ensures listed { door_fails self.new ≡ door_fails self.old }
        ensures calls { door_calls self.new ≡ counted (door_calls self.old) }
        ensures first { MatchResult result (λ l. links_of self.old ≡ l ∷ links_of self.new) (λ _. links_of self.new ≡ links_of self.old) }
    {
        self.calls.call()?;
        match take_first(&mut self.links) {
            Some(link) => {
                self.accepted = self.accepted.saturating_add(1);
                Ok(link)
            }
            None => Err(self.calls.fault()),
        }
    }

    fn finish(&mut self, link: Accepted, end: SessionEnd)
        requires { is_link_fault end.cause ≡ true → 0 < faults_of link }
        ensures ended { door_ended self.new ≡ counted (door_ended self.old) }
        ensures finished { Adds (Some (finished_of self.old)) (Some (finished_of self.new)) (link, end) }
        ensures accepted { door_accepted self.new ≡ door_accepted self.old }
        ensures faults { door_faults self.new ≡ door_faults self.old }
        ensures listed { door_fails self.new ≡ door_fails self.old }
        ensures calls { door_calls self.new ≡ door_calls self.old }
        ensures links { links_of self.new ≡ links_of self.old }
    {
        let mut room = link.room;
        room.end = end;
        room.before = self.last.take();
        self.last = Some(room);
        self.ended = self.ended.saturating_add(1);
    }
}
