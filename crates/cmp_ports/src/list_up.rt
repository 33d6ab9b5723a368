//! An upstream in memory.
ghost use Rattle.std.specs.Prelude.{◌≡◌, [], ◌∷◌, ◌++◌, length, is_ok, if◌then◌else◌};

use crate::note::{Answered, Answerer, Note, Outcome};
use crate::schedule::Schedule;
use cmp_values::Octets;
use std::alloc::{AllocError, Global};

/// What is noted of an answer of the list.
const BLANK: Note = Note {
    place: 0,
    time: 0,
    words: [0; 32],
    outcome: Outcome::Done,
};

/// Replies of a list, from the front to the end, with a record of what was asked. A request isn't answered where its call's number is
/// listed, where the list is used up, and where memory for the record is refused; it then takes no reply and isn't on the record.
#[derive(Drop)]
pub struct ListUp {
    replies: Vec<Octets>,
    asked: Vec<Octets>,
    schedule: Schedule,
}

impl ListUp {
    ghost use Rattle.cmp_ports.specs.ListUp.{replies_of, asked_of, up_faults, up_listed, up_calls};

    /// These replies, and no call fails before they are used up.
    pub fn new(alloc: Global, replies: Vec<Octets>) -> ListUp
        ensures replies { replies_of result ≡ replies.items }
        ensures asked { asked_of result ≡ [] }
        ensures faults { up_faults result ≡ 0 }
        ensures fails { up_listed result ≡ [] }
        ensures calls { up_calls result ≡ 0 }
    {
        ListUp {
            replies,
            asked: Vec::new(alloc),
            schedule: Schedule::none(),
        }
    }

    /// These replies, and the calls with these numbers fail, counted from 1.
    pub fn failing(replies: Vec<Octets>, fails: Vec<u64>) -> ListUp
        ensures replies { replies_of result ≡ replies.items }
        ensures asked { asked_of result ≡ [] }
        ensures faults { up_faults result ≡ 0 }
        ensures fails { up_listed result ≡ fails.items }
        ensures calls { up_calls result ≡ 0 }
    {
        let asked = Vec::new(*fails.allocator());
        ListUp {
            replies,
            asked,
            schedule: Schedule::of(fails),
        }
    }

    /// The requests that were answered, the first of them first.
    pub fn asked(&self) -> &[Octets]
        ensures { result.now ≡ asked_of self.now }
    {
        &self.asked
    }

    /// How many replies are left.
    pub fn left(&self) -> usize
        ensures { result ≡ length (replies_of self.now) }
    {
        self.replies.len()
    }

    // Puts a request on the record.
    fn note(&mut self, request: &[u8]) -> Result<(), AllocError>
        ensures asked { asked_of self.new ≡ (if is_ok result then asked_of self.old ++ request.now ∷ [] else asked_of self.old) }
        ensures replies { replies_of self.new ≡ replies_of self.old }
        ensures schedule { self.new.schedule ≡ self.old.schedule }
    {
        let alloc = *self.asked.allocator();
        self.asked.push(Octets::copy_of(alloc, request)?)?;
        Ok(())
    }
}

impl Answerer for ListUp {
    ghost use Rattle.cmp_ports.specs.ListUp.{up_faults, UpAnswers};

    ghost answers = { UpAnswers };

    ghost faults = { up_faults };

    fn answer(&mut self, request: &[u8], reply: &mut Octets) -> Answered {
        reply.clear();
        if self.schedule.call().is_err() {
            return Answered::Failed;
        }
        if self.replies.is_empty() || self.note(request).is_err() {
            let _ = self.schedule.fault();
            return Answered::Failed;
        }
        *reply = self.replies.remove(0);
        Answered::Replied(BLANK)
    }
}
