//! An answerer that echoes, fails or finds no memory.

ghost use Rattle.std.specs.Prelude.{◌≡◌, ◌≤◌};
ghost use Rattle.cmp_ports.specs.Faults.{Rose};

use cmp_ports::{Answered, Answerer, Note, Outcome};
use cmp_values::Octets;

/// How a request is answered that comes after so many.
#[derive(Clone, Copy, Debug, PartialEq, Eq)]
pub enum After {
    /// As all others.
    Echoes,
    /// What answers fails.
    Fails(u64),
    /// Memory runs out.
    WantsMemory(u64),
}

/// Answers with the octets of the request, and notes its number.
#[derive(Debug, Drop)]
pub struct Echo {
    pub asked: u64,
    pub faults: u64,
    pub after: After,
}

impl Echo {
    pub fn new(after: After) -> Echo {
        Echo {
            asked: 0,
            faults: 0,
            after,
        }
    }

    // How the next request is answered, where there is a reply for it.
    fn next(&mut self) -> Answered
        ensures later { self.old.faults ≤ self.new.faults }
        ensures failed { result ≡ Answered.Failed → Rose self.old.faults self.new.faults }
    {
        self.asked = self.asked.saturating_add(1);
        if self.after == After::Fails(self.asked) {
            self.faults = self.faults.saturating_add(1);
            return Answered::Failed;
        }
        if self.after == After::WantsMemory(self.asked) {
            return Answered::NoMemory;
        }
        Answered::Replied(note_of(self.asked))
    }
}

// The note of the request of this number.
pub fn note_of(number: u64) -> Note {
    Note {
        place: number,
        time: 7,
        words: [5; 32],
        outcome: Outcome::Done,
    }
}

impl Answerer for Echo {
    ghost answers = { λ a request end reply after. Unit {0} };

    ghost faults = { λ a. a.faults };

    fn answer(&mut self, request: &[u8], reply: &mut Octets) -> Answered {
        reply.clear();
        match self.next() {
            Answered::Replied(note) => match reply.append(request) {
                Ok(()) => Answered::Replied(note),
                Err(_) => Answered::NoMemory,
            },
            other => other,
        }
    }
}
