//! Answers to messages, and what is noted of each.
ghost use Rattle.std.specs.Prelude.{◌≡◌, ◌≤◌, ℕ, List, []};
ghost use Rattle.cmp_ports.specs.Faults.{Rose};
ghost use Rattle.cmp_ports.specs.declared.note.Answered.{Answered};
ghost use Rattle.cmp_ports.specs.declared.note.Answered.TheVariants.{Failed, NoMemory};

use cmp_values::{FailInfo, Octets};

/// How a message ended.
#[derive(Clone, Copy, Debug, PartialEq, Eq)]
pub enum Outcome {
    /// A change was made.
    Done,
    /// The reply to an earlier change was sent again.
    Again,
    /// The message was refused.
    Refused(FailInfo),
    /// A device of the service failed.
    SystemFailure,
}

/// The event that answered a message: the length of the history after it, its time in seconds since 1970, the words that were
/// drawn for the reply, and how the message ended.
#[derive(Clone, Copy, Debug, PartialEq, Eq)]
pub struct Note {
    pub place: u64,
    pub time: u64,
    pub words: [u8; 32],
    pub outcome: Outcome,
}

/// How a request was answered.
#[derive(Clone, Copy, Debug, PartialEq, Eq)]
pub enum Answered {
    /// A reply was given.
    Replied(Note),
    /// There is no reply, since what answers failed.
    Failed,
    /// There is no reply, for want of memory.
    NoMemory,
}

/// What answers requests.
pub trait Answerer {
    /// From the state before and the request, how it is answered, the reply, and the state after.
    ghost answers: { Self → List ℕ → Answered → List ℕ → Self → Type 0 };

    /// How often the object has failed.
    ghost faults: { Self → ℕ };

    /// Answers a request: what `reply` held is replaced by the reply, or by nothing where there is none.
    fn answer(&mut self, request: &[u8], reply: &mut Octets) -> Answered
        ensures answered { answers self.old request.now result reply.new self.new }
        ensures failed { result ≡ Failed → reply.new ≡ [] }
        ensures no_memory { result ≡ NoMemory → reply.new ≡ [] }
        ensures cause { result ≡ Failed → Rose (faults self.old) (faults self.new) }
        ensures later { faults self.old ≤ faults self.new };
}

/// An answerer that is lent.
impl<A: Answerer> Answerer for &mut A {
    ghost answers = { λ a request end reply after. A.answers a.now request end reply after.now };

    ghost faults = { λ a. A.faults a.now };

    fn answer(&mut self, request: &[u8], reply: &mut Octets) -> Answered {
        (**self).answer(request, reply)
    }
}
