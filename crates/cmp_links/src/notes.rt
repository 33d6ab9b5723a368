//! What is noted of the answers of a session.
ghost use Rattle.std.specs.Prelude.{◌≡◌, ◌-◌, ◌<◌, [], ◌∷◌, ◌++◌, length, take, count_by, OnOk, OnErr};
ghost use Rattle.cmp_links.specs.Ends.{is_failure};

use cmp_ports::{Note, Outcome};
use std::alloc::{AllocError, Global};
use std::marker::Model;

/// A list of notes. Contracts see it as the list.
#[derive(Debug, Drop)]
pub struct Notes {
    notes: Vec<Note>,
}

impl Model for Notes {
    ghost use Rattle.std.specs.Prelude.{List};
    ghost use Rattle.cmp_ports.specs.declared.note.Note.{Note};

    ghost Value = { List Note };

    ghost view = { λ n. n.notes.items };
}

impl Notes {
    /// These notes. Takes no memory.
    pub fn of(notes: Vec<Note>) -> Notes
        ensures { result ≡ notes.items }
    {
        Notes { notes }
    }

    /// No notes. Takes no memory until one is pushed.
    pub fn empty(alloc: Global) -> Notes
        ensures { result ≡ [] }
    {
        Notes {
            notes: Vec::new(alloc),
        }
    }

    /// The notes, borrowed.
    pub fn as_slice(&self) -> &[Note]
        ensures { result.now ≡ self.now }
    {
        self.notes.as_slice()
    }

    /// Puts a note behind the others. After an `AllocError` they are as before.
    pub fn push(&mut self, note: Note) -> Result<(), AllocError>
        ensures ok { OnOk result (self.new ≡ self.old ++ note ∷ []) }
        ensures err { OnErr result (self.new ≡ self.old) }
    {
        self.notes.push(note)?;
        Ok(())
    }

    /// Puts a note in the place of the last. Takes no memory: what has to be noted without fail has its place pushed before.
    pub fn set_last(&mut self, note: Note)
        requires { 0 < length self.old }
        ensures { self.new ≡ take (length self.old - 1) self.old ++ note ∷ [] }
    {
        let last = self.notes.len() - 1;
        self.notes[last] = note;
    }

    /// Takes the last note away, where there is one, and keeps the memory.
    pub fn pop(&mut self)
        ensures { self.new ≡ take (length self.old - 1) self.old }
    {
        let _ = self.notes.pop();
    }

    /// How many of the answers told that the service failed.
    pub fn failures(&self) -> usize
        ensures { result ≡ count_by is_failure self.now }
    {
        self.notes.iter().filter(|note| is_failure(note)).count()
    }
}

// Whether the answer told that the service failed.
fn is_failure(note: &Note) -> bool
    ensures { result ≡ is_failure note.now }
{
    matches!(note.outcome, Outcome::SystemFailure)
}
