//! Worlds and their steps.
ghost use Rattle.std.specs.Prelude.{◌≡◌, length};

use deal_model::{Change, Key};
use std::alloc::{AllocError, Global};
use std::marker::Model;

/// Where what was signed comes from.
#[derive(Clone, Copy, Debug, PartialEq, Eq)]
pub enum Source {
    /// The change at this place of the history, from 1 on.
    Place(u64),
}

/// A leaf that was signed with.
#[derive(Clone, Copy, Debug)]
pub struct Signed {
    pub key: Key,
    pub leaf: u64,
    pub source: Source,
}

/// A list of changes. Contracts see it as the list.
#[derive(Debug, Drop)]
pub struct Changes {
    items: Vec<Change>,
}

impl Model for Changes {
    ghost use Rattle.std.specs.Prelude.{List};
    ghost use Rattle.deal_changes.specs.declared.change.Change.{Change};

    ghost Value = { List Change };

    ghost view = { λ l. l.items.items };
}

impl Changes {
    ghost use Rattle.std.specs.Prelude.{None, OnOk, OnErr};
    ghost use Rattle.world_core.specs.Steps.{with_change};

    /// These changes. Takes no memory.
    pub fn of(items: Vec<Change>) -> Changes
        ensures { result ≡ items.items }
    {
        Changes { items }
    }

    /// The changes, borrowed.
    pub fn as_slice(&self) -> &[Change]
        ensures { result.now ≡ self.now }
    {
        self.items.as_slice()
    }

    /// How many changes there are.
    pub fn len(&self) -> usize
        ensures { result ≡ length self.now }
    {
        self.items.len()
    }

    /// Adds the change, where there is one. After `AllocError` all is as before.
    pub(crate) fn take(&mut self, change: &mut Option<Change>) -> Result<(), AllocError>
        ensures ok { OnOk result ((self.new ≡ with_change self.old change.old) × (change.new ≡ None)) }
        ensures err { OnErr result ((self.new ≡ self.old) × (change.new ≡ change.old)) }
    {
        self.items.reserve(1)?;
        if let Some(c) = change.take() {
            self.items.push_reserved(c);
        }
        Ok(())
    }

    /// Adds the changes, where there are any. After `AllocError` all is as before.
    pub(crate) fn take_both(
        &mut self,
        first: &mut Option<Change>,
        second: &mut Option<Change>,
    ) -> Result<(), AllocError>
        ensures ok { OnOk result ((self.new ≡ with_change (with_change self.old first.old) second.old) × (first.new ≡ None) × (second.new ≡ None)) }
        ensures err { OnErr result ((self.new ≡ self.old) × (first.new ≡ first.old) × (second.new ≡ second.old)) }
    {
        self.items.reserve(2)?;
        if let Some(c) = first.take() {
            self.items.push_reserved(c);
        }
        if let Some(c) = second.take() {
            self.items.push_reserved(c);
        }
        Ok(())
    }
}

/// A list of signed leaves. Contracts see it as the list.
#[derive(Debug, Drop)]
pub struct SignedList {
    items: Vec<Signed>,
}

impl Model for SignedList {
    ghost use Rattle.std.specs.Prelude.{List};
    ghost use Rattle.world_core.specs.declared.world.Signed.{Signed};

    ghost Value = { List Signed };

    ghost view = { λ l. l.items.items };
}

impl SignedList {
    ghost use Rattle.std.specs.Prelude.{◌++◌, ◌∷◌, [], IfOk, OnOk, OnErr};

    /// Nothing signed.
    pub fn empty(alloc: Global) -> SignedList
        ensures { result ≡ [] }
    {
        SignedList {
            items: Vec::new(alloc),
        }
    }

    /// The signed leaves, borrowed.
    pub fn as_slice(&self) -> &[Signed]
        ensures { result.now ≡ self.now }
    {
        self.items.as_slice()
    }

    /// A copy. `AllocError` where memory runs out.
    pub(crate) fn copy_of(alloc: Global, items: &[Signed]) -> Result<SignedList, AllocError>
        ensures { IfOk result (λ list. list ≡ items.now) }
    {
        Ok(SignedList {
            items: Vec::from_slice(alloc, items)?,
        })
    }

    /// One leaf more. After `AllocError` all is as before.
    pub(crate) fn push(&mut self, signed: Signed) -> Result<(), AllocError>
        ensures ok { OnOk result (self.new ≡ self.old ++ signed ∷ []) }
        ensures err { OnErr result (self.new ≡ self.old) }
    {
        self.items.push(signed)?;
        Ok(())
    }
}

/// A list of places. Contracts see it as the list.
#[derive(Debug, Drop)]
pub struct Places {
    items: Vec<u64>,
}

impl Model for Places {
    ghost use Rattle.std.specs.Prelude.{ℕ, List};

    ghost Value = { List ℕ };

    ghost view = { λ l. l.items.items };
}

impl Places {
    ghost use Rattle.std.specs.Prelude.{◌++◌, ◌∷◌, [], OnOk, OnErr};

    /// No places.
    pub fn empty(alloc: Global) -> Places
        ensures { result ≡ [] }
    {
        Places {
            items: Vec::new(alloc),
        }
    }

    /// The places, borrowed.
    pub fn as_slice(&self) -> &[u64]
        ensures { result.now ≡ self.now }
    {
        self.items.as_slice()
    }

    /// One place more. After `AllocError` all is as before.
    pub(crate) fn push(&mut self, place: u64) -> Result<(), AllocError>
        ensures ok { OnOk result (self.new ≡ self.old ++ place ∷ []) }
        ensures err { OnErr result (self.new ≡ self.old) }
    {
        self.items.push(place)?;
        Ok(())
    }
}

/// What stands, what is on its way, and what has left.
#[derive(Debug, Drop)]
pub struct World {
    /// The history on the disk.
    pub durable: Changes,
    /// A change that was written and not yet acknowledged.
    pub pending: Option<Change>,
    /// A change of which it isn't known whether it stands.
    pub doubt: Option<Change>,
    /// How many changes are acknowledged.
    pub acked: u64,
    /// Whether the service is running.
    pub up: bool,
    /// The leaves that were signed with.
    pub signed: SignedList,
    /// The places of the changes whose replies were sent.
    pub sent: Places,
}

/// What may happen.
#[derive(Debug, Drop)]
pub enum Step {
    /// The service is founded by this change, in place of the one that it begins with.
    Found(Change),
    /// A change is written.
    Propose(Change),
    /// The written change is acknowledged.
    Sync,
    /// Its acknowledgement fails, and it is in doubt.
    SyncFail,
    /// The doubtful change is taken back.
    Settle,
    /// The leaves of the first change and of the one at this place are signed with.
    Sign(u64),
    /// The reply of the change at this place is sent.
    Send(u64),
    /// The service stops, and the change on its way is kept or lost.
    Crash(bool),
    /// The service starts again.
    Reopen,
}
