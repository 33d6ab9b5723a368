//! The table on which a turnstile stands, and its rule.
use crate::chronicle::Chronicle;
use crate::view::View;
use atomic_table::{Table, TableRule};
use std::alloc::Global;
use std::snapshot::Snapshot;

/// Its key is the number of seats and the value at the start.
pub struct Rule;

impl<T: Chronicle> TableRule<Option<T>, View<T::Entry>, (u32, Snapshot<T>)> for Rule {
    ghost use Rattle.std.specs.Prelude.{length};
    ghost use Rattle.turnstile.specs.TurnRule.{TurnRule};
    ghost use Rattle.turnstile.specs.Views.{newcomer};

    ghost holds = { λ key. TurnRule T.history T.kept key.0 (length (T.history key.1.value)) };

    ghost first = { λ key. newcomer (T.history key.1.value) key.0 };
}

/// Word 0 is the next ticket, word 1 the ticket that is served, word 2 the length of the history. The slot has the value.
pub type Gate<T> = Table<
    Option<T>,
    View<<T as Chronicle>::Entry>,
    (u32, Snapshot<T>),
    Rule,
    Global,
>;

/// A place at a turnstile, which a thread takes its turns with. It has no bytes.
pub type Seat<T> = atomic_table::Seat<Option<T>, View<<T as Chronicle>::Entry>>;
