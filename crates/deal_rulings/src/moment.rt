//! When a message is decided.

use deal_model::Change;
use std::marker::Model;

/// What happens: the history before it, its time, and the words drawn for a reply. Contracts see it as deal_table's Event.
#[derive(Drop)]
pub(crate) struct Moment<'a> {
    pub(crate) history: &'a [Change],
    pub(crate) time: u64,
    pub(crate) words: &'a [u8; 32],
}

impl<'a> Model for Moment<'a> {
    ghost use Rattle.deal_table.specs.Table.{Event};

    ghost Value = { Event };

    ghost view = { λ m. record { history = m.history.now; time = m.time; words = m.words.now } };
}
