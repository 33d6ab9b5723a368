//! What a seat knows. These types stand in clauses and proofs alone: no value of them is made.
use std::collections::LinkedList;

/// Where a seat stands in its turn.
pub enum Stage<E> {
    /// It has no ticket.
    Idle,
    /// It waits with this ticket, a number modulo 2^64.
    Waits(u64),
    /// It has the turn: its ticket, and the history of the value that the turn is about.
    Holds(u64, LinkedList<E>),
    /// It took in another seat, and has yet to compare what the two had seen.
    Hears(LinkedList<E>, LinkedList<E>),
}

/// What a seat knows of the one history.
pub struct View<E> {
    /// The history as the seat last left it, or as it was told of it.
    pub seen: LinkedList<E>,
    /// The places, from 1 on, of the entries that were added in the seat's own turns.
    pub mine: LinkedList<u64>,
    /// How many seats it counts for: into so many it can be split.
    pub share: u64,
    pub stage: Stage<E>,
}
