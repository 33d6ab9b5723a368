//! What a look at the history tells.

use deal_model::{Brief, DealState, Standing};

/// What a look at the history tells of a message, of a fixed size.
#[derive(Clone, Copy, Debug)]
pub struct Look {
    /// How many changes the history has.
    pub place: u64,
    /// The time of the event, in seconds since 1970: the clock's reading, or the time of the last change where that is later.
    pub time: u64,
    /// The place of the change that this message made already, counted from 1.
    pub repeat: Option<u64>,
    /// How the credential of the message stands.
    pub cred: Standing,
    /// How the credential of the nested message around it stands; unknown where there is none.
    pub outer: Standing,
    /// How the transaction stands.
    pub tid_state: DealState,
    pub settings: Brief,
}
