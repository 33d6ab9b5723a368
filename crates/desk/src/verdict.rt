//! How a message is decided.

use crate::receipt::Receipt;
use cmp_ports::FailInfo;

/// What is decided of a message. Places count the changes of the history, and times are seconds since 1970.
#[derive(Drop)]
pub enum Verdict {
    /// A change was made.
    Done(Receipt),
    /// The message was decided before: its reply is sent again.
    Again {
        receipt: Receipt,
        /// How many changes the history has.
        place: u64,
        /// The time of the event.
        time: u64,
    },
    /// It is refused.
    Refused {
        fail: FailInfo,
        /// How many changes the history has.
        place: u64,
        /// The time of the event.
        time: u64,
        /// Whether the refusal is protected by the secret under which the message was checked.
        guarded: bool,
        /// Whether it answers the nested message around the one that is about something (RFC 9810, 5.1.3.5).
        to_outer: bool,
    },
    /// The certHash of a certConf wasn't compared yet with the certificate of the Grant at this place (RFC 9810, 5.3.18).
    Stale {
        place: u64,
    },
    /// The disk failed: a change is in doubt.
    DiskFault,
    /// Memory ran out. Nothing was done.
    NoMemory,
}
