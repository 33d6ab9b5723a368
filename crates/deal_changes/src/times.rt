//! What a change is told by: its time, its stamp and its transaction.
ghost use Rattle.std.specs.Prelude.{◌≡◌, Option, Some, None, option_copied};
ghost use Rattle.deal_changes.specs.Times.{time_of_change, stamp_of, tid_of};

use crate::change::{Change, Stamp};
use cmp_values::Short;

impl Change {
    /// When it was made, in seconds since 1970. Takes no memory.
    pub fn time(&self) -> u64
        ensures { result ≡ time_of_change self.now }
    {
        match self {
            Change::Found(settings) => settings.time,
            Change::Enlist { time, .. } => *time,
            Change::Dismiss { time, .. } => *time,
            Change::Grant { stamp, .. } => stamp.time,
            Change::Hold { stamp, .. } => stamp.time,
            Change::Release { time, .. } => *time,
            Change::Deny { time, .. } => *time,
            Change::Turned(stamp) => stamp.time,
            Change::Polled(stamp) => stamp.time,
            Change::Settled { stamp, .. } => stamp.time,
            Change::Revoke { stamp, .. } => stamp.time,
            Change::Lapse { time, .. } => *time,
        }
    }

    /// The stamp of a change that a message made. Takes no memory.
    pub fn stamp(&self) -> Option<&Stamp>
        ensures { option_copied result ≡ stamp_of self.now }
    {
        match self {
            Change::Found(_) => None,
            Change::Enlist { .. } => None,
            Change::Dismiss { .. } => None,
            Change::Grant { stamp, .. } => Some(stamp),
            Change::Hold { stamp, .. } => Some(stamp),
            Change::Release { .. } => None,
            Change::Deny { .. } => None,
            Change::Turned(stamp) => Some(stamp),
            Change::Polled(stamp) => Some(stamp),
            Change::Settled { stamp, .. } => Some(stamp),
            Change::Revoke { stamp, .. } => Some(stamp),
            Change::Lapse { .. } => None,
        }
    }

    /// The transaction of a change that has one. Takes no memory.
    pub fn tid(&self) -> Option<&Short>
        ensures { option_copied result ≡ tid_of self.now }
    {
        match self {
            Change::Found(_) => None,
            Change::Enlist { .. } => None,
            Change::Dismiss { .. } => None,
            Change::Grant { stamp, .. } => Some(&stamp.tid),
            Change::Hold { stamp, .. } => Some(&stamp.tid),
            Change::Release { tid, .. } => Some(tid),
            Change::Deny { tid, .. } => Some(tid),
            Change::Turned(stamp) => Some(&stamp.tid),
            Change::Polled(stamp) => Some(&stamp.tid),
            Change::Settled { stamp, .. } => Some(&stamp.tid),
            Change::Revoke { stamp, .. } => Some(&stamp.tid),
            Change::Lapse { tid, .. } => Some(tid),
        }
    }
}
