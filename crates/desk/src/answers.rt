//! How the calls of a desk end.

use cmp_ports::Short;

/// Why a service isn't founded.
#[derive(Clone, Copy, Debug, PartialEq, Eq)]
pub enum FoundFault {
    /// The disk is founded already.
    Already,
    /// The disk failed.
    DiskFault,
    /// Memory ran out.
    NoMemory,
}

/// How one change was added.
#[derive(Clone, Copy, Debug, PartialEq, Eq)]
pub(crate) enum Added {
    /// It joined the history.
    Done,
    /// There is no room for it.
    Full,
    /// The disk failed.
    DiskFault,
    /// Memory ran out.
    NoMemory,
}

/// How a lapse ends.
#[derive(Clone, Copy, Debug, PartialEq, Eq)]
pub enum Lapsed {
    /// The certificate of this transaction lapsed, by the change at this place.
    Done {
        /// The length of the history with the change.
        place: u64,
        /// The transactionID.
        tid: Short,
    },
    /// No deadline has come.
    Nothing,
    /// The journal is full.
    Full,
    /// The disk failed: a change is in doubt.
    DiskFault,
    /// Memory ran out. Nothing was done.
    NoMemory,
}

/// How an order ends.
#[derive(Clone, Copy, Debug, PartialEq, Eq)]
pub enum Ordered {
    /// The request was released or denied, by the change at this place.
    Done {
        /// The length of the history with the change.
        place: u64,
    },
    /// No request with this transactionID is held, or the order is a bad one.
    NotHeld,
    /// The journal is full.
    Full,
    /// The disk failed: a change is in doubt.
    DiskFault,
    /// Memory ran out. Nothing was done.
    NoMemory,
}

/// How credentials are listed or dismissed.
#[derive(Clone, Copy, Debug, PartialEq, Eq)]
pub enum Listing {
    /// It was done by the change at this place.
    Done {
        /// The length of the history with the change.
        place: u64,
    },
    /// A credential of the list is in use.
    InUse {
        /// The index of the first such credential, from 0 on.
        index: u32,
    },
    /// No such credential was ever listed.
    Unknown,
    /// The credential was dismissed before.
    Already,
    /// The journal is full.
    Full,
    /// The disk failed: a change is in doubt.
    DiskFault,
    /// Memory ran out. Nothing was done.
    NoMemory,
}
