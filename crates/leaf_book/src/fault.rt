//! Why a call of a leaf book fails.

/// Why a book isn't mounted.
#[derive(Clone, Copy, Debug, PartialEq, Eq)]
pub enum BookFault {
    /// The tree's typecode isn't 5, 6 or 7, or that of the one-time keys isn't 1 to 4. Nothing was done.
    BadSet,
    /// The log is damaged, or its payloads aren't those of a book.
    Damaged {
        /// The offset in octets that the journal tells; else that of the first gate whose payload isn't the next of a book.
        at: u64,
    },
    /// The disk holds the book of another key. Keys are 56 octets (RFC 8554, 5.3).
    KeyMismatch {
        /// The key of the seed, the identifier and the sets.
        file: [u8; 56],
        /// The key that the book on the disk has.
        journal: [u8; 56],
    },
    /// The disk failed.
    DiskFault,
    /// Memory ran out.
    NoMemory,
}

/// Why no leaf is reserved.
#[derive(Clone, Copy, Debug, PartialEq, Eq)]
pub enum ReserveFault {
    /// All leaves of the tree are used. Nothing was done.
    Spent,
    /// The disk failed, and the leaf is in doubt.
    DiskFault,
    /// Memory ran out. Nothing was done.
    NoMemory,
}
