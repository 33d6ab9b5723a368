//! Why a call of the journal fails.

/// The disk failed: its count of faults has risen.
#[derive(Clone, Copy, Debug, PartialEq, Eq)]
pub struct DiskFault;

/// Why a disk isn't prepared.
#[derive(Clone, Copy, Debug, PartialEq, Eq)]
pub enum PrepareFault {
    /// It is founded already.
    Already,
    /// It failed.
    DiskFault,
}

/// Why a payload isn't appended.
#[derive(Clone, Copy, Debug, PartialEq, Eq)]
pub enum AppendFault {
    /// 262,144 payloads stand, or the log would pass 2^30 octets. Nothing was done.
    Full,
    /// The disk failed, and the payload is in doubt.
    DiskFault,
}

/// Why a log isn't begun.
#[derive(Clone, Copy, Debug, PartialEq, Eq)]
pub enum BeginFault {
    /// The disk failed.
    DiskFault,
    /// Memory ran out. Nothing was done.
    NoMemory,
}

/// Why a journal isn't mounted.
#[derive(Clone, Copy, Debug, PartialEq, Eq)]
pub enum MountFault {
    /// The disk has under nine octets, or its first octet isn't 1.
    NotFounded,
    /// The magic is another, where `at` is 1; or `at` is the offset of the first open gate whose record, with the gate
    /// behind it, doesn't lie whole in the disk.
    Damaged {
        /// An offset in octets.
        at: u64,
    },
    /// The disk failed.
    DiskFault,
    /// Memory ran out.
    NoMemory,
}
