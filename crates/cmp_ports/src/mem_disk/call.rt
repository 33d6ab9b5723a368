//! What a disk in memory remembers of a call.
use crate::Octets;

/// One call, as the record keeps it. From the calls, and the octets at first, each image of each moment follows.
#[derive(Drop)]
pub(crate) enum Call {
    /// A `size` or a `read_at`, or a `sync` that failed: nothing moved.
    Still,
    /// A `write_at`; one that failed isn't done, and its range is in doubt all the same.
    Wrote { at: u64, octets: Octets, done: bool },
    /// A `sync` that succeeded.
    Synced,
}
