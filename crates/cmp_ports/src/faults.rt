//! The fault of an outside call.

/// The outside failed: a read, a write or another call of an object that is not ours. The object's count of faults
/// has risen then, so that no code can answer it by itself.
#[derive(Clone, Copy, Debug, PartialEq, Eq)]
pub struct Failed;
