//! The devices that may fail.

/// A device of the service.
#[derive(Clone, Copy, Debug, PartialEq, Eq)]
pub enum Device {
    /// What random octets are drawn from.
    Entropy,
    /// The disk of the history.
    Disk,
}
