//! What the tests share: octets that were written, and octets that are cut.
use cmp_values::Octets;
use std::alloc::AllocError;

/// Whether these octets were written.
pub(crate) fn is(written: Result<Octets, AllocError>, octets: &[u8]) -> bool {
    match written {
        Ok(written) => written.as_slice() == octets,
        Err(_) => false,
    }
}

/// The same without the last octet.
pub(crate) fn cut(octets: &[u8]) -> &[u8] {
    match octets {
        [front @ .., _] => front,
        [] => octets,
    }
}
