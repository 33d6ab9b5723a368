//! How a session over a stream ended.
ghost use Rattle.std.specs.Prelude.{◌≡◌};
ghost use Rattle.cmp_links.specs.Ends.{is_link_fault};

use crate::notes::Notes;

/// Why a session ended.
#[derive(Clone, Copy, Debug, PartialEq, Eq)]
pub enum EndCause {
    /// The stream ended between two requests.
    Closed,
    /// A request asked for the end.
    Asked,
    /// What came next is no request that is served: it was answered with this status (RFC 9110, 15.5).
    Rejected(u16),
    /// As many requests were answered as a session may have.
    Limit,
    /// A read of the stream failed.
    ReadFault,
    /// A write to the stream failed.
    WriteFault,
    /// What answers requests failed.
    Unanswered,
    /// Memory ran out.
    NoMemory,
}

impl EndCause {
    /// Whether a call of the stream failed.
    pub fn is_link_fault(self) -> bool
        ensures { result ≡ is_link_fault self }
    {
        matches!(self, EndCause::ReadFault | EndCause::WriteFault)
    }
}

/// What a session leaves: what was noted of its answers, the first of them first, and why it ended.
#[derive(Debug, Drop)]
pub struct SessionEnd {
    pub notes: Notes,
    pub cause: EndCause,
}
