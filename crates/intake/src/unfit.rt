//! Why a request is unfit.

use cmp_values::FailInfo;

/// Why a message is refused by what a look at the history tells, or that memory ran out.
#[derive(Clone, Copy, Debug, PartialEq, Eq)]
pub enum Unfit {
    /// It is refused for this reason. Where the refusal is guarded, the secret of the message's sender protects it. It answers the
    /// message that is about something, or the nested one around it.
    Refused {
        fail: FailInfo,
        guarded: bool,
        to_outer: bool,
    },
    /// Memory ran out.
    NoMemory,
}
