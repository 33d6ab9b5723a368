//! Tests of the table that a check by a look and a decision both ask.
ghost use Rattle.std.specs.Prelude.{◌≡◌, ◌<◌};
ghost use Rattle.deal_table.specs.Table.{may, is_apart, is_unused, is_deal};

use deal_model::{DealState, Owner};

/// Whether a sender has a right.
pub fn may(right: u8, owner: &Owner) -> bool
    requires { 0 < right }
    ensures { result ≡ may right owner.now }
{
    owner.rights / right % 2 == 1
}

/// Whether a message's time, in seconds since 1970, stands and is more than so many seconds from the event's.
pub fn is_apart(skew: u32, event: u64, time: Option<u64>) -> bool
    ensures { result ≡ is_apart skew event time }
{
    match time {
        Some(time) => {
            let skew = u64::from(skew);
            time.saturating_add(skew) < event || event.saturating_add(skew) < time
        }
        None => false,
    }
}

/// Whether no message of a transaction made a change, so that a request or a revocation may begin it.
pub fn is_unused(state: DealState) -> bool
    ensures { result ≡ is_unused state }
{
    match state {
        DealState::Unused => true,
        _ => false,
    }
}

/// Whether a request began a transaction, so that a certConf or a pollReq may go on with it.
pub fn is_deal(state: DealState) -> bool
    ensures { result ≡ is_deal state }
{
    match state {
        DealState::Unused => false,
        DealState::Other => false,
        _ => true,
    }
}
