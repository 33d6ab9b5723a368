//! Which open certificate lapses next.
ghost use Rattle.std.specs.Prelude.{◌≡◌};
ghost use Rattle.deal_model.specs.Views.{AreTimely};
ghost use Rattle.desk.specs.Due.{IsWaiting, IsFoundNext, sooner};

use cmp_ports::Short;
use deal_answers::transaction_state;
use deal_model::{Change, DealState};

/// An open certificate, by its transaction.
#[derive(Clone, Copy)]
pub(crate) struct Due {
    pub(crate) deadline: u64,
    pub(crate) tid: Short,
}

/// Until when the certificate that a change grants waits for its confirmation.
fn waiting(h: &[Change], c: &Change) -> Option<Due>
    requires { AreTimely h.now }
    ensures { IsWaiting h.now c.now result }
{
    let Change::Grant { stamp, .. } = c else {
        return None;
    };
    match transaction_state(h, stamp.tid.as_slice()) {
        DealState::Open { deadline, .. } => Some(Due {
            deadline,
            tid: stamp.tid,
        }),
        _ => None,
    }
}

/// The one that lapses first, of which the old one was granted first.
fn sooner(old: Option<Due>, new: Option<Due>) -> Option<Due>
    ensures { result ≡ sooner old new }
{
    match (old, new) {
        (old, None) => old,
        (None, Some(new)) => Some(new),
        (Some(old), Some(new)) => {
            if old.deadline <= new.deadline {
                Some(old)
            } else {
                Some(new)
            }
        }
    }
}

/// The open certificate with the least deadline, of equal ones the one that was granted first.
pub(crate) fn next_due(h: &[Change]) -> Option<Due>
    requires { AreTimely h.now }
    ensures { IsFoundNext h.now h.now result }
{
    let mut next: Option<Due> = None;
    for c in h {
        next = sooner(next, waiting(h, c));
    }
    next
}
