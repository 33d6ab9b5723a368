//! What a look tells, and what a check by it answers.
ghost use Rattle.std.specs.Prelude.{◌≡◌, ◌≤◌, length};

use cmp_values::{FailInfo, Short};
use deal_changes::{Kind, Who};
use deal_model::{Brief, DealState, Standing};
use deal_table::Look;
use intake::{Intake, Unfit, ask_of, check};
use std::alloc::Global;

/// The time of the event.
const EVENT: u64 = 1_700_000_000;

/// The secret of who sent the message that is about something.
pub(crate) const SECRET: &[u8] = b"alice's secret";

/// The secret of who sent the nested message around it.
pub(crate) const OUTER: &[u8] = b"gateway's secret";

/// How a credential stands: nobody has it; it is of the other kind; it was dismissed; it is good and has these rights; or it is
/// good, and that of the certificate with this serial number.
#[derive(Clone, Copy)]
pub(crate) enum Cred {
    Nobody,
    OtherKind,
    Barred,
    Rights(u8),
    Holder(u64),
}

/// What a check answers: that the message fits; or a refusal, bare or guarded, to the message or to the nested one around it.
#[derive(Clone, Copy, Debug, PartialEq, Eq)]
pub(crate) enum Told {
    Fits,
    Bare(FailInfo),
    Guarded(FailInfo),
    BareOuter(FailInfo),
    GuardedOuter(FailInfo),
    /// It is refused before anything is asked.
    Stopped,
    NoMemory,
}

/// A message, what a look tells of it, and what a check must answer.
#[derive(Clone, Copy)]
pub(crate) struct Row {
    pub what: &'static str,
    pub cred: Cred,
    pub outer: Cred,
    pub state: DealState,
    pub told: Told,
    pub octets: &'static [u8],
}

/// These octets, at most 64.
fn short(octets: &[u8]) -> Short
    requires { length octets.now ≤ 64 }
    ensures { result ≡ octets.now }
{
    match Short::of(octets) {
        Some(octets) => octets,
        None => unreachable!(),
    }
}

fn standing(cred: Cred, secret: &[u8]) -> Standing
    requires { length secret.now ≤ 64 }
{
    let key = short(secret);
    let kid = short(b"alice");
    match cred {
        Cred::Nobody => Standing::Unknown,
        Cred::OtherKind => Standing::OtherKind,
        Cred::Barred => Standing::Barred,
        Cred::Rights(rights) => Standing::Good {
            who: Who::Listed(Kind::Mac, kid),
            key,
            rights,
        },
        Cred::Holder(serial) => Standing::Good {
            who: Who::Cert(serial),
            key,
            rights: 1,
        },
    }
}

fn settings() -> Brief {
    Brief {
        name: short(b"authority"),
        wait: 3600,
        skew: 300,
        rounds: 1,
        check_after: 60,
        days: 365,
        issue_key: [0; 60],
        reply_key: [0; 60],
    }
}

/// What a look tells, where the message isn't in the history yet.
pub(crate) fn look(cred: Cred, outer: Cred, tid_state: DealState) -> Look {
    Look {
        place: 1,
        time: EVENT,
        repeat: None,
        cred: standing(cred, SECRET),
        outer: standing(outer, OUTER),
        tid_state,
        settings: settings(),
    }
}

fn told_of(fail: FailInfo, guarded: bool, to_outer: bool) -> Told {
    match (guarded, to_outer) {
        (false, false) => Told::Bare(fail),
        (true, false) => Told::Guarded(fail),
        (false, true) => Told::BareOuter(fail),
        (true, true) => Told::GuardedOuter(fail),
    }
}

/// What a check answers octets by a look.
fn answer_to(alloc: Global, octets: &[u8], look: &Look) -> Told {
    let Intake::Go(request) = ask_of(octets) else {
        return Told::Stopped;
    };
    match check(alloc, &request, look) {
        Ok(_) => Told::Fits,
        Err(
            Unfit::Refused {
                fail,
                guarded,
                to_outer,
            },
        ) => told_of(fail, guarded, to_outer),
        Err(Unfit::NoMemory) => Told::NoMemory,
    }
}

/// What a check answers the message of a row.
pub(crate) fn answer(alloc: Global, row: &Row) -> Told {
    answer_to(alloc, row.octets, &look(row.cred, row.outer, row.state))
}
