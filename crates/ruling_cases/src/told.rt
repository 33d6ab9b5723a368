//! What comes of a message, in brief.
use crate::changes::{NOW, history};
use cmp_values::FailInfo;
use deal_model::{Body4, Change, Checked};
use deal_rules::is_legal;
use deal_rulings::{Ruling, ruling_on};
use std::alloc::Global;

/// What comes of a message.
#[derive(Clone, Copy, PartialEq, Eq)]
pub(crate) enum Told {
    Grants {
        body: Body4,
        serial: u64,
        leaf: u32,
    },
    Accepts,
    Holds,
    Waits,
    Makes,
    Repeats {
        place: u64,
    },
    Refuses {
        fail: FailInfo,
        guarded: bool,
        outer: bool,
    },
    Asks {
        place: u64,
    },
}

fn told_of_change(change: &Change) -> Told {
    match change {
        Change::Grant {
            body,
            serial,
            leaf,
            ..
        } => Told::Grants {
            body: *body,
            serial: *serial,
            leaf: *leaf,
        },
        Change::Settled { accepted: true, .. } => Told::Accepts,
        Change::Hold { .. } => Told::Holds,
        Change::Polled(_) => Told::Waits,
        _ => Told::Makes,
    }
}

fn told_of(ruling: &Ruling) -> Told {
    match ruling {
        Ruling::Makes(change) => told_of_change(change),
        Ruling::Repeats { place } => Told::Repeats { place: *place },
        Ruling::Refuses {
            fail,
            is_guarded,
            to_outer,
        } => Told::Refuses {
            fail: *fail,
            guarded: *is_guarded,
            outer: *to_outer,
        },
        Ruling::Asks { place } => Told::Asks { place: *place },
    }
}

/// A grant by this body at the end of the history.
pub(crate) fn grant_by(body: Body4) -> Told {
    Told::Grants {
        body,
        serial: 5,
        leaf: 4,
    }
}

/// A refusal under the secret.
pub(crate) fn refused(fail: FailInfo) -> Told {
    Told::Refuses {
        fail,
        guarded: true,
        outer: false,
    }
}

/// A refusal to the outer header, under its secret.
pub(crate) fn refused_outer(fail: FailInfo) -> Told {
    Told::Refuses {
        fail,
        guarded: true,
        outer: true,
    }
}

/// What comes of a message behind these changes, so many seconds after the founding.
fn rule_behind(alloc: Global, before: &[Change], c: &Checked<'_>, seconds: u16) -> Option<Told> {
    if before.len() > 9 || !is_legal(before) {
        return None;
    }
    match ruling_on(alloc, before, c, NOW + u64::from(seconds), &[7; 32]) {
        Ok(ruling) => Some(told_of(&ruling)),
        Err(_) => None,
    }
}

/// What comes of a message behind so many changes, so many seconds after the founding.
pub(crate) fn rule(alloc: Global, length: usize, c: &Checked<'_>, seconds: u16) -> Option<Told> {
    let Some(history) = history(alloc) else {
        return None;
    };
    match history.get(..length) {
        Some(before) => rule_behind(alloc, before, c, seconds),
        None => None,
    }
}
