//! What may come of what is left of a message.
ghost use Rattle.std.specs.Prelude.{◌≡◌, ℕ, List, true, Some, is_some};
ghost use Rattle.deal_model.specs.declared.states.Owner.{Owner};
ghost use Rattle.deal_table.specs.Table.{Refuses, bare, guard_by};
ghost use Rattle.deal_rulings.specs.Rulings.{ruling_of, sent_by};

use cmp_values::FailInfo;
use deal_model::{Change, Checked, Kind};

/// How what is left of a message is decided. Places count the changes of the history, from 1 on.
#[derive(Debug, Drop)]
pub enum Ruling {
    /// This change is made.
    Makes(Change),
    /// The message stands in the history: the reply to the change at this place is sent again.
    Repeats {
        place: u64,
    },
    /// It is refused.
    Refuses {
        fail: FailInfo,
        /// Whether the refusal is protected by the secret under which the message was checked.
        is_guarded: bool,
        /// Whether it answers the nested message around the one that is about something (RFC 9810, 5.1.3.5).
        to_outer: bool,
    },
    /// The certHash of a certConf has to be compared first with the certificate of the Grant at this place (RFC 9810, 5.3.18).
    Asks {
        place: u64,
    },
}

/// Whether a refusal is protected: where its sender has a secret.
pub(crate) fn is_guarded(kind: Option<Kind>) -> bool
    ensures { (kid : List ℕ) (o : Owner) → result ≡ is_some (guard_by kind kid o) }
{
    match kind {
        Some(Kind::Mac) => true,
        Some(Kind::Lms) => false,
        None => false,
    }
}

/// A refusal that nothing protects.
pub(crate) fn refused_bare(fail: FailInfo, to_outer: bool) -> Ruling
    ensures { result ≡ ruling_of (Refuses fail (bare to_outer)) }
{
    Ruling::Refuses {
        fail,
        is_guarded: false,
        to_outer,
    }
}

/// A refusal of a message whose sender is known.
pub(crate) fn refused(c: &Checked<'_>, fail: FailInfo) -> Ruling
    ensures { (o : Owner) → result ≡ ruling_of (Refuses fail (sent_by c.now o).to) }
{
    Ruling::Refuses {
        fail,
        is_guarded: is_guarded(c.ask.kind),
        to_outer: false,
    }
}

/// A refusal of the nested message whose sender is known.
pub(crate) fn refused_outer(kind: Kind, fail: FailInfo) -> Ruling
    ensures { (kid : List ℕ) (o : Owner) → result ≡ ruling_of (Refuses fail (record { outer = true; guard = guard_by (Some kind) kid o })) }
{
    Ruling::Refuses {
        fail,
        is_guarded: is_guarded(Some(kind)),
        to_outer: true,
    }
}
