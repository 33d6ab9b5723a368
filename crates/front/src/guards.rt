//! What protects a refusal (RFC 9810, 5.1.3.1).
ghost use Rattle.std.specs.Prelude.{◌≡◌, option_map};
ghost use Rattle.deal_table.specs.Carry.{carried_to};
ghost use Rattle.deal_table.specs.Looked.{looked_to, secret_in};
ghost use Rattle.reply_maker.specs.Guards as guards;

use cmp_ports::Short;
use deal_model::{Ask, Checked, Standing};
use deal_table::Look;
use reply_maker::Guard;

/// The secret of a sender that is good, under its reference.
fn secret(kid: &Short, standing: &Standing) -> Option<Guard>
    ensures { option_map guards.secret_in result ≡ secret_in kid.now standing.now }
{
    match standing {
        Standing::Good { key, .. } => Some(Guard {
            kid: *kid,
            secret: *key,
        }),
        _ => None,
    }
}

/// The secret that a look tells of a sender, or of the one of the nested message around, where a refusal is guarded.
pub(crate) fn looked_guard(ask: &Ask, look: &Look, guarded: bool, outer: bool) -> Option<Guard>
    ensures { option_map guards.secret_in result ≡ (looked_to ask.now look.now outer guarded).guard }
{
    if !guarded {
        return None;
    }
    if !outer {
        return secret(&ask.kid, &look.cred);
    }
    match &ask.outer {
        Some((_, kid)) => secret(kid, &look.outer),
        None => None,
    }
}

/// The secret under which a message was checked, or the nested one around it, where a refusal is guarded.
pub(crate) fn carried_guard(checked: &Checked<'_>, guarded: bool, outer: bool) -> Option<Guard>
    ensures { option_map guards.secret_in result ≡ (carried_to checked.now outer guarded).guard }
{
    if !guarded {
        return None;
    }
    if !outer {
        return Some(Guard {
            kid: checked.ask.kid,
            secret: checked.key,
        });
    }
    match (&checked.ask.outer, &checked.outer_key) {
        (Some((_, kid)), Some(key)) => Some(Guard {
            kid: *kid,
            secret: *key,
        }),
        _ => None,
    }
}
