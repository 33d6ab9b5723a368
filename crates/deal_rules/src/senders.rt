//! Senders and their rights.
ghost use Rattle.std.specs.Prelude.{◌≡◌, ◌<◌, ◌≤◌};
ghost use Rattle.deal_model.specs.Views.{AreTimely};
ghost use Rattle.deal_model.specs.Rules.{same_who, rights_as, rights_of, has_right};

use crate::credentials::same_kind;
use deal_answers::standing_of_who;
use deal_model::{Change, Stamp, Standing, Who};

/// Whether two senders are the same.
pub fn same_who(a: &Who, b: &Who) -> bool
    ensures { result ≡ same_who a.now b.now }
{
    match (a, b) {
        (Who::Listed(j, id), Who::Listed(k, kid)) => {
            same_kind(*j, *k) && id.as_slice() == kid.as_slice()
        }
        (Who::Cert(m), Who::Cert(n)) => *m == *n,
        (Who::Listed(..), Who::Cert(_)) => false,
        (Who::Cert(_), Who::Listed(..)) => false,
    }
}

fn rights_as(who: &Who, standing: &Standing) -> Option<u8>
    ensures { result ≡ rights_as who.now standing.now }
{
    match standing {
        Standing::Good {
            who: owner,
            rights,
            ..
        } => {
            if same_who(owner, who) {
                Some(*rights)
            } else {
                None
            }
        }
        Standing::Unknown => None,
        Standing::OtherKind => None,
        Standing::Barred => None,
    }
}

/// The rights of a message's sender at its time; none where its standing isn't good.
pub(crate) fn rights_of(h: &[Change], s: &Stamp) -> Option<u8>
    requires { AreTimely h.now }
    ensures { result ≡ rights_of h.now s.now }
{
    let standing = standing_of_who(h, &s.who, s.time);
    rights_as(&s.who, &standing)
}

/// Whether these rights have this one.
pub fn has_right(right: u8, rights: Option<u8>) -> bool
    requires { 0 < right }
    ensures { result ≡ has_right right rights }
{
    match rights {
        Some(rights) => rights / right % 2 == 1,
        None => false,
    }
}
