//! Which credentials may be listed.
ghost use Rattle.std.specs.Prelude.{◌≡◌, ◌↔◌, Bool, false, IsTrue};
ghost use Rattle.std.specs.List.{list_any};
ghost use Rattle.deal_model.specs.Views.{same_kind, is_entry};
ghost use Rattle.deal_model.specs.Rules.{IsReference, IsListedKey, IsNamed, stands, AreNew};

use cmp_values::Short;
use deal_answers::{is_key_taken, is_listed, key_id, levels_of, ots_of, tree_of};
use deal_model::{Change, Credential, Kind, is_text};

fn is_reference(kid: &Short, secret: &Short) -> bool
    ensures { IsTrue result ↔ IsReference kid.now secret.now }
{
    kid.len() >= 1 && is_text(kid.as_slice()) && secret.len() >= 8
}

fn is_listed_key(kid: &Short, key: &Short) -> bool
    ensures { IsTrue result ↔ IsListedKey kid.now key.now }
{
    let octets = key.as_slice();
    if octets.len() != 60 {
        return false;
    }
    let levels = levels_of(octets);
    let tree = tree_of(octets);
    let ots = ots_of(octets);
    levels >= 1
        && levels <= 8
        && tree >= 5
        && tree <= 9
        && ots >= 1
        && ots <= 4
        && kid.is(&key_id(octets))
}

fn is_named(c: &Credential) -> bool
    ensures { IsTrue result ↔ IsNamed c.now.kind c.now.kid c.now.material }
{
    match c.kind {
        Kind::Mac => is_reference(&c.kid, &c.material),
        Kind::Lms => is_listed_key(&c.kid, &c.material),
    }
}

/// Whether a reference was ever listed, or a key identifier stands somewhere.
fn stands(h: &[Change], kind: Kind, kid: &[u8]) -> bool
    ensures { result ≡ stands h.now kind kid.now }
{
    match kind {
        Kind::Mac => is_listed(h, Kind::Mac, kid),
        Kind::Lms => is_key_taken(h, kid),
    }
}

pub(crate) fn same_kind(a: Kind, b: Kind) -> bool
    ensures { result ≡ same_kind a b }
{
    match (a, b) {
        (Kind::Mac, Kind::Mac) => true,
        (Kind::Lms, Kind::Lms) => true,
        (Kind::Mac, Kind::Lms) => false,
        (Kind::Lms, Kind::Mac) => false,
    }
}

fn is_entry(kind: Kind, kid: &[u8], c: &Credential) -> bool
    ensures { result ≡ is_entry kind kid.now c.now }
{
    same_kind(c.kind, kind) && c.kid.as_slice() == kid
}

fn has_entry(kind: Kind, kid: &[u8], list: &[Credential]) -> bool
    ensures { result ≡ list_any (is_entry kind kid.now) list.now }
{
    list.iter().any(|c| is_entry(kind, kid, c))
}

/// Whether a credential is of its form, in use nowhere, and not among those behind it in its list.
fn is_new(h: &[Change], c: &Credential, more: &[Credential]) -> bool
    ensures { IsTrue result ↔ (IsNamed c.now.kind c.now.kid c.now.material × (stands h.now c.now.kind c.now.kid ≡ false) × (list_any (is_entry c.now.kind c.now.kid) more.now ≡ false)) }
{
    let kid = c.kid.as_slice();
    is_named(c) && !stands(h, c.kind, kid) && !has_entry(c.kind, kid, more)
}

/// Whether credentials may be listed together: each is of its form, in use nowhere, and stands once.
pub(crate) fn are_new(h: &[Change], list: &[Credential]) -> bool
    ensures { IsTrue result ↔ AreNew h.now list.now }
{
    let mut rest = list;
    while let [first, more @ ..] = rest {
        if !is_new(h, first, more) {
            return false;
        }
        rest = more;
    }
    true
}
