//! To whom a credential belongs, and how it stands.
ghost use Rattle.std.specs.Prelude.{◌≡◌, ◌≤◌, ◌||◌, not, nat_le, Option, IfSome, option_copied, option_map, find, is_some};
ghost use Rattle.deal_model.specs.Keys.{key_id, key_of, is_lms_key};
ghost use Rattle.deal_model.specs.Views.{same, settings_of, not_after, IsTimely, AreTimely, is_entry, is_grant_of, certificate_state, owner_of_credential, granted_owner, owner_in, has_owner, owner_of, is_confirmed, is_past, is_over, is_barred, other_kind, standing_with, standing_of, standing_of_grant, standing_of_who};

use crate::keys::{is_lms_key, key_id, key_of};
use crate::kinds::{is_entry, other_kind, same};
use crate::views::{certificate_state, founding, grant_of, is_dismissed};
use cmp_values::Short;
use deal_model::{CertificateState, Change, Credential, Kind, Owner, Standing, Who};

fn owner_of_credential(c: &Credential) -> Owner
    ensures { result ≡ owner_of_credential c.now }
{
    Owner {
        who: Who::Listed(c.kind, c.kid),
        key: c.material,
        rights: c.rights,
    }
}

fn entry<'a>(kind: Kind, kid: &[u8], list: &'a [Credential]) -> Option<&'a Credential>
    ensures { option_copied result ≡ find (is_entry kind kid.now) list.now }
{
    list.iter().find(|c| is_entry(kind, kid, c))
}

fn listed_owner(kind: Kind, kid: &[u8], list: &[Credential]) -> Option<Owner>
    ensures { result ≡ option_map owner_of_credential (find (is_entry kind kid.now) list.now) }
{
    match entry(kind, kid, list) {
        Some(c) => Some(owner_of_credential(c)),
        None => None,
    }
}

fn granted_owner(kid: &[u8], spki: &[u8], serial: u64) -> Option<Owner>
    ensures { result ≡ granted_owner kid.now spki.now serial }
{
    let key = key_of(spki);
    if is_lms_key(spki) && same(&key_id(key), kid) {
        match Short::of(key) {
            Some(key) => Some(Owner {
                who: Who::Cert(serial),
                key,
                rights: 1,
            }),
            None => None,
        }
    } else {
        None
    }
}

fn owner_in(kind: Kind, kid: &[u8], c: &Change) -> Option<Owner>
    ensures { result ≡ owner_in kind kid.now c.now }
{
    match c {
        Change::Enlist { list, .. } => listed_owner(kind, kid, list.as_slice()),
        Change::Grant { wish, serial, .. } => match kind {
            Kind::Mac => None,
            Kind::Lms => granted_owner(kid, wish.spki.as_slice(), *serial),
        },
        _ => None,
    }
}

fn has_owner(kind: Kind, kid: &[u8], c: &Change) -> bool
    ensures { result ≡ has_owner kind kid.now c.now }
{
    owner_in(kind, kid, c).is_some()
}

fn owner_change<'a>(h: &'a [Change], kind: Kind, kid: &[u8]) -> Option<&'a Change>
    ensures { option_copied result ≡ find (has_owner kind kid.now) h.now }
{
    h.iter().find(|c| has_owner(kind, kid, c))
}

/// To whom a credential belongs; none where nobody has it.
#[tactic(auto, unfolding(deal_model::specs::Views::owner_of))]
pub fn owner_of(h: &[Change], kind: Kind, kid: &[u8]) -> Option<Owner>
    ensures { result ≡ owner_of h.now kind kid.now }
{
    match owner_change(h, kind, kid) {
        Some(c) => owner_in(kind, kid, c),
        None => None,
    }
}

/// Whether a certificate is confirmed.
pub fn is_confirmed(state: Option<CertificateState>) -> bool
    ensures { result ≡ is_confirmed state }
{
    match state {
        Some(CertificateState::Confirmed) => true,
        Some(CertificateState::Open { .. }) => false,
        Some(CertificateState::Revoked { .. }) => false,
        None => false,
    }
}

fn days_of(h: &[Change]) -> u32
    ensures { result ≡ (settings_of h.now).days }
{
    match founding(h) {
        Some(settings) => settings.days,
        None => 0,
    }
}

/// The last second at which a certificate that was granted at this time is valid.
pub fn not_after(h: &[Change], time: u64) -> u64
    requires { time ≤ 250000000000 }
    ensures { result ≡ not_after h.now time }
{
    (time + 86_400 * u64::from(days_of(h))).saturating_sub(1)
}

fn is_past(h: &[Change], t: u64, granted: u64) -> bool
    requires { granted ≤ 250000000000 }
    ensures { result ≡ is_past h.now t granted }
{
    not_after(h, granted) < t
}

fn is_over(h: &[Change], t: u64, found: Option<&Change>) -> bool
    requires { IfSome (option_copied found) IsTimely }
    ensures { result ≡ is_over h.now t (option_copied found.entry) }
{
    match found {
        Some(Change::Grant { stamp, .. }) => is_past(h, t, stamp.time),
        _ => true,
    }
}

fn is_grant_over(h: &[Change], t: u64, serial: u64) -> bool
    requires { AreTimely h.now }
    ensures { result ≡ is_over h.now t (find (is_grant_of serial) h.now) }
{
    is_over(h, t, grant_of(h, serial))
}

fn is_barred(h: &[Change], t: u64, who: &Who) -> bool
    requires { AreTimely h.now }
    ensures { result ≡ is_barred h.now t who.now }
{
    match who {
        Who::Listed(kind, kid) => is_dismissed(h, *kind, kid.as_slice()),
        Who::Cert(serial) => {
            !is_confirmed(certificate_state(h, *serial)) || is_grant_over(h, t, *serial)
        }
    }
}

fn standing_with(h: &[Change], t: u64, owner: Option<Owner>, stranger: bool) -> Standing
    requires { AreTimely h.now }
    ensures { result ≡ standing_with h.now t owner stranger }
{
    match owner {
        Some(o) => {
            if is_barred(h, t, &o.who) {
                Standing::Barred
            } else {
                Standing::Good {
                    who: o.who,
                    key: o.key,
                    rights: o.rights,
                }
            }
        }
        None => {
            if stranger {
                Standing::OtherKind
            } else {
                Standing::Unknown
            }
        }
    }
}

/// How the credential with this kind and identifier stands at a time.
#[tactic(auto, unfolding(deal_model::specs::Views::standing_of))]
pub fn standing_of(h: &[Change], kind: Kind, kid: &[u8], t: u64) -> Standing
    requires { AreTimely h.now }
    ensures { result ≡ standing_of h.now kind kid.now t }
{
    let stranger = owner_of(h, other_kind(kind), kid).is_some();
    standing_with(h, t, owner_of(h, kind, kid), stranger)
}

fn standing_of_grant(h: &[Change], t: u64, found: Option<&Change>) -> Standing
    requires { AreTimely h.now }
    ensures { result ≡ standing_of_grant h.now t (option_copied found.entry) }
{
    match found {
        Some(Change::Grant { wish, .. }) => {
            let kid = key_id(key_of(wish.spki.as_slice()));
            standing_of(h, Kind::Lms, &kid, t)
        }
        _ => Standing::Unknown,
    }
}

/// How a sender stands at a time: of a certificate, the key that was granted.
pub fn standing_of_who(h: &[Change], who: &Who, t: u64) -> Standing
    requires { AreTimely h.now }
    ensures { result ≡ standing_of_who h.now who.now t }
{
    match who {
        Who::Listed(kind, kid) => standing_of(h, *kind, kid.as_slice(), t),
        Who::Cert(serial) => standing_of_grant(h, t, grant_of(h, *serial)),
    }
}
