//! Who sent a message, and when.
ghost use Rattle.std.specs.Prelude.{◌≡◌, ◌↔◌, ◌&&◌, ℕ, List, Some, false, IfOk, IfErr, IsTrue, is_some, option_map};
ghost use Rattle.deal_model.specs.declared.states.Owner.{Owner};
ghost use Rattle.deal_table.specs.Table.{Decision, guard_by, proven_by, trusted_by};
ghost use Rattle.pki_message.specs.Message.{message_of};
ghost use Rattle.protect.specs.Holds.{ProtectionHolds};
ghost use Rattle.intake.specs.Holds.{key_by};
ghost use Rattle.intake.specs.Proven.{ForFacts, IsOfOctets, IsBack, IsVerified};
ghost use Rattle.intake.specs.Checking.{IsProtection, IsKnown, IsTrusted, IsKeyBy};
ghost use Rattle.std.specs.Option.{option_copied};
ghost use Rattle.asn_types.specs.Algorithm.{algorithm_of};
ghost use Rattle.intake.specs.Headers.{kind_of};

use crate::header::kind;
use crate::unfit::Unfit;
use cmp_values::FailInfo;
use deal_changes::Kind;
use deal_model::{Key60, Owner, Standing};
use deal_table::is_apart;
use pki_message::Message;
use protect::{CheckFault, Key, messages_are_checked, protection_ok};
use std::alloc::{AllocError, Global};

/// A sender that is known and whose protection verifies.
#[derive(Clone, Copy, Debug)]
pub struct Sender {
    /// To whom the credential belongs, with its secret or key and its rights.
    pub owner: Owner,
    /// Its secret protects what it is answered.
    pub guarded: bool,
}

/// A refusal that nothing protects.
fn bare(fail: FailInfo, to_outer: bool) -> Unfit
    ensures { result ≡ Unfit.Refused fail false to_outer }
{
    Unfit::Refused {
        fail,
        guarded: false,
        to_outer,
    }
}

/// How a message is protected, or why it isn't.
fn protection_kind(m: &Message) -> Result<Kind, FailInfo>
    ensures { IsProtection (is_some (option_copied m.now.protection) && is_some (option_map algorithm_of m.now.header.alg)) (kind_of (option_map algorithm_of m.now.header.alg)) result }
{
    if m.protection.is_none() || m.header.alg.is_none() {
        return Err(FailInfo::BadMessageCheck);
    }
    match kind(&m.header.alg) {
        None => Err(FailInfo::BadAlg),
        Some(kind) => Ok(kind),
    }
}

/// To whom a good credential belongs, or why it isn't good.
fn known(standing: &Standing) -> Result<Owner, FailInfo>
    ensures { IsKnown standing.now result }
{
    match standing {
        Standing::Unknown => Err(FailInfo::SignerNotTrusted),
        Standing::OtherKind => Err(FailInfo::WrongIntegrity),
        Standing::Barred => Err(FailInfo::NotAuthorized),
        Standing::Good { who, key, rights } => Ok(Owner {
            who: *who,
            key: *key,
            rights: *rights,
        }),
    }
}

/// The key that a protection of this kind is checked under; none where it isn't a key of 60 octets.
fn check_key(kind: Kind, key: &Key60) -> Option<Key>
    ensures { IsKeyBy kind key.now result }
{
    match kind {
        Kind::Mac => Some(Key::Mac(*key)),
        Kind::Lms => {
            let octets = key.as_slice();
            if octets.len() != 60 {
                return None;
            }
            let mut public = [0u8; 60];
            public.copy_from_slice(octets);
            Some(Key::Lms(public))
        }
    }
}

/// Whether the protection of a message of this kind verifies under a secret or public key.
fn verifies(alloc: Global, m: &Message, kind: Kind, key: &Key60) -> Result<bool, AllocError>
    requires { IsOfOctets (message_of m.now) }
    ensures { IfOk result (λ b. IsTrue b ↔ ProtectionHolds (key_by kind key.now) (message_of m.now)) }
{
    messages_are_checked();
    let Some(key) = check_key(kind, key) else {
        return Ok(false);
    };
    match protection_ok(alloc, m, &key) {
        Ok(holds) => Ok(holds),
        Err(CheckFault::BadAlg) => Ok(false),
        Err(CheckFault::NoMemory) => Err(AllocError),
    }
}

/// Whether a secret protects what is answered to a sender of this kind.
fn is_guarded(kind: Kind) -> bool
    ensures { (kid : List ℕ) (o : Owner) → is_some (guard_by (Some kind) kid o) ≡ result }
{
    match kind {
        Kind::Mac => true,
        Kind::Lms => false,
    }
}

/// Who sent a message, by how the credential stands that it names: the message is protected, by a kind that is served, its sender is
/// known and good, and the protection verifies under the sender's secret or key. `Refused` where one of these rows of the table
/// applies, to the outer header or the message's own, and unprotected; `NoMemory` where memory runs out.
pub fn proven(alloc: Global, m: &Message, standing: &Standing, outer: bool) -> Result<Sender, Unfit>
    requires { IsOfOctets (message_of m.now) }
    ensures verified { IfOk result (λ s. ForFacts (message_of m.now) (λ hashes f. IsVerified standing.now outer f s)) }
    ensures refused { IfErr result (λ u. ForFacts (message_of m.now) (λ hashes f. IsBack (Owner → Decision) (proven_by standing.now outer f) u)) }
{
    let kind = match protection_kind(m) {
        Ok(kind) => kind,
        Err(fail) => return Err(bare(fail, outer)),
    };
    let owner = match known(standing) {
        Ok(owner) => owner,
        Err(fail) => return Err(bare(fail, outer)),
    };
    let Ok(holds) = verifies(alloc, m, kind, &owner.key) else {
        return Err(Unfit::NoMemory);
    };
    if !holds {
        return Err(bare(FailInfo::BadMessageCheck, outer));
    }
    Ok(Sender {
        owner,
        guarded: is_guarded(kind),
    })
}

/// The same, and the message's time is near enough to the event's.
pub(crate) fn trusted(
    alloc: Global,
    m: &Message,
    standing: &Standing,
    skew: u32,
    event: u64,
    outer: bool,
) -> Result<Sender, Unfit>
    requires { IsOfOctets (message_of m.now) }
    ensures ok { IfOk result (λ s. ForFacts (message_of m.now) (λ hashes f. IsTrusted standing.now skew event outer f s)) }
    ensures err { IfErr result (λ u. ForFacts (message_of m.now) (λ hashes f. IsBack (Owner → Decision) (trusted_by standing.now skew event outer f) u)) }
{
    let sender = match proven(alloc, m, standing, outer) {
        Ok(sender) => sender,
        Err(unfit) => return Err(unfit),
    };
    if is_apart(skew, event, m.header.time) {
        return Err(Unfit::Refused {
            fail: FailInfo::BadTime,
            guarded: sender.guarded,
            to_outer: outer,
        });
    }
    Ok(sender)
}
