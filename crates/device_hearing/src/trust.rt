//! Whether a device trusts a reply.
ghost use Rattle.std.specs.Prelude.{◌≡◌, ◌↔◌, IsTrue, IfOk};
ghost use Rattle.pki_message.specs.Message.{message_of};
ghost use Rattle.protect.specs.Holds.{ProtectionHolds};
ghost use Rattle.protect.specs.declared.key.Key.TheVariants as keys;
ghost use Rattle.intake.specs.Proven.{IsOfOctets};
ghost use Rattle.device_hearing.specs.Trust.{IsSignedReply, IsTrustedBy};

use crate::certificates::{first_in, signs_replies};
use crate::listener::ReplyGuard;
use pki_message::Message;
use protect::{CheckFault, Key, messages_are_checked, protection_ok};
use std::alloc::{AllocError, Global};

/// Whether the protection of a message holds under a key.
fn holds(alloc: Global, m: &Message, key: &Key) -> Result<bool, AllocError>
    requires { IsOfOctets (message_of m.now) }
    ensures { IfOk result (λ b. IsTrue b ↔ ProtectionHolds key.now (message_of m.now)) }
{
    messages_are_checked();
    match protection_ok(alloc, m, key) {
        Ok(holds) => Ok(holds),
        Err(CheckFault::BadAlg) => Ok(false),
        Err(CheckFault::NoMemory) => Err(AllocError),
    }
}

/// Whether the protection of a message holds under a public key, which has 60 octets where it is one of HSS.
fn holds_by(alloc: Global, m: &Message, key: &[u8]) -> Result<bool, AllocError>
    requires { IsOfOctets (message_of m.now) }
    ensures { IfOk result (λ b. IsTrue b ↔ ProtectionHolds (keys.Lms key.now) (message_of m.now)) }
{
    if key.len() != 60 {
        return Ok(false);
    }
    let mut public = [0u8; 60];
    public.copy_from_slice(key);
    holds(alloc, m, &Key::Lms(public))
}

/// Whether a message is signed by the key of the first of extraCerts, which signs the replies of a root's authority.
fn is_signed_reply(alloc: Global, root: &[u8], m: &Message) -> Result<bool, AllocError>
    requires { IsOfOctets (message_of m.now) }
    ensures { IfOk result (λ b. IsTrue b ↔ IsSignedReply root.now (message_of m.now)) }
{
    let Some(signer) = first_in(m.extra) else {
        return Ok(false);
    };
    if !signs_replies(root, &signer) {
        return Ok(false);
    }
    holds_by(alloc, m, signer.spki.key)
}

/// Whether a reply is trusted: by a guard, and the root that is known. `AllocError` where memory runs out.
pub fn is_trusted(
    alloc: Global,
    guard: &ReplyGuard,
    root: &Option<[u8; 60]>,
    m: &Message,
) -> Result<bool, AllocError>
    requires { IsOfOctets (message_of m.now) }
    ensures { IfOk result (λ b. IsTrue b ↔ IsTrustedBy guard.now root.now (message_of m.now)) }
{
    match guard {
        ReplyGuard::Mac(secret) => holds(alloc, m, &Key::Mac(*secret)),
        ReplyGuard::Signed => match root {
            Some(root) => is_signed_reply(alloc, root, m),
            None => Ok(false),
        },
    }
}
