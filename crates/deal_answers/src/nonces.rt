//! The senderNonce that a transaction's next message has to repeat.
ghost use Rattle.std.specs.Prelude.{◌≡◌, option_copied, find, reverse, take};
ghost use Rattle.deal_model.specs.Views.{is_stamped_for, nonce_in, last_nonce};

use crate::kinds::is_stamped_for;
use deal_model::{Change, Stamp};

fn last_stamped<'a>(h: &'a [Change], tid: &[u8]) -> Option<&'a Change>
    ensures { option_copied result ≡ find (is_stamped_for tid.now) (reverse h.now) }
{
    h.iter().rev().find(|c| is_stamped_for(tid, c))
}

fn nonce_of(words: &[u8; 32]) -> [u8; 16]
    ensures { result ≡ take 16 words.now }
{
    let mut nonce = [0u8; 16];
    nonce.copy_from_slice(&words[..16]);
    nonce
}

fn nonce_in(stamp: Option<&Stamp>) -> Option<[u8; 16]>
    ensures { result ≡ nonce_in (option_copied stamp.entry) }
{
    match stamp {
        Some(stamp) => Some(nonce_of(&stamp.words)),
        None => None,
    }
}

/// The senderNonce of the last reply in a transaction, 16 octets (RFC 9810, 5.1.1); none where no message of it stands in the
/// history. The next message of the transaction has it as its recipNonce.
#[tactic(auto, unfolding(deal_model::specs::Views::last_nonce))]
pub fn last_nonce(h: &[Change], tid: &[u8]) -> Option<[u8; 16]>
    ensures { result ≡ last_nonce h.now tid.now }
{
    match last_stamped(h, tid) {
        Some(c) => nonce_in(c.stamp()),
        None => None,
    }
}
