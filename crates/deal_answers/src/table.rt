//! All answers of a history together.
ghost use Rattle.std.specs.Prelude.{◌≡◌, ◌≤◌, ◌↔◌, length, IsSome, IfSome, IsTrue};
ghost use Rattle.std.specs.List.{list_all};
ghost use Rattle.deal_model.specs.Views.{AreTimely, table_of};
ghost use Rattle.deal_answers.specs.Times.{is_timely};

use crate::nonces::last_nonce;
use crate::standings::{standing_of, standing_of_who};
use crate::views::{certificate_state, is_key_taken, is_told, leaves_used, transaction_state};
use deal_model::{
    CertificateState, Change, DealState, Key, Kind, LATEST_TIME, MOST_CHANGES, Standing, Who,
};
use std::marker::Model;

fn is_timely(c: &Change) -> bool
    ensures { result ≡ is_timely c.now }
{
    c.time() <= LATEST_TIME
}

fn all_timely(h: &[Change]) -> bool
    ensures { result ≡ list_all is_timely h.now }
{
    h.iter().all(|c| is_timely(c))
}

#[tactic(auto, using(crate::proofs::Timely::times_test))]
fn are_timely(h: &[Change]) -> bool
    ensures { IsTrue result ↔ AreTimely h.now }
{
    all_timely(h)
}

/// All answers of a history, each computed when it is asked for. Contracts see it as the history.
#[derive(Drop)]
pub struct Table<'a> {
    history: &'a [Change],
}

impl<'a> Model for Table<'a> {
    ghost use Rattle.std.specs.Prelude.{◌≤◌, length};
    ghost use Rattle.deal_model.specs.Views.{AreTimely, History};

    ghost Value = { History };

    ghost view = { λ t. t.history.now };

    ghost invariant = { λ t. AreTimely t.history.now × (length t.history.now ≤ 262144) };
}

impl<'a> Table<'a> {
    /// The table of a history; none where a change is later than any clock may say, or there are more changes than a history
    /// may have.
    pub fn of(history: &'a [Change]) -> Option<Table<'a>>
        ensures some { IsSome result ↔ (AreTimely history.now × (length history.now ≤ 262144)) }
        ensures value { IfSome result (λ t. t ≡ history.now) }
    {
        if are_timely(history) && history.len() <= MOST_CHANGES {
            Some(Table { history })
        } else {
            None
        }
    }

    /// How the credential with this kind and identifier stands at a time.
    pub fn standing(&self, kind: Kind, kid: &[u8], t: u64) -> Standing
        ensures { result ≡ (table_of self.now).standing kind kid.now t }
    {
        standing_of(self.history, kind, kid, t)
    }

    /// How a sender stands at a time.
    pub fn sender(&self, who: &Who, t: u64) -> Standing
        ensures { result ≡ (table_of self.now).sender who.now t }
    {
        standing_of_who(self.history, who, t)
    }

    /// How the certificate with this serial number stands; none where none was granted.
    pub fn certificate(&self, serial: u64) -> Option<CertificateState>
        ensures { result ≡ (table_of self.now).certificate serial }
    {
        certificate_state(self.history, serial)
    }

    /// How a transaction stands.
    pub fn transaction(&self, tid: &[u8]) -> DealState
        ensures { result ≡ (table_of self.now).transaction tid.now }
    {
        transaction_state(self.history, tid)
    }

    /// Whether the requester of a denied transaction was told so.
    pub fn is_told(&self, tid: &[u8]) -> bool
        ensures { result ≡ (table_of self.now).told tid.now }
    {
        is_told(self.history, tid)
    }

    /// How many leaves of a key are used.
    pub fn used(&self, key: Key) -> u64
        ensures { result ≡ (table_of self.now).used key }
    {
        leaves_used(self.history, key)
    }

    /// The senderNonce of the last reply in a transaction; none where no message of it stands in the history.
    pub fn nonce(&self, tid: &[u8]) -> Option<[u8; 16]>
        ensures { result ≡ (table_of self.now).nonce tid.now }
    {
        last_nonce(self.history, tid)
    }

    /// Whether a key identifier stands somewhere.
    pub fn is_taken(&self, kid: &[u8]) -> bool
        ensures { result ≡ (table_of self.now).taken kid.now }
    {
        is_key_taken(self.history, kid)
    }
}
