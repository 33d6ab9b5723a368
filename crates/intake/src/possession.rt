//! Possession of the private key that a certificate is asked for (RFC 4211, 4, RFC 2986, 4.2, and RFC 9810, 5.2.8).
ghost use Rattle.std.specs.Prelude.{◌≡◌, ◌↔◌, Bool, IsTrue};
ghost use Rattle.deal_table.specs.Table.{is_possessed};
ghost use Rattle.pki_message.specs.Message.{message_of};
ghost use Rattle.pki_message.specs.Body.{body_of};
ghost use Rattle.intake.specs.Holds.{IsProven};
ghost use Rattle.intake.specs.Proven.{ForFacts, IsPossession};
ghost use Rattle.intake.specs.Told.{enrolling_told};

use crate::about::about;
use crate::bodies::{About, Enrolling};
use crate::wish::shows_key;
use deal_model::{Owner, VOUCH};
use deal_table::may;
use pki_message::Message;

/// Whether the sender of a request has the private key: by the word of one who may vouch, else by a signature.
pub(crate) fn shows_possession(owner: &Owner, e: &Enrolling, m: &Message) -> bool
    ensures { (proven : Bool) → (IsTrue proven ↔ IsProven (body_of m.now.body)) → is_possessed owner.now (enrolling_told proven e.now) ≡ result }
{
    if e.by_ra {
        may(VOUCH, owner)
    } else {
        shows_key(&m.body)
    }
}

/// Whether a message is a request for a certificate that shows that its sender has the private key: by the word of one who may
/// vouch for it, else by a signature under the key. Takes no memory; takes time as `check` does, so the protection is to be
/// checked before.
pub fn is_possessed(owner: &Owner, m: &Message) -> bool
    ensures { ForFacts (message_of m.now) (λ hashes f. IsPossession owner.now f.body result) }
{
    match about(m) {
        About::Enrols(e) => shows_possession(owner, &e, m),
        About::Confirms(_) => false,
        About::Polls(_) => false,
        About::Withdraws(_) => false,
        About::Nests(_) => false,
        About::Other => false,
    }
}
