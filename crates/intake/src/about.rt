//! What the body of a message is about.
ghost use Rattle.std.specs.Prelude.{◌≡◌, ℕ, Bool, IsTrue, List, length};
ghost use Rattle.der_base.specs.Row.{items_of};
ghost use Rattle.deal_table.specs.History.{Receipted};
ghost use Rattle.pki_message.specs.Body.{IsInside, body_of};
ghost use Rattle.pki_message.specs.Message.{IsMessage, message_of};
ghost use Rattle.intake.specs.Bodies.{body_facts};
ghost use Rattle.intake.specs.Headers.{asks_implicit};
ghost use Rattle.intake.specs.Holds.{IsProven};
ghost use Rattle.intake.specs.Told.{about_told, IsLimited, FitsAbout};

use crate::bodies::About;
use crate::info::asks_implicit;
use crate::others::{confirming, polling, withdrawing};
use crate::requests::{crmf, p10};
use deal_changes::Body4;
use der_base::Items;
use pki_message::{Body, Message};

/// How many elements stand in a content, up to the first fault.
fn item_count(content: &[u8]) -> u64
    ensures { result ≡ length (items_of content.now) }
{
    let mut count = 0u64;
    for _item in Items::new(content) {
        count += 1;
    }
    count
}

/// What a body is about, where this says whether implicit confirmation is asked for.
fn body_about<'a>(body: &Body<'a>, implicit: bool) -> About<'a>
    ensures facts { (hashes : Receipted → List ℕ) (proven : Bool) → (IsTrue proven → IsProven (body_of body.now)) → body_facts hashes implicit proven (body_of body.now) ≡ about_told hashes proven result }
    ensures fits { (inside : List ℕ) → IsInside (body_of body.now) inside → IsLimited inside → FitsAbout result }
{
    match body {
        Body::Ir(list) => About::Enrols(crmf(Body4::Ir, implicit, list)),
        Body::Cr(list) => About::Enrols(crmf(Body4::Cr, implicit, list)),
        Body::Kur(list) => About::Enrols(crmf(Body4::Kur, implicit, list)),
        Body::P10cr(request) => About::Enrols(p10(implicit, request)),
        Body::CertConf(list) => About::Confirms(confirming(list)),
        Body::PollReq(list) => About::Polls(polling(list)),
        Body::Rr(list) => About::Withdraws(withdrawing(list)),
        Body::Nested(messages) => About::Nests(item_count(messages)),
        _ => About::Other,
    }
}

/// What the body of a message is about. Takes no memory. Takes time by the square of how many extensions it has, so the protection is
/// to be checked before.
pub(crate) fn about<'a>(m: &Message<'a>) -> About<'a>
    // The facts of the body, where this says whether the private key was shown.
    ensures facts { (hashes : Receipted → List ℕ) (proven : Bool) → (IsTrue proven → IsProven (message_of m.now).body) → body_facts hashes (asks_implicit (message_of m.now).head.info) proven (message_of m.now).body ≡ about_told hashes proven result }
    // A wish of what is asked for can be spelled.
    ensures fits { (bytes : List ℕ) → IsMessage bytes (message_of m.now) → FitsAbout result }
{
    body_about(&m.body, asks_implicit(m.header.info))
}
