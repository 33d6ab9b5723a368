//! What is left of checked messages.
ghost use Rattle.std.specs.Prelude.{◌≡◌, ◌≤◌, length};

use cmp_values::Short;
use deal_model::{Ask, Checked, Echo, Job, Kind, Who};

/// These octets, at most 64.
pub(crate) fn short(octets: &[u8]) -> Short
    requires { length octets.now ≤ 64 }
    ensures { result ≡ octets.now }
{
    match Short::of(octets) {
        Some(octets) => octets,
        None => unreachable!(),
    }
}

/// 16 octets in a row, the first one being this.
fn row(first: u8) -> [u8; 16] {
    let mut octets = [0u8; 16];
    let mut next = first;
    for octet in octets.iter_mut() {
        *octet = next;
        next = next.wrapping_add(1);
    }
    octets
}

/// What a message by a reference in a transaction asks of the history.
pub(crate) fn asked(reference: &[u8], tid: &[u8]) -> Ask
    requires reference { length reference.now ≤ 64 }
    requires tid { length tid.now ≤ 64 }
{
    Ask {
        digest: [0; 32],
        tid: short(tid),
        kind: Some(Kind::Mac),
        kid: short(reference),
        outer: None,
    }
}

/// How a message differs from others.
#[derive(Clone, Copy)]
pub(crate) struct Sent {
    pub ask: Ask,
    /// The first octet of the words of the reply that it answers.
    pub words: u8,
    pub minus_one: bool,
    pub hash_ok: Option<bool>,
    pub outer_time: Option<u64>,
}

pub(crate) fn plain(ask: Ask, words: u8) -> Sent {
    Sent {
        ask,
        words,
        minus_one: false,
        hash_ok: Some(true),
        outer_time: None,
    }
}

/// What is left of such a message.
pub(crate) fn checked(sent: Sent, job: Job) -> Checked<'static> {
    let ask = sent.ask;
    let tid = ask.tid;
    let kid = ask.kid;
    let key = short(b"secret-1");
    let nonce = short(&row(0x50));
    let recip_nonce = short(&row(sent.words));
    Checked {
        ask,
        who: Who::Listed(Kind::Mac, kid),
        key,
        message_time: None,
        job,
        echo: Echo {
            pvno: 2,
            sender: &[],
            tid: Some(tid),
            nonce: Some(nonce),
        },
        recip_nonce: Some(recip_nonce),
        proven: true,
        minus_one: sent.minus_one,
        hash_ok: sent.hash_ok,
        outer_time: sent.outer_time,
        outer_key: None,
    }
}
