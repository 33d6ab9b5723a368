//! What a message asks of the history, and what of it was checked.

use crate::states::Key60;
use cmp_values::Short;
use deal_changes::{Body4, Kind, Who, Wish};

/// What the history is asked about a message before it is checked.
#[derive(Clone, Copy, Debug)]
pub struct Ask {
    /// SHA-256 of the message as it was received.
    pub digest: [u8; 32],
    /// The transactionID, 1 to 64 octets (RFC 9810, 5.1.1); empty where only the place and the time are asked.
    pub tid: Short,
    /// How the message is protected; none where it isn't, or by another algorithm.
    pub kind: Option<Kind>,
    /// The senderKID; empty where it is absent or has more than 64 octets, and nobody has that identifier.
    pub kid: Short,
    /// The protection and the senderKID of the nested message around it, where there is one (RFC 9810, 5.1.3.5).
    pub outer: Option<(Kind, Short)>,
}

/// What a reply repeats of the message that it answers. The sender is borrowed from the message.
#[derive(Clone, Copy, Debug)]
pub struct Echo<'a> {
    /// The version of the reply, 2 or 3.
    pub pvno: u8,
    /// The sender, a GeneralName as it stands; empty where the message can't be read.
    pub sender: &'a [u8],
    /// The transactionID, where it has 1 to 64 octets.
    pub tid: Option<Short>,
    /// The senderNonce, where it has 16 to 64 octets.
    pub nonce: Option<Short>,
}

/// What a message is about, by its body.
#[derive(Debug, Drop)]
pub enum Job {
    /// The message stands in the history: its reply is sent again.
    Repeat,
    /// A request for a certificate: the body, and what is wished for.
    Enrol(Body4, Wish),
    /// A certConf (RFC 9810, 5.3.18).
    Confirm {
        /// Whether the certReqId is 0 or -1.
        id_ok: bool,
        /// The certHash, where it has 32 octets; else 32 zeros.
        hash: [u8; 32],
        /// Whether hashAlg is absent or SHA-256.
        hash_alg_ok: bool,
        /// How many statuses it has: 0, 1, or 2 for more.
        count: u8,
        /// The status: 0 to 2, or 3 for any other; 0 where it is absent.
        status: u8,
    },
    /// A pollReq (RFC 9810, 5.3.22).
    Poll {
        /// Whether it has exactly one entry, whose certReqId is 0 or -1.
        ids_ok: bool,
    },
    /// An rr (RFC 9810, 5.3.9): the serial number, where one of this authority is named, and the reason (RFC 5280, 5.3.1).
    Withdraw {
        serial: Option<u64>,
        reason: u8,
    },
}

/// What was checked of a message: who sent it, under which key, and what it is about.
#[derive(Debug, Drop)]
pub struct Checked<'a> {
    pub ask: Ask,
    /// The sender; of a message that stands in the history the certificate 0, which is never granted.
    pub who: Who,
    /// The secret or key under which the protection was checked; empty of a message that stands in the history.
    pub key: Key60,
    /// The messageTime, in seconds since 1970.
    pub message_time: Option<u64>,
    pub job: Job,
    pub echo: Echo<'a>,
    /// The recipNonce; none where it has more than 64 octets.
    pub recip_nonce: Option<Short>,
    /// Whether the sender showed that it has the private key, as a request has to.
    pub proven: bool,
    /// Whether the certReqId of a certConf or a pollReq is -1, as a request in the form of PKCS #10 has it.
    pub minus_one: bool,
    /// Whether a certConf's hash is that of the certificate; none where it wasn't asked yet, and of any other message.
    pub hash_ok: Option<bool>,
    /// The messageTime of the nested message around it; none where there is none.
    pub outer_time: Option<u64>,
    /// The secret or key under which the nested message around it was checked; none where there is none.
    pub outer_key: Option<Key60>,
}

/// What a look at the history tells of its settings, of a fixed size.
#[derive(Clone, Copy, Debug)]
pub struct Brief {
    /// The text of the authority's name, 1 to 58 octets.
    pub name: Short,
    /// How long a certificate waits for its confirmation, in seconds.
    pub wait: u32,
    /// How far a message's time may be from the service's, in seconds.
    pub skew: u32,
    /// The iterations of a reply's MAC.
    pub rounds: u32,
    /// After how many seconds a held request is to be asked for again.
    pub check_after: u32,
    /// How many days a certificate is valid.
    pub days: u32,
    /// The HSS key that signs certificates.
    pub issue_key: [u8; 60],
    /// The HSS key that signs replies.
    pub reply_key: [u8; 60],
}
