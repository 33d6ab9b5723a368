//! What octets ask of the history.
ghost use Rattle.std.specs.Prelude.{◌≡◌, true, Option, Some, None, IfSome, option_map};
ghost use Rattle.std.specs.Option.{option_copied};
ghost use Rattle.pki_message.specs.Message.{MessageForm, IsMessage, message_of};
ghost use Rattle.pki_message.specs.Body.{body_of};
ghost use Rattle.deal_table.specs.Message.{echo_of, echoed};
ghost use Rattle.deal_table.specs.Table.{pass, header_rows};
ghost use Rattle.pki_header.specs.Header.{head_of};
ghost use Rattle.intake.specs.Bodies.{nested_inside};
ghost use Rattle.intake.specs.Headers.{header_of};
ghost use Rattle.intake.specs.Letter.{IsReading};
ghost use Rattle.intake.specs.Made.{heading_of, credential_of, IsAskFor, IsMadeOf};
ghost use Rattle.intake.specs.Intake.{IsIntake};

use crate::header::{echo, fault, kid, kind, transaction};
use crate::request::Request;
use cmp_values::{FailInfo, Short};
use deal_changes::Kind;
use deal_model::{Ask, Echo};
use pki_header::Header;
use pki_message::{Body, Message, read_message};
use sha2::{Digest, Sha256};

/// What octets are, before anything is asked of the history.
#[derive(Clone, Copy, Debug)]
pub enum Intake<'a> {
    /// They are refused for this reason, and the refusal repeats this.
    Stop { fail: FailInfo, echo: Echo<'a> },
    /// They are a message that asks something of the history.
    Go(Request<'a>),
}

/// What a refusal of octets that are no message repeats.
const NOTHING: Echo<'static> = Echo {
    pvno: 3,
    sender: &[],
    tid: None,
    nonce: None,
};

/// The message that octets are.
pub(crate) fn message_in(bytes: &[u8]) -> Option<Message<'_>>
    ensures one { (o : Option MessageForm) → IsReading bytes.now o → o ≡ option_map message_of result }
    ensures found { IfSome result (λ m. IsMessage bytes.now (message_of m)) }
{
    match read_message(bytes) {
        Ok(message) => Some(message),
        Err(_) => None,
    }
}

/// What is asked about octets, which are this message or none, under the credential of the message around them.
fn ask_about(bytes: &[u8], message: &Option<Message>, outer: Option<(Kind, Short)>) -> Ask
    ensures { IsAskFor bytes.now (heading_of (option_map message_of message.now)) outer result }
{
    let digest = Sha256::digest(bytes);
    match message {
        None => Ask {
            digest,
            tid: Short::empty(),
            kind: None,
            kid: Short::empty(),
            outer,
        },
        Some(m) => Ask {
            digest,
            tid: transaction(&m.header).unwrap_or(Short::empty()),
            kind: kind(&m.header.alg),
            kid: kid(&m.header),
            outer,
        },
    }
}

/// What a refusal repeats of octets, which are this message or none.
fn echo_in<'a>(message: &Option<Message<'a>>) -> Echo<'a>
    ensures { echoed result ≡ echo_of (heading_of (option_map message_of message.now)) }
{
    match message {
        None => NOTHING,
        Some(m) => echo(&m.header),
    }
}

/// What stands inside a nested message.
pub(crate) fn nested_in<'a>(body: &Body<'a>) -> Option<&'a [u8]>
    ensures { option_copied result ≡ nested_inside (body_of body.now) }
{
    match body {
        Body::Nested(inside) => Some(*inside),
        _ => None,
    }
}

/// The credential of a message around another one, where it is of a kind that is served.
fn credential(header: &Header) -> Option<(Kind, Short)>
    ensures { result ≡ credential_of (header_of (head_of header.now) header.now.time) }
{
    match kind(&header.alg) {
        None => None,
        Some(kind) => Some((kind, kid(header))),
    }
}

/// The request of a message that nests another one.
fn nested_request<'a>(bytes: &'a [u8], around: &Message<'a>, inside: &'a [u8]) -> Request<'a>
    requires one { (o : Option MessageForm) → IsReading bytes.now o → o ≡ Some (message_of around.now) }
    requires found { IsMessage bytes.now (message_of around.now) }
    requires header { pass (header_rows (heading_of (Some (message_of around.now)))) ≡ true }
    requires nested { nested_inside (body_of around.now.body) ≡ Some inside.now }
    ensures octets { result.bytes.now ≡ bytes.now }
    ensures made { (o : Option MessageForm) → IsReading inside.now o → IsMadeOf inside.now (heading_of o) (heading_of (Some (message_of around.now))) (credential_of (heading_of (Some (message_of around.now)))) result.ask result.echo result.outer_echo }
{
    let inner = message_in(inside);
    let outer = credential(&around.header);
    let ask = ask_about(inside, &inner, outer);
    Request {
        bytes,
        ask,
        echo: echo_in(&inner),
        outer_echo: echo(&around.header),
    }
}

/// The request of a message that nests no other one.
fn plain_request<'a>(bytes: &'a [u8], message: &Message<'a>) -> Request<'a>
    requires one { (o : Option MessageForm) → IsReading bytes.now o → o ≡ Some (message_of message.now) }
    requires found { IsMessage bytes.now (message_of message.now) }
    requires header { pass (header_rows (heading_of (Some (message_of message.now)))) ≡ true }
    requires alone { nested_inside (body_of message.now.body) ≡ None }
    ensures octets { result.bytes.now ≡ bytes.now }
    ensures made { IsMadeOf bytes.now (heading_of (Some (message_of message.now))) (heading_of (Some (message_of message.now))) None result.ask result.echo result.outer_echo }
{
    let ask = ask_about(bytes, &Some(*message), None);
    Request {
        bytes,
        ask,
        echo: echo(&message.header),
        outer_echo: echo(&message.header),
    }
}

/// Reads a message and says what is asked of the history about it, or why it is refused before anything is asked: the octets are no
/// message, the version isn't served, or the transactionID or the senderNonce is absent or of a wrong length (RFC 9810, 5.1.1).
/// Takes no memory.
pub fn ask_of(bytes: &[u8]) -> Intake<'_>
    ensures { IsIntake bytes.now result }
{
    let Some(message) = message_in(bytes) else {
        return Intake::Stop {
            fail: FailInfo::BadDataFormat,
            echo: NOTHING,
        };
    };
    if let Some(fail) = fault(&message.header) {
        return Intake::Stop {
            fail,
            echo: echo(&message.header),
        };
    }
    match nested_in(&message.body) {
        Some(inside) => Intake::Go(nested_request(bytes, &message, inside)),
        None => Intake::Go(plain_request(bytes, &message)),
    }
}
