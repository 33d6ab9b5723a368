//! A law of octets and their letters: there is one, and one alone, so that what is decided of the letter is decided of the octets.
#![tactic(auto)]

ghost use Rattle.std.specs.Prelude.{◌≡◌, [], Option, option_map, unwrap_or};
ghost use Rattle.pki_message.specs.Body.{body_of};
ghost use Rattle.intake.specs.Bodies.{nested_inside};
ghost use Rattle.pki_message.specs.Message.{MessageForm, message_of};
ghost use Rattle.intake.specs.Letter.{IsReading, inside_of};
ghost use Rattle.letter_laws.specs.Laws.{HasLetter, HasOneLetter};

use pbmac_grammar::params_are_spelled;
use pki_message::{Body, Message, read_message};

/// The message that octets are.
fn message_in(bytes: &[u8]) -> Option<Message<'_>>
    ensures one { (o : Option MessageForm) → IsReading bytes.now o → o ≡ option_map message_of result }
    ensures found { IsReading bytes.now (option_map message_of result) }
{
    match read_message(bytes) {
        Ok(message) => Some(message),
        Err(_) => None,
    }
}

/// The octets inside a nested message, and none of another one.
fn inside<'a>(message: &Option<Message<'a>>) -> &'a [u8]
    ensures { result.now ≡ inside_of (option_map message_of message.now) }
{
    match message {
        Some(m) => nested(&m.body),
        None => &[],
    }
}

fn nested<'a>(body: &Body<'a>) -> &'a [u8]
    ensures { result.now ≡ unwrap_or (nested_inside (body_of body.now)) [] }
{
    match body {
        Body::Nested(octets) => octets,
        _ => &[],
    }
}

/// The octets have a letter, and any two letters of them agree: in all that is no function, and for every secret or key in what
/// verifies under it.
pub fn each_has_one_letter(bytes: &[u8])
    ensures some { HasLetter bytes.now }
    ensures one { HasOneLetter bytes.now }
{
    params_are_spelled();
    let outer = message_in(bytes);
    let inner = message_in(inside(&outer));
}
