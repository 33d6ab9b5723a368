//! The words of the command line.
ghost use Rattle.std.specs.Prelude.{◌≡◌, ◌≤◌, map, string_bytes, option_map};
ghost use Rattle.cmpca_tool.specs.declared.words.Command.TheVariants.{Verify, Dismiss};
ghost use Rattle.deal_changes.specs.declared.change.Kind.TheVariants.{Mac};
ghost use Rattle.cmpca_tool.specs.Words.{command_of, journal_command_of, lone_of, order_of, dismissal_of, octets_of, reference_of};

use cmp_ports::Short;
use deal_model::Kind;

/// The fewest and the most octets of a secret.
const SECRET_LEAST: usize = 8;

const SECRET_MOST: usize = 64;

/// The most octets of a transactionID.
const TID_MOST: usize = 64;

/// How many octets the identifier of an HSS/LMS key has.
const IDENTIFIER_SIZE: usize = 20;

/// What the words ask for.
#[derive(Clone, Copy)]
pub enum Command {
    /// To check the protection of a message under this secret.
    Verify {
        /// 8 to 64 octets.
        secret: Short,
    },
    /// To found a journal with the settings of a file.
    Init,
    /// To answer a message.
    Take,
    /// To tell how the history of a journal stands.
    Show,
    /// To list the credentials of a file.
    Enlist,
    /// To dismiss a credential.
    Dismiss {
        kind: Kind,
        /// The reference of a shared secret, in 1 to 64 octets, or the 20 octets of a key's identifier.
        id: Short,
    },
    /// To release a held request.
    Release {
        /// The transactionID, in 1 to 64 octets.
        tid: Short,
    },
    /// To deny a held request.
    Deny {
        /// The transactionID, in 1 to 64 octets.
        tid: Short,
    },
}

/// What the words ask for. `None` where they are of no form.
pub fn read_words(words: &[String]) -> Option<Command>
    ensures { result ≡ command_of (map string_bytes words.now) }
{
    match words {
        [verb, secret] if verb.as_str() == "verify" => read_verify(secret.as_str()),
        [_, _, asked @ ..] => read_journal_command(asked),
        _ => None,
    }
}

/// To verify under a secret of these digits.
fn read_verify(digits: &str) -> Option<Command>
    ensures { result ≡ option_map Verify (octets_of 8 64 digits.now) }
{
    match read_octets(digits, SECRET_LEAST, SECRET_MOST) {
        Some(secret) => Some(Command::Verify { secret }),
        None => None,
    }
}

/// What is asked for of a journal.
fn read_journal_command(asked: &[String]) -> Option<Command>
    ensures { result ≡ journal_command_of (map string_bytes asked.now) }
{
    match asked {
        [verb] => read_lone(verb.as_str()),
        [verb, word] => read_order(verb.as_str(), word.as_str()),
        [verb, kind, id] if verb.as_str() == "dismiss" => {
            read_dismissal(kind.as_str(), id.as_str())
        }
        _ => None,
    }
}

/// What a word asks for that stands alone.
fn read_lone(verb: &str) -> Option<Command>
    ensures { result ≡ lone_of verb.now }
{
    if verb == "init" {
        return Some(Command::Init);
    }
    if verb == "take" {
        return Some(Command::Take);
    }
    if verb == "show" {
        return Some(Command::Show);
    }
    if verb == "enlist" {
        return Some(Command::Enlist);
    }
    None
}

/// To release or to deny a held request.
fn read_order(verb: &str, digits: &str) -> Option<Command>
    ensures { result ≡ order_of verb.now digits.now }
{
    if verb == "release" {
        return match read_octets(digits, 1, TID_MOST) {
            Some(tid) => Some(Command::Release { tid }),
            None => None,
        };
    }
    if verb == "deny" {
        return match read_octets(digits, 1, TID_MOST) {
            Some(tid) => Some(Command::Deny { tid }),
            None => None,
        };
    }
    None
}

/// To dismiss a credential.
fn read_dismissal(kind: &str, id: &str) -> Option<Command>
    ensures { result ≡ dismissal_of kind.now id.now }
{
    if kind == "mac" {
        return match read_reference(id) {
            Some(id) => Some(Command::Dismiss {
                kind: Kind::Mac,
                id,
            }),
            None => None,
        };
    }
    if kind == "lms" {
        return match read_octets(id, IDENTIFIER_SIZE, IDENTIFIER_SIZE) {
            Some(id) => Some(Command::Dismiss {
                kind: Kind::Lms,
                id,
            }),
            None => None,
        };
    }
    None
}

/// A word of 1 to 64 octets.
fn read_reference(word: &str) -> Option<Short>
    ensures { result ≡ reference_of word.now }
{
    if word.is_empty() {
        return None;
    }
    Short::of(word.as_bytes())
}

/// The octets that hex digits of either case stand for, where there are so many.
fn read_octets(digits: &str, least: usize, most: usize) -> Option<Short>
    requires { most ≤ 64 }
    ensures { result ≡ octets_of least most digits.now }
{
    let size = digits.len() / 2;
    if size < least || size > most {
        return None;
    }
    let mut octets = [0u8; 64];
    match hex::decode_to_slice(digits, &mut octets[..size]) {
        Ok(()) => Short::of(&octets[..size]),
        Err(_) => None,
    }
}
