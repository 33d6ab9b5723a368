//! Lines on standard error: why a device failed, and what helps where a run is refused. A line that can't be written is left out.

use cmpca_tool::Status;
use std::io;

/// The words, where they are of no form.
const WORDS: &str =
    "SECRET is hex, 8 to 64 octets; COMMAND is init, take, show, enlist, dismiss mac REFERENCE, dismiss lms ID, release TID, deny TID or serve PORT WORKERS CONNECTIONS ORDERS";

/// The line of a setting at fault, before its key.
const BAD_SETTING: &str = "refused bad setting ";

/// The first octet of a reply in DER: a SEQUENCE (X.690, 8.9).
const SEQUENCE: u8 = 0x30;

/// The settings, by their keys, and what each may be.
const SETTINGS: [(&str, &str); 10] = [
    ("name", "a text of 1 to 58 octets"),
    ("issue_tree", "5, 6 or 7, for a tree of height 5, 10 or 15"),
    ("reply_tree", "5, 6 or 7, for a tree of height 5, 10 or 15"),
    ("issue_ots", "1, 2, 3 or 4, for w of 1, 2, 4 or 8"),
    ("reply_ots", "1, 2, 3 or 4, for w of 1, 2, 4 or 8"),
    ("wait", "1 to 604800 seconds"),
    ("skew", "0 to 86400 seconds"),
    ("rounds", "1 to 200000 iterations of PBKDF2"),
    ("check_after", "1 to 86400 seconds"),
    ("days", "1 to 36500 days"),
];

/// What is told of another key.
const NO_SETTING: &str =
    "the keys are name, issue_tree, reply_tree, issue_ots, reply_ots, wait, skew, rounds, check_after and days, and no other";

/// What a setting may be.
fn range_of(key: &str) -> &'static str {
    for (word, range) in SETTINGS {
        if word == key {
            return range;
        }
    }
    NO_SETTING
}

/// The system's words for an error, without its number.
fn words_of(text: &str) -> &str {
    match text.split_once(" (os error") {
        Some((words, _)) => words,
        None => text,
    }
}

/// Tells why a device failed, where it did. Answers whether it did.
pub fn tell_why(rt: &HostRuntime, name: &str, why: Option<io::Error>) -> bool {
    let Some(error) = why else {
        return false;
    };
    let _ = match format!(in rt.alloc(); "{error}") {
        Ok(text) => {
            let words = words_of(text.as_str());
            eprintln!(rt; "cmpca: {name}: {words}")
        }
        Err(_) => eprintln!(rt; "cmpca: {name}: {error}"),
    };
    true
}

/// Tells why a port failed, where it did. Answers whether it did.
pub fn tell_port(rt: &HostRuntime, port: u16, why: Option<io::Error>) -> bool {
    match format!(in rt.alloc(); "port {port}") {
        Ok(name) => tell_why(rt, name.as_str(), why),
        Err(_) => tell_why(rt, "port", why),
    }
}

/// Tells that words name one file for two roles.
pub fn tell_one_file(rt: &HostRuntime, path: &str) {
    let _ = eprintln!(rt; "cmpca: {path}: JOURNAL and KEY are one file");
}

/// Warns of a key file that others may read.
pub fn warn_of_readers(rt: &HostRuntime, path: &str) {
    let _ = eprintln!(rt; "cmpca: warning: {path}: others may read the private keys (chmod 600)");
}

/// Tells what helps after a run that ended so, having written these octets first.
pub fn advise(rt: &HostRuntime, status: Status, written: &[u8]) {
    if status == Status::Done {
        return;
    }
    if status == Status::Usage {
        let _ = eprintln!(rt; "cmpca: {WORDS}");
        return;
    }
    if let [SEQUENCE, ..] = written {
        let _ = eprintln!(rt;
            "cmpca: refused; the reply on standard output is an error message in DER"
        );
        return;
    }
    let text = std::str::from_utf8(written).unwrap_or("");
    let line = text.lines().next().unwrap_or("");
    let _ = match line.strip_prefix(BAD_SETTING) {
        Some(key) => {
            let range = range_of(key);
            eprintln!(rt; "cmpca: {line}: {range}")
        }
        None => eprintln!(rt; "cmpca: {line}"),
    };
}
