//! The words that ask for serving.
ghost use Rattle.std.specs.Prelude.{◌≡◌, ◌≤◌, ℕ, IfSome, map, string_bytes, Some};
ghost use Rattle.cmpca_serve.specs.declared.words.ServePlan.{ServePlan};
ghost use Rattle.cmpca_serve.specs.Words.{IsNumber, Serves};

use itoa::Buffer;

/// The last port.
const LAST_PORT: u32 = 65_535;

/// The most workers.
const MOST_WORKERS: u32 = 16;

/// The most connections of a worker.
const MOST_CONNECTIONS: u32 = 1_000_000;

/// What is asked for.
#[derive(Clone, Copy, Debug, PartialEq, Eq)]
pub struct ServePlan {
    /// The port of the doors, from 1 on.
    pub port: u16,
    /// How many workers serve, 1 to 16.
    pub workers: u32,
    /// How many connections each of them serves, 1 to 1,000,000.
    pub connections: u32,
}

/// The number from 1 on that a word spells in decimal, without a sign and without a zero before it, where it is at most this one.
fn read_number(word: &str, last: u32) -> Option<u32>
    ensures found { IfSome result (λ n. IsNumber last word.now n) }
    ensures only { (n : ℕ) → IsNumber last word.now n → result ≡ Some n }
{
    let Ok(number) = word.parse::<u32>() else {
        return None;
    };
    let mut digits = Buffer::new();
    if digits.format(number) != word {
        return None;
    }
    if number == 0 {
        return None;
    }
    if number > last {
        return None;
    }
    Some(number)
}

/// What these numbers ask for.
fn read_plan(port: &str, workers: &str, connections: &str) -> Option<ServePlan>
    ensures found { IfSome result (λ p. IsNumber 65535 port.now p.port × IsNumber 16 workers.now p.workers × IsNumber 1000000 connections.now p.connections) }
    ensures only { (p : ServePlan) → IsNumber 65535 port.now p.port → IsNumber 16 workers.now p.workers → IsNumber 1000000 connections.now p.connections → result ≡ Some p }
{
    let Some(port) = read_number(port, LAST_PORT) else {
        return None;
    };
    let Some(workers) = read_number(workers, MOST_WORKERS) else {
        return None;
    };
    let Some(connections) = read_number(connections, MOST_CONNECTIONS) else {
        return None;
    };
    Some(ServePlan {
        port: port as u16,
        workers,
        connections,
    })
}

/// What the words ask for, where they ask for serving: JOURNAL KEY `serve` PORT WORKERS CONNECTIONS ORDERS, with numbers in decimal
/// from 1 to 65,535, to 16 and to 1,000,000.
pub fn read_serve(words: &[String]) -> Option<ServePlan>
    ensures found { IfSome result (λ p. Serves (map string_bytes words.now) p) }
    ensures only { (p : ServePlan) → Serves (map string_bytes words.now) p → result ≡ Some p }
{
    match words {
        [_, _, verb, port, workers, connections, _] if verb.as_str() == "serve" => {
            read_plan(port.as_str(), workers.as_str(), connections.as_str())
        }
        _ => None,
    }
}
