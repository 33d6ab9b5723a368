//! An order of the operator, and the line of text that gives it.
ghost use Rattle.std.specs.Prelude.{◌≡◌, List, Some, IfSome, ℕ};
ghost use Rattle.cmp_ports.specs.Orders.{SpellsTid, IsOrderLine};

use cmp_values::{SHORT_LIMIT, Short};

/// What is to become of a held request, by its transactionID of 1 to 64 octets.
#[derive(Clone, Copy, Debug, PartialEq, Eq)]
pub enum Order {
    /// The certificate is to be granted.
    Release(Short),
    /// The request is to be refused.
    Deny(Short),
    /// No order.
    Bad,
}

/// The order of a line without its end: `release TID` or `deny TID`, with the identifier in 2 to 128 hex digits of
/// either case. Every other line is a bad order.
pub fn order_of_line(line: &[u8]) -> Order
    ensures { IsOrderLine line.now result }
{
    if let Some(digits) = line.strip_prefix(b"release ") {
        return match tid_of(digits) {
            Some(tid) => Order::Release(tid),
            None => Order::Bad,
        };
    }
    let Some(digits) = line.strip_prefix(b"deny ") else {
        return Order::Bad;
    };
    match tid_of(digits) {
        Some(tid) => Order::Deny(tid),
        None => Order::Bad,
    }
}

// The identifier that hex digits of either case stand for, where they are 2 to 128.
fn tid_of(digits: &[u8]) -> Option<Short>
    ensures value { IfSome result (λ tid. SpellsTid digits.now tid) }
    ensures only { (tid : List ℕ) → SpellsTid digits.now tid → result ≡ Some tid }
{
    let size = digits.len() / 2;
    if size == 0 || size > SHORT_LIMIT {
        return None;
    }
    let mut octets = [0u8; SHORT_LIMIT];
    match hex::decode_to_slice(digits, &mut octets[..size]) {
        Ok(()) => Short::of(&octets[..size]),
        Err(_) => None,
    }
}
