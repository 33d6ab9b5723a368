//! Streams over TCP (RFC 9293) on the loopback interface, and the door that accepts them: the one crate over std's sockets. What a
//! socket gives or takes is told by no clause; each call that fails is a fault, and is counted.
#![tactic(auto)]

mod port_link;
mod stream;
mod tally;
mod tcp_door;
mod tcp_link;
#[cfg(test)]
mod tests;

pub use port_link::PortLink;
pub use tcp_door::{TcpDoor, listen};
pub use tcp_link::TcpLink;
