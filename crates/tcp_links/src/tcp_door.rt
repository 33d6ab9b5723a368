//! A door that accepts streams.
ghost use Rattle.std.specs.Prelude.{◌≡◌, IfOk, IsErr, MatchResult, None};
ghost use Rattle.cmp_links.specs.Links.{IsUntouched, Stays};
ghost use Rattle.cmp_ports.specs.Faults.{CountedOnce, HasCause, counted};
ghost use Rattle.tcp_links.specs.Untold.{none_listed, untold};

use crate::tally::Tally;
use crate::tcp_link::TcpLink;
use cmp_links::{Door, SessionEnd};
use cmp_ports::Failed;
use std::alloc::Global;
use std::io::{self, ErrorKind};
use std::net::{Ipv4Addr, Net, SocketAddr, TcpListener, TcpStream};
use std::sync::Arc;

/// Accepts the streams to one listener, which any number of doors may share. Without a listener each `accept` fails. It closes the
/// streams that it takes back, and lists none.
#[derive(Drop)]
pub struct TcpDoor {
    listener: Option<Arc<TcpListener>>,
    accepted: u64,
    ended: u64,
    tally: Tally,
}

/// Binds a port of 127.0.0.1, for all doors. An error where the system refuses that, or memory runs out.
pub fn listen<R: Net<Listener = TcpListener, Stream = TcpStream>>(
    alloc: Global,
    net: &R,
    port: u16,
) -> io::Result<Arc<TcpListener>> {
    let listener = net.bind(SocketAddr::from((Ipv4Addr::LOCALHOST, port)))?;
    Ok(Arc::new(alloc, listener)?)
}

/// The next stream. Of a peer that has gone before it was accepted nothing is told.
fn next_of(listener: &TcpListener) -> io::Result<TcpLink>
    ensures { IfOk result (λ l. l.tally.count ≡ 0) }
{
    for _ in 0..u64::MAX {
        match listener.accept() {
            Ok((stream, _)) => return TcpLink::of(stream),
            Err(error) => {
                if error.kind() != ErrorKind::ConnectionAborted {
                    return Err(error);
                }
            }
        }
    }
    Err(io::Error::from(ErrorKind::ConnectionAborted))
}

impl TcpDoor {
    /// A door of this listener, at which nobody came yet.
    pub fn new(listener: Option<Arc<TcpListener>>) -> TcpDoor
        ensures listener { result.listener ≡ listener }
        ensures accepted { result.accepted ≡ 0 }
        ensures ended { result.ended ≡ 0 }
        ensures faults { result.tally.count ≡ 0 }
    {
        TcpDoor {
            listener,
            accepted: 0,
            ended: 0,
            tally: Tally::new(),
        }
    }

    /// Why the last call that failed did.
    pub fn why(&self) -> Option<io::Error>
        ensures { result ≡ self.now.tally.last }
    {
        self.tally.why()
    }

    /// The next stream, where there is a listener.
    fn next(&self) -> io::Result<TcpLink>
        ensures fresh { IfOk result (λ l. l.tally.count ≡ 0) }
        ensures bare { self.now.listener ≡ None → IsErr result }
    {
        match &self.listener {
            Some(listener) => next_of(listener),
            None => Err(io::Error::from(ErrorKind::NotConnected)),
        }
    }
}

impl Door for TcpDoor {
    type Joined = TcpLink;

    ghost accepted = { λ d. d.accepted };

    ghost ended = { λ d. d.ended };

    ghost faults = { λ d. d.tally.count };

    ghost finished = { λ _. none_listed };

    /// Waits for the next stream of the listener; without one it fails.
    fn accept(&mut self) -> Result<TcpLink, Failed>
        ensures accepted { MatchResult result (λ _. self.new.accepted ≡ counted self.old.accepted) (λ _. self.new.accepted ≡ self.old.accepted) }
        ensures fresh { IfOk result (λ l. IsUntouched l.tally.count untold untold) }
        ensures ended { self.new.ended ≡ self.old.ended }
        ensures finished { Stays none_listed none_listed }
        ensures cause { HasCause self.old.tally.count self.new.tally.count result }
        ensures once { CountedOnce self.old.tally.count self.new.tally.count result }
        ensures bare { self.old.listener ≡ None → IsErr result }
        ensures listener { self.new.listener ≡ self.old.listener }
    {
        let answer = self.next();
        let link = self.tally.note(answer)?;
        self.accepted = self.accepted.saturating_add(1);
        Ok(link)
    }

    /// Closes the stream, once its peer has or nothing came from it for a second.
    fn finish(&mut self, link: TcpLink, end: SessionEnd) {
        link.close();
        drop(end);
        self.ended = self.ended.saturating_add(1);
    }
}
