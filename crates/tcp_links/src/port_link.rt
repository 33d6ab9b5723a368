//! A stream to a port of this machine.
ghost use Rattle.std.specs.Prelude.{◌≡◌, ◌<◌, length, IfOk};
ghost use Rattle.std.specs.Io.{ReadsAtMost, WritesAtMost};
ghost use Rattle.tcp_links.specs.Untold.{untold};

use crate::stream::{prepared, read_some, write_some};
use crate::tally::Tally;
use cmp_links::Link;
use cmp_ports::Failed;
use std::io::{self, ErrorKind};
use std::mem;
use std::net::{Ipv4Addr, Net, SocketAddr, TcpStream};

/// How far a link is with its stream.
#[derive(Drop)]
enum Reach {
    /// It wasn't asked for, or nobody accepted it.
    Unopened,
    /// It stands.
    Open(TcpStream),
    /// It ended, or a call failed: it is still read, and the next write asks for another one.
    Stale(TcpStream),
}

/// The stream to a port of 127.0.0.1. The first call connects, and where nobody accepts there each call tries again. The first write
/// after a read that gave the end of the stream, or after a call that failed, connects anew. A call that waits for a minute is a fault,
/// and so is each that the system refuses.
#[derive(Drop)]
pub struct PortLink<R: Net<Stream = TcpStream> + Drop> {
    net: R,
    port: u16,
    reach: Reach,
    tally: Tally,
}

/// A new stream to the port.
fn dial<R: Net<Stream = TcpStream>>(net: &R, port: u16) -> io::Result<TcpStream> {
    let address = SocketAddr::from((Ipv4Addr::LOCALHOST, port));
    prepared(net.connect(address)?)
}

impl<R: Net<Stream = TcpStream> + Drop> PortLink<R> {
    /// The port of 127.0.0.1, to which nothing connected yet.
    pub fn new(net: R, port: u16) -> PortLink<R>
        ensures net { result.net ≡ net }
        ensures port { result.port ≡ port }
        ensures faults { result.tally.count ≡ 0 }
    {
        PortLink {
            net,
            port,
            reach: Reach::Unopened,
            tally: Tally::new(),
        }
    }

    /// Why the last call that failed did.
    pub fn why(&self) -> Option<io::Error>
        ensures { result ≡ self.now.tally.last }
    {
        self.tally.why()
    }

    /// The stream, where there is one.
    fn stream(&self) -> Option<&TcpStream> {
        match &self.reach {
            Reach::Unopened => None,
            Reach::Open(stream) | Reach::Stale(stream) => Some(stream),
        }
    }

    /// Reads from the stream, which it connects at the first call.
    fn take(&mut self, into: &mut [u8]) -> io::Result<usize>
        ensures tally { self.new.tally ≡ self.old.tally }
        ensures bound { ReadsAtMost result into.new }
    {
        if let Reach::Unopened = &self.reach {
            self.reach = Reach::Open(dial(&self.net, self.port)?);
        }
        match self.stream() {
            Some(stream) => read_some(stream, into),
            None => Err(io::Error::from(ErrorKind::NotConnected)),
        }
    }

    /// Writes to the stream, or to a new one where there is none that is as good as new.
    fn give(&mut self, bytes: &[u8]) -> io::Result<usize>
        ensures tally { self.new.tally ≡ self.old.tally }
        ensures bound { WritesAtMost result bytes.now }
        ensures some { IfOk result (λ n. 0 < length bytes.now → 0 < n) }
    {
        if !matches!(&self.reach, Reach::Open(_)) {
            self.reach = Reach::Open(dial(&self.net, self.port)?);
        }
        match self.stream() {
            Some(stream) => write_some(stream, bytes),
            None => Err(io::Error::from(ErrorKind::NotConnected)),
        }
    }

    /// The next write asks for another stream.
    fn leave(&mut self)
        ensures { self.new.tally ≡ self.old.tally }
    {
        let reach = mem::replace(&mut self.reach, Reach::Unopened);
        if let Reach::Open(stream) = reach {
            self.reach = Reach::Stale(stream);
        } else {
            self.reach = reach;
        }
    }
}

impl<R: Net<Stream = TcpStream> + Drop> Link for PortLink<R> {
    ghost left = { λ _. untold };

    ghost gave = { λ _. untold };

    ghost written = { λ _. untold };

    ghost faults = { λ l. l.tally.count };

    fn read(&mut self, into: &mut [u8]) -> Result<usize, Failed> {
        let answer = self.take(into);
        let goes_on = match &answer {
            Ok(count) => *count > 0 || into.is_empty(),
            Err(_) => false,
        };
        if !goes_on {
            self.leave();
        }
        self.tally.note(answer)
    }

    fn write(&mut self, bytes: &[u8]) -> Result<usize, Failed> {
        let answer = self.give(bytes);
        if answer.is_err() {
            self.leave();
        }
        self.tally.note(answer)
    }
}
