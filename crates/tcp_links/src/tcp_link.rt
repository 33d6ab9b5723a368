//! A stream that stands.
ghost use Rattle.std.specs.Prelude.{◌≡◌, IfOk};
ghost use Rattle.tcp_links.specs.Untold.{untold};

use crate::stream::{close, prepared, read_some, write_some};
use crate::tally::Tally;
use cmp_links::Link;
use cmp_ports::Failed;
use std::io;
use std::net::TcpStream;

/// A stream between two sockets, which is closed where it is dropped. Each write is sent at once. A call that waits for a minute is a
/// fault, and so is each that the system refuses.
#[derive(Drop)]
pub struct TcpLink {
    stream: TcpStream,
    tally: Tally,
}

impl TcpLink {
    /// This stream, with no fault so far. An error where the system refuses to set its options.
    pub fn of(stream: TcpStream) -> io::Result<TcpLink>
        ensures { IfOk result (λ l. l.tally.count ≡ 0) }
    {
        Ok(TcpLink {
            stream: prepared(stream)?,
            tally: Tally::new(),
        })
    }

    /// Closes the stream, so that what was written last still comes to the peer.
    pub(crate) fn close(self) {
        close(self.stream);
    }

    /// Why the last call that failed did.
    pub fn why(&self) -> Option<io::Error>
        ensures { result ≡ self.now.tally.last }
    {
        self.tally.why()
    }
}

impl Link for TcpLink {
    ghost left = { λ _. untold };

    ghost gave = { λ _. untold };

    ghost written = { λ _. untold };

    ghost faults = { λ l. l.tally.count };

    fn read(&mut self, into: &mut [u8]) -> Result<usize, Failed> {
        let answer = read_some(&self.stream, into);
        self.tally.note(answer)
    }

    fn write(&mut self, bytes: &[u8]) -> Result<usize, Failed> {
        let answer = write_some(&self.stream, bytes);
        self.tally.note(answer)
    }
}
