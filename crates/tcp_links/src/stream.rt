//! Calls of a socket.
ghost use Rattle.std.specs.Prelude.{◌<◌, length, IfOk};
ghost use Rattle.std.specs.Io.{ReadsAtMost, WritesAtMost};

use cmp_ports::{ReadSource, Sink, Source, WriteSink};
use std::io::{self, ErrorKind};
use std::net::{Shutdown, TcpStream};
use std::time::Duration;

/// The seconds for which a read or a write waits for the peer. A silent peer would hold its worker for good otherwise.
const PATIENCE: u64 = 60;

/// The seconds for which a stream that is being closed waits for more of what its peer sends, and how often it does, for at most
/// 4,096 octets each.
const FAREWELL: u64 = 1;

const FAREWELLS: usize = 64;

/// A stream that sends each write at once (no-delay; RFC 9293, 3.7.4), and whose calls wait for at most a minute.
pub(crate) fn prepared(stream: TcpStream) -> io::Result<TcpStream> {
    stream.set_nodelay(true)?;
    stream.set_read_timeout(Some(Duration::from_secs(PATIENCE)))?;
    stream.set_write_timeout(Some(Duration::from_secs(PATIENCE)))?;
    Ok(stream)
}

/// Why a call failed.
fn reason(why: Option<io::Error>) -> io::Error {
    why.unwrap_or(io::Error::from(ErrorKind::Other))
}

/// Reads some octets. A call that a signal interrupts is made again, and one that waits too long is an error.
pub(crate) fn read_some(stream: &TcpStream, into: &mut [u8]) -> io::Result<usize>
    ensures { ReadsAtMost result into.new }
{
    let mut source = ReadSource::new(stream);
    match source.read(into) {
        Ok(count) => Ok(count),
        Err(_) => Err(reason(source.why())),
    }
}

/// Writes some octets, at least one where there are any, likewise.
pub(crate) fn write_some(stream: &TcpStream, bytes: &[u8]) -> io::Result<usize>
    ensures bound { WritesAtMost result bytes.now }
    ensures some { IfOk result (λ n. 0 < length bytes.now → 0 < n) }
{
    let mut sink = WriteSink::new(stream);
    match sink.write(bytes) {
        Ok(count) => Ok(count),
        Err(_) => Err(reason(sink.why())),
    }
}

/// Closes a stream in stages (RFC 9112, 9.6): first for what is written, and wholly when the peer has closed it too or nothing comes for
/// a second. What the peer is still sending is read and dropped, so that no reset overtakes the last reply.
pub(crate) fn close(stream: TcpStream) {
    let patience = Some(Duration::from_secs(FAREWELL));
    if stream.shutdown(Shutdown::Write).is_err() || stream.set_read_timeout(patience).is_err() {
        return;
    }
    let mut room = [0u8; 4096];
    for _ in 0..FAREWELLS {
        match read_some(&stream, &mut room) {
            Ok(count) => {
                if count == 0 {
                    return;
                }
            }
            Err(_) => return,
        }
    }
}
