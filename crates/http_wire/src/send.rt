//! Octets written whole.
ghost use Rattle.std.specs.Prelude.{◌≡◌, ◌≤◌, OnOk, OnErr};
ghost use Rattle.std.specs.Io.KnownBytes.{Appends, Keeps};
ghost use Rattle.cmp_ports.specs.Faults.{HasCause};
ghost use Rattle.cmp_ports.specs.Whole.{AppendsPrefix};
ghost use Rattle.http_wire.specs.Steps.{Excuses};

use cmp_links::Link;
use cmp_ports::Failed;

/// What a peer is told where there is no reply (RFC 9110, 15.6.4).
const UNAVAILABLE: &[u8] =
    b"HTTP/1.1 503 Service Unavailable\r\nContent-Length: 0\r\nConnection: close\r\n\r\n";

/// Writes all of `octets`, piece by piece. After a `Failed` some first octets of them are written. What was given and what is left stay.
pub fn send<L: Link>(link: &mut L, octets: &[u8]) -> Result<(), Failed>
    ensures written { OnOk result (Appends (L.written link.old) (L.written link.new) octets.now) }
    ensures prefix { OnErr result (AppendsPrefix (L.written link.old) (L.written link.new) octets.now) }
    ensures left { Keeps (L.left link.old) (L.left link.new) }
    ensures gave { Keeps (L.gave link.old) (L.gave link.new) }
    ensures cause { HasCause (L.faults link.old) (L.faults link.new) result }
{
    let mut done = 0;
    while done < octets.len() {
        let (_, rest) = octets.split_at(done);
        done += link.write(rest)?;
    }
    Ok(())
}

/// Tells the peer that there is no reply. Takes no memory; a stream that fails keeps its count of that.
pub fn excuse<L: Link>(link: &mut L)
    ensures told { Excuses (L.written link.old) (L.written link.new) (L.faults link.old) (L.faults link.new) }
    ensures left { Keeps (L.left link.old) (L.left link.new) }
    ensures gave { Keeps (L.gave link.old) (L.gave link.new) }
    ensures later { L.faults link.old ≤ L.faults link.new }
{
    let _ = send(link, UNAVAILABLE);
}
