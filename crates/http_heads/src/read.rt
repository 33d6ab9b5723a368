//! Reads of a stream, until a head or a body has come.
ghost use Rattle.std.specs.Prelude.{◌≡◌, ◌≤◌, ◌<◌, ℕ, List, Option, true, false, length, IfOk, OnOk, IsErrOf, Some};
ghost use Rattle.httparse.specs.Grammar.{HasNoRequest};
ghost use Rattle.std.specs.Io.KnownBytes.{IsAtEnd, Keeps, prepend_known};
ghost use Rattle.cmp_ports.specs.Faults.{Rose};
ghost use Rattle.http_heads.specs.Comings.{HasCome, input};

use crate::look::{Asked, HEAD_LIMIT, Look, front_of};
use crate::rows::BAD_REQUEST;
use cmp_links::Link;
use cmp_ports::ReadError;
use cmp_values::Octets;

/// How many octets are asked for at once.
const PIECE: usize = 4096;

/// What has come from a stream.
#[derive(Clone, Copy, Debug, PartialEq, Eq)]
pub enum Came {
    /// A head that is served, at the front of the octets.
    Head(Asked),
    /// A request that is turned away with this status.
    Turned(u16),
    /// Nothing: the stream is at its end.
    Nothing,
}

/// Reads a piece more behind the octets, up to `most` of them in all. `false` at the end of the stream.
pub fn read_more<L: Link>(link: &mut L, octets: &mut Octets, most: usize) -> Result<bool, ReadError>
    requires { length octets.old < most }
    ensures known { OnOk result (Keeps (prepend_known octets.old (L.left link.old)) (prepend_known octets.new (L.left link.new))) }
    ensures more { IfOk result (λ more. more ≡ true → (length octets.old < length octets.new) × (length octets.new ≤ most)) }
    ensures end { IfOk result (λ more. more ≡ false → (octets.new ≡ octets.old) × IsAtEnd (L.left link.new)) }
    ensures input { Keeps (input (L.gave link.old) (L.left link.old)) (input (L.gave link.new) (L.left link.new)) }
    ensures written { Keeps (L.written link.old) (L.written link.new) }
    ensures later { L.faults link.old ≤ L.faults link.new }
    ensures kept { OnOk result (L.faults link.new ≡ L.faults link.old) }
    ensures fault { IsErrOf result ReadError.Fault → Rose (L.faults link.old) (L.faults link.new) }
    ensures memory { IsErrOf result ReadError.NoMemory → L.faults link.new ≡ L.faults link.old }
{
    let mut piece = [0u8; PIECE];
    let room = (most - octets.len()).min(PIECE);
    let count = link.read(&mut piece[..room])?;
    octets.append(&piece[..count])?;
    Ok(count > 0)
}

/// Reads until a head is there, or it shows that none comes.
pub fn read_head<L: Link>(link: &mut L, octets: &mut Octets) -> Result<Came, ReadError>
    ensures came { IfOk result (λ came. HasCome (prepend_known octets.old (L.left link.old)) octets.new (prepend_known octets.new (L.left link.new)) came) }
    ensures input { Keeps (input (L.gave link.old) (L.left link.old)) (input (L.gave link.new) (L.left link.new)) }
    ensures written { Keeps (L.written link.old) (L.written link.new) }
    ensures later { L.faults link.old ≤ L.faults link.new }
    ensures kept { OnOk result (L.faults link.new ≡ L.faults link.old) }
    ensures fault { IsErrOf result ReadError.Fault → Rose (L.faults link.old) (L.faults link.new) }
    ensures memory { IsErrOf result ReadError.NoMemory → L.faults link.new ≡ L.faults link.old }
{
    loop {
        match front_of(octets.as_slice()) {
            Look::Served(asked) => return Ok(Came::Head(asked)),
            Look::Refused(status) => return Ok(Came::Turned(status)),
            Look::More => {}
        }
        if !read_more(link, octets, HEAD_LIMIT)? {
            return Ok(at_end(octets));
        }
    }
}

// What the octets are where no more come, and no head is there.
fn at_end(octets: &Octets) -> Came
    requires { HasNoRequest octets.now }
    ensures { HasCome (Some octets.now) octets.now (Some octets.now) result }
{
    if octets.is_empty() {
        Came::Nothing
    } else {
        Came::Turned(BAD_REQUEST)
    }
}

/// Reads until there are so many octets. `false` where the stream ends before.
pub fn read_until<L: Link>(
    link: &mut L,
    octets: &mut Octets,
    count: usize,
) -> Result<bool, ReadError>
    ensures known { OnOk result (Keeps (prepend_known octets.old (L.left link.old)) (prepend_known octets.new (L.left link.new))) }
    ensures enough { IfOk result (λ whole. whole ≡ true → count ≤ length octets.new) }
    ensures end { IfOk result (λ whole. whole ≡ false → (length octets.new < count) × IsAtEnd (L.left link.new)) }
    ensures input { Keeps (input (L.gave link.old) (L.left link.old)) (input (L.gave link.new) (L.left link.new)) }
    ensures written { Keeps (L.written link.old) (L.written link.new) }
    ensures later { L.faults link.old ≤ L.faults link.new }
    ensures kept { OnOk result (L.faults link.new ≡ L.faults link.old) }
    ensures fault { IsErrOf result ReadError.Fault → Rose (L.faults link.old) (L.faults link.new) }
    ensures memory { IsErrOf result ReadError.NoMemory → L.faults link.new ≡ L.faults link.old }
{
    while octets.len() < count {
        if !read_more(link, octets, count)? {
            return Ok(false);
        }
    }
    Ok(true)
}
