//! The loops that every program needs: a stream read to its end or to a limit, and a text written whole.
ghost use Rattle.std.specs.Prelude.{◌≡◌, ℕ, ◌+◌, ◌^◌, ◌<◌, ◌≤◌, take, IfOk, OnOk, OnErr, IfSome, IsErrOf, vec_len};
ghost use Rattle.std.specs.Io.KnownBytes.{Appends, Consumes};
ghost use Rattle.cmp_ports.specs.Faults.{HasCause, Rose};
ghost use Rattle.cmp_ports.specs.Whole.{AppendsPrefix, TakesUpTo};

use crate::faults::Failed;
use crate::sink::Sink;
use crate::source::Source;
use std::alloc::{AllocError, Global};

/// How many octets are asked for at once.
const PIECE: usize = 4096;

/// Why a stream was not read.
#[derive(Clone, Copy, Debug, PartialEq, Eq)]
pub enum ReadError {
    /// The source failed.
    Fault,
    /// Memory ran out.
    NoMemory,
}

impl From<Failed> for ReadError {
    ghost use Rattle.cmp_ports.specs.declared.whole.ReadError.{ReadError};

    ghost from_gives = { λ _ e. e ≡ ReadError.Fault };

    fn from(_: Failed) -> ReadError {
        ReadError::Fault
    }
}

impl From<AllocError> for ReadError {
    ghost use Rattle.cmp_ports.specs.declared.whole.ReadError.{ReadError};

    ghost from_gives = { λ _ e. e ≡ ReadError.NoMemory };

    fn from(_: AllocError) -> ReadError {
        ReadError::NoMemory
    }
}

/// Reads `source` to its end, or to one octet past `limit`, so that a longer stream shows by its length. After an error
/// what was read is dropped.
pub fn read_up_to<S: Source>(
    alloc: Global,
    source: &mut S,
    limit: usize,
) -> Result<Vec<u8>, ReadError>
    requires { limit < 2 ^ 32 }

    // All octets that the source had left, or one more than the limit.
    ensures octets { IfOk result (λ octets. IfSome (S.left source.old) (λ all. octets.items ≡ take (limit + 1) all)) }
    ensures taken { IfOk result (λ octets. Consumes (S.left source.old) (S.left source.new) octets.items) }
    ensures bound { IfOk result (λ octets. vec_len octets ≤ limit + 1) }

    // After every answer the source has lost some first octets, at most one more than the limit.
    ensures within { TakesUpTo (limit + 1) (S.left source.old) (S.left source.new) }

    // The count of faults stands where the source is read, and has risen after `Fault`.
    ensures later { S.faults source.old ≤ S.faults source.new }
    ensures kept { OnOk result (S.faults source.new ≡ S.faults source.old) }
    ensures fault { IsErrOf result ReadError.Fault → Rose (S.faults source.old) (S.faults source.new) }
    ensures memory { IsErrOf result ReadError.NoMemory → S.faults source.new ≡ S.faults source.old }
{
    let mut octets = Vec::new(alloc);
    let mut piece = [0u8; PIECE];
    while octets.len() <= limit {
        let room = (limit + 1 - octets.len()).min(PIECE);
        let count = source.read(&mut piece[..room])?;
        if count == 0 {
            break;
        }
        octets.extend_from_slice(&piece[..count])?;
    }
    Ok(octets)
}

/// Writes all of `octets`, piece by piece. After a `Failed` some first octets of them are written.
pub fn write_all<W: Sink>(sink: &mut W, octets: &[u8]) -> Result<(), Failed>
    ensures written { OnOk result (Appends (W.written sink.old) (W.written sink.new) octets.now) }
    ensures prefix { OnErr result (AppendsPrefix (W.written sink.old) (W.written sink.new) octets.now) }
    ensures cause { HasCause (W.faults sink.old) (W.faults sink.new) result }
{
    let mut done = 0;
    while done < octets.len() {
        let (_, rest) = octets.split_at(done);
        done += sink.write(rest)?;
    }
    Ok(())
}
