//! Parts of payloads, for journals beside that of changes: numbers of 8 octets, at most 64 octets behind their number, and any
//! number of octets behind it.
ghost use Rattle.std.specs.Prelude.{◌≡◌, ◌<◌, ◌≤◌, ◌^◌, ◌++◌, length, OnOk, IfOk};
ghost use Rattle.deal_changes.specs.Spelling.{u64, short, blob, IsBlob, IsShort};
ghost use Rattle.deal_changes.specs.Payload.{IsSpelled, IsFound};

use crate::fault::ChangeFault;
use crate::parts::{blob_of, short_of, u64_of};
use crate::writing::{put_blob, put_short, put_u64};
use cmp_values::{Octets, Short};
use std::alloc::{AllocError, Global};

/// The number at the front of octets, 8 octets with the highest first, and the octets behind it. `BadChange` exactly where fewer
/// than 8 octets stand; needs no memory.
pub fn read_u64(bytes: &[u8]) -> Result<(u64, &[u8]), ChangeFault>
    // What is read is spelled so.
    ensures read { IfOk result (IsSpelled u64 (λ n. n < 2 ^ 64) bytes.now (λ x. (x.0, x.1.now))) }
    // What is spelled so is read.
    ensures found { IsFound u64 (λ n. n < 2 ^ 64) bytes.now (λ x. (x.0, x.1.now)) result }
{
    u64_of(bytes)
}

/// The octets at the front behind their number in one octet, at most 64, and the octets behind them. `BadChange` exactly where
/// none stand so; needs no memory.
pub fn read_short(bytes: &[u8]) -> Result<(Short, &[u8]), ChangeFault>
    // What is read is spelled so.
    ensures read { IfOk result (IsSpelled short IsShort bytes.now (λ x. (x.0, x.1.now))) }
    // What is spelled so is read.
    ensures found { IsFound short IsShort bytes.now (λ x. (x.0, x.1.now)) result }
{
    short_of(bytes)
}

/// A copy of the octets at the front behind their number in 4 octets, and the octets behind them. `BadChange` exactly where none
/// stand so.
pub fn read_blob(alloc: Global, bytes: &[u8]) -> Result<(Octets, &[u8]), ChangeFault>
    // What is read is spelled so.
    ensures read { IfOk result (IsSpelled blob IsBlob bytes.now (λ x. (x.0, x.1.now))) }
    // What is spelled so is read, unless memory runs out.
    ensures found { IsFound blob IsBlob bytes.now (λ x. (x.0, x.1.now)) result }
{
    blob_of(alloc, bytes)
}

/// Writes a number behind octets, in 8 octets with the highest first.
pub fn write_u64(out: &mut Vec<u8>, n: u64) -> Result<(), AllocError>
    ensures { OnOk result (out.new.items ≡ out.old.items ++ u64 n) }
{
    put_u64(out, n)
}

/// Writes at most 64 octets behind others, with their number in one octet before them.
pub fn write_short(out: &mut Vec<u8>, octets: &Short) -> Result<(), AllocError>
    ensures { OnOk result (out.new.items ≡ out.old.items ++ short octets.now) }
{
    put_short(out, octets.as_slice())
}

/// Writes octets behind others, with their number in 4 octets before them.
pub fn write_blob(out: &mut Vec<u8>, octets: &[u8]) -> Result<(), AllocError>
    requires { IsBlob octets.now }
    ensures { OnOk result (out.new.items ≡ out.old.items ++ blob octets.now) }
{
    put_blob(out, octets)
}
