//! Desks over logs that tests/vectors/log_vectors.py lays out with Python's `struct`.
ghost use Rattle.std.specs.Prelude.{◌≡◌, None, IfOk};

use cmp_ports::MemDisk;
use desk::Desk;
use hex::decode;
use std::alloc::Global;
use std::test::Fail;

/// The time of the first changes of these logs.
pub(crate) const NOW: u64 = 1_700_000_000;

/// A log of Found alone.
pub(crate) const FOUNDED: &str =
    "01434d504c4f473101000000ae01000000006553f1000000001530133111300f06035504030c08466c656574204341000000010000000500000004808182838485868788898a8b8c8d8e8f101112131415161718191a1b1c1d1e1f202122232425262728292a2b2c2d2e2f000000010000000500000004a0a1a2a3a4a5a6a7a8a9aaabacadaeaf303132333435363738393a3b3c3d3e3f404142434445464748494a4b4c4d4e4f0000012c0000012c000003e80000003c0000016d00";

/// A log of Found and Enlist of dev-1.
pub(crate) const LISTED: &str =
    "01434d504c4f473101000000ae01000000006553f1000000001530133111300f06035504030c08466c656574204341000000010000000500000004808182838485868788898a8b8c8d8e8f101112131415161718191a1b1c1d1e1f202122232425262728292a2b2c2d2e2f000000010000000500000004a0a1a2a3a4a5a6a7a8a9aaabacadaeaf303132333435363738393a3b3c3d3e3f404142434445464748494a4b4c4d4e4f0000012c0000012c000003e80000003c0000016d010000001c02000000006553f100000101056465762d31087365637265742d310100";

/// The desk over this log.
pub(crate) fn mounted(alloc: Global, log: &str) -> Result<Desk<MemDisk>, Fail>
    ensures { IfOk result (λ d. d.mark ≡ None) }
{
    let octets: Vec<u8> = decode(alloc, log)?;
    match Desk::mount(alloc, MemDisk::new(octets)) {
        Ok(desk) => Ok(desk),
        Err(_) => Err("not mounted")?,
    }
}
