//! Times the journal on a real file: appends, and mounts of logs of several lengths.
//!
//! With the word `append` or `mount` and a path it replaces what stands at that path, and prints a line for each timing:
//! its name, a tab, and the nanoseconds of one append or of one mount. With any other words it prints nothing.
#![tactic(auto)]

ghost use Rattle.std.specs.Prelude.{◌≡◌, ◌≤◌, length, false, IfOk};
ghost use Rattle.journal_core.specs.Journal.{IsSound, is_doubtful};

use cmp_ports::{Disk, FileDisk, MemDisk, Opening};
use journal_core::{Journal, Record};
use std::alloc::Global;
use std::time::{Clock, Instant};
use std::{env, fs, io};

const MAGIC: [u8; 7] = *b"CMPLOG1";

/// How many octets a payload has.
const PAYLOAD: usize = 500;

/// How many appends are timed.
const APPENDS: u32 = 100;

/// How many payloads the mounted logs have.
const LENGTHS: [u32; 3] = [1_000, 10_000, 100_000];

// Any failure as one of input and output.
fn other<E: Drop>(_: E) -> io::Error {
    io::Error::from(io::ErrorKind::Other)
}

// A log of one payload, on an empty disk.
fn begin<D: Disk>(alloc: Global, disk: &mut D, first: &[u8]) -> io::Result<Journal>
    requires { length first.now ≤ 1073741824 }
    ensures sound { IfOk result (λ j. IsSound j (D.images disk.new)) }
    ensures clear { IfOk result (λ j. is_doubtful j ≡ false) }
{
    Journal::prepare(disk).map_err(other)?;
    Journal::found(alloc, disk, &MAGIC, first).map_err(other)
}

// Appends the payload so many times.
fn append_all<D: Disk>(
    journal: &mut Journal,
    disk: &mut D,
    entry: &Record,
    count: u32,
) -> io::Result<()>
    requires sound { IsSound journal.old (D.images disk.old) }
    requires clear { is_doubtful journal.old ≡ false }
{
    for _ in 0..count {
        journal.append(disk, entry).map_err(other)?;
    }
    Ok(())
}

// The octets of a log of so many payloads, and one at least.
fn long_log(alloc: Global, entry: &Record, count: u32) -> io::Result<Vec<u8>> {
    let mut disk = MemDisk::new(Vec::new(alloc));
    let mut journal = begin(alloc, &mut disk, b"first")?;
    append_all(&mut journal, &mut disk, entry, count.saturating_sub(1))?;
    disk.octets().to_vec(alloc).map_err(other)
}

// The nanoseconds of one append to a new log.
fn time_append(rt: &HostRuntime, path: &str, entry: &Record) -> io::Result<u128> {
    let alloc = rt.alloc();
    fs::write(rt, path, b"".as_slice())?;
    let mut disk = FileDisk::new(
        rt,
        String::from_str(alloc, path).map_err(other)?,
        Opening::Existing,
    );
    let mut journal = begin(alloc, &mut disk, b"first")?;
    let start = Instant::now(rt)?;
    append_all(&mut journal, &mut disk, entry, APPENDS)?;
    Ok(start.elapsed(rt)?.as_nanos() / u128::from(APPENDS))
}

// The nanoseconds of one mount of a log of so many payloads.
fn time_mount(rt: &HostRuntime, path: &str, entry: &Record, count: u32) -> io::Result<u128> {
    let alloc = rt.alloc();
    fs::write(rt, path, long_log(alloc, entry, count)?.as_slice())?;
    let mut disk = FileDisk::new(
        rt,
        String::from_str(alloc, path).map_err(other)?,
        Opening::Existing,
    );
    disk.sync().map_err(other)?;
    let start = Instant::now(rt)?;
    let (_, payloads) = Journal::mount(alloc, &mut disk, &MAGIC).map_err(other)?;
    let nanos = start.elapsed(rt)?.as_nanos();
    if payloads.len() != count as usize {
        return Err(other(()));
    }
    Ok(nanos)
}

fn time_mounts(rt: &HostRuntime, path: &str, entry: &Record) -> io::Result<()> {
    for count in LENGTHS {
        let nanos = time_mount(rt, path, entry, count)?;
        println!(rt; "mount {count}\t{nanos}")?;
    }
    Ok(())
}

fn main(rt: HostRuntime) -> io::Result<()> {
    let mut words = env::args(&rt)?.skip(1);
    let word = words.next();
    let Some(path) = words.next() else {
        return Ok(());
    };
    let entry = Record::new(rt.alloc(), &[0x5a; PAYLOAD]).map_err(other)?;
    match word.as_deref() {
        Some("append") => {
            let nanos = time_append(&rt, path.as_str(), &entry)?;
            Ok(println!(rt; "append\t{nanos}")?)
        }
        Some("mount") => time_mounts(&rt, path.as_str(), &entry),
        _ => Ok(()),
    }
}
