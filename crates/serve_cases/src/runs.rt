//! Serving over devices in memory, whose calls may fail.
ghost use Rattle.std.specs.Prelude.{◌≡◌, true, length, map, string_bytes, All, IfOk};
ghost use Rattle.cmp_links.specs.MemDoor.{links_of};
ghost use Rattle.cmp_links.specs.MemLink.{IsFresh};
ghost use Rattle.cmpca_serve.specs.Words.{Serves};
ghost use Rattle.cmpca_serve.specs.declared.words.ServePlan.{ServePlan};

use crate::gates::{Held, Passer, Stages};
use crate::vectors::KEY_FILE;
use cmp_links::{MemDoor, MemLink};
use cmp_ports::{ListClock, ListEntropy, ListOrders, MemDisk, MemSink, MemSource};
use cmpca_serve::{read_serve, run_serve};
use cmpca_tool::{Status, run_tool};
use desk::FaultMarks;
use sha2::{Digest, Sha256};
use std::alloc::Global;
use std::process::Abort;
use std::sync::Wait;
use std::test::Fail;
use std::thread::Threads;
use workers::Station;

/// The moment of the founding and of each ir.
pub const NOW: u64 = 1_700_000_000;

/// The octets that hex digits stand for.
pub fn octets_of(alloc: Global, digits: &str) -> Result<Vec<u8>, Fail> {
    Ok(hex::decode(alloc, digits)?)
}

/// The words of the command line.
fn words_of(alloc: Global, texts: &[&str]) -> Result<Vec<String>, Fail> {
    let mut words = Vec::new(alloc);
    for text in texts {
        words.push(String::from_str(alloc, text)?)?;
    }
    Ok(words)
}

/// The octets that count up from this one.
pub fn words_from(first: u8) -> [u8; 32] {
    let mut words = [first; 32];
    let mut step = 0u8;
    for word in words.iter_mut() {
        *word = first.wrapping_add(step);
        step = step.wrapping_add(1);
    }
    words
}

/// A link with these octets, which hex digits stand for.
pub fn link_of(alloc: Global, stream: &str) -> Result<MemLink, Fail>
    ensures { IfOk result IsFresh }
{
    Ok(MemLink::new(octets_of(alloc, stream)?))
}

/// A station whose door has one link.
pub fn station_of<'a>(
    alloc: Global,
    stream: &str,
    first: u8,
    stages: &'a Stages,
    passer: Passer,
) -> Result<Station<MemDoor, ListClock, ListEntropy, Held<'a>>, Fail> {
    Ok(Station {
        door: MemDoor::new(vec![in alloc; link_of(alloc, stream)?]?),
        clock: ListClock::new(vec![in alloc; NOW]?),
        entropy: ListEntropy::new(vec![in alloc; words_from(first)]?),
        gate: Held { stages, passer },
    })
}

// Whether there are as many stations as the words ask for workers, where they ask for serving.
fn is_manned(words: &[String], stations: usize) -> bool
    ensures { result ≡ true → (p : ServePlan) → Serves (map string_bytes words.now) p → stations ≡ p.workers }
{
    match read_serve(words) {
        Some(plan) => plan.workers as usize == stations,
        None => true,
    }
}

/// Serves as the words ask at these stations, and takes orders by a clock that stands still.
pub fn serve<'a, R: Threads + Wait + Sync>(
    rt: &R,
    alloc: Global,
    texts: &[&str],
    mut key: MemSource,
    disk: &mut MemDisk,
    stations: &mut [Station<MemDoor, ListClock, ListEntropy, Held<'a>>],
    mut orders: ListOrders,
    stages: &'a Stages,
    out: &mut MemSink,
) -> Result<Status, Fail> {
    let words = words_of(alloc, texts)?;
    if !is_manned(&words, stations.len()) {
        return Err("another number of stations")?;
    }
    let mut clock = ListClock::new(vec![in alloc; NOW]?);
    let mut gate = Held {
        stages,
        passer: Passer::Other,
    };
    let mut marks = FaultMarks::none();
    Ok(run_serve(
        alloc,
        rt,
        &words,
        &mut key,
        disk,
        stations,
        &mut clock,
        &mut orders,
        &mut gate,
        &mut marks,
        out,
    ))
}

/// The key file.
pub fn key_file(alloc: Global) -> Result<MemSource, Fail> {
    Ok(MemSource::new(octets_of(alloc, KEY_FILE)?))
}

/// Shows how the history stands that a disk holds.
pub fn check_lines(
    rt: &impl Abort,
    alloc: Global,
    disk: &mut MemDisk,
    lines: &str,
) -> Result<(), Fail> {
    let words = words_of(alloc, &["journal", "key", "show"])?;
    let mut out = MemSink::new(alloc);
    let status = run_tool(
        alloc,
        &words,
        &mut MemSource::new(Vec::new(alloc)),
        &mut MemSource::new(Vec::new(alloc)),
        disk,
        &mut ListClock::new(Vec::new(alloc)),
        &mut ListEntropy::new(Vec::new(alloc)),
        &mut out,
    );
    assert_eq!(rt; out.written(), lines.as_bytes());
    assert!(rt; status == Status::Done);
    Ok(())
}

/// Whether what was written to a link has this SHA-256.
pub fn is_written(alloc: Global, link: &MemLink, owed: &str) -> Result<bool, Fail> {
    let owed: Vec<u8> = octets_of(alloc, owed)?;
    let mut hasher = Sha256::new();
    hasher.update(link.written());
    let digest: [u8; 32] = hasher.finalize();
    Ok(digest.as_slice() == owed.as_slice())
}
