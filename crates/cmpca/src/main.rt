//! The certification authority's program. `cmpca verify SECRET` reads one CMP message from standard input and tells
//! whether its PBMAC1 protection holds; `cmpca JOURNAL KEY init` founds an authority in a journal, `show` in the place of `init`
//! tells how its history stands, and `enlist`, `dismiss`, `release` and `deny` change it by one change. `take` answers one CMP
//! message of standard input, with the keys of the file KEY, and adds at most the change that the message makes; `serve` answers those
//! that come over HTTP to a port of 127.0.0.1. What is told on standard output is all that a run has to tell; lines on standard error
//! say why a device failed, and what helps.
#![tactic(auto)]

mod advice;
mod heard;
mod serve;

use advice::{advise, tell_one_file, tell_why, warn_of_readers};
use cmp_ports::{
    FileDisk, FileEntropy, FileSource, Opening, StdSink, StdSource, SysClock, hold_streams,
    is_one_file, others_may_read,
};
use cmpca_serve::read_serve;
use cmpca_tool::{Status, no_memory};
use heard::Heard;
use program_runs::run_program;
use serve::serve;
use std::alloc::{AllocError, Global};
use std::net::{Net, TcpListener, TcpStream};
use std::process::ExitCode;
use std::sync::Wait;
use std::thread::Threads;
use std::{env, io};

/// The file that random octets are read from.
pub(crate) const ENTROPY: &str = "/dev/urandom";

/// The places of the words.
const JOURNAL: usize = 0;

const KEY: usize = 1;

const COMMAND: usize = 2;

const ORDERS: usize = 6;

/// The words behind the program's name.
fn words_of(rt: &HostRuntime) -> io::Result<Vec<String>> {
    Ok(env::args(rt)?.skip(1).collect(rt.alloc())?)
}

/// The path at a place among the words, or an empty one. Nothing is opened before it is used.
fn path_at(alloc: Global, words: &[String], place: usize) -> Result<String, AllocError> {
    match words.get(place) {
        Some(path) => path.clone(),
        None => Ok(String::new(alloc)),
    }
}

/// Whether the word at a place is this one.
fn is_at(words: &[String], place: usize, word: &str) -> bool {
    match words.get(place) {
        Some(found) => found.as_str() == word,
        None => false,
    }
}

/// What may be done with the journal: `init` alone makes it, and `show` only reads it.
fn opening_of(words: &[String]) -> Opening {
    if is_at(words, COMMAND, "init") {
        return Opening::MayBeMade;
    }
    if is_at(words, COMMAND, "show") {
        return Opening::ReadOnly;
    }
    Opening::Existing
}

/// Warns where others may read the key file of a command that reads it.
fn warn(rt: &HostRuntime, words: &[String]) {
    let reads_it = is_at(words, COMMAND, "init")
        || is_at(words, COMMAND, "take")
        || is_at(words, COMMAND, "serve");
    if !reads_it {
        return;
    }
    if let Some(path) = words.get(KEY) {
        if others_may_read(rt, path.as_str()) {
            warn_of_readers(rt, path.as_str());
        }
    }
}

/// Runs the program on these words over the real files, streams and clock.
fn run_words(
    rt: &HostRuntime,
    words: &[String],
    out: &mut Heard<StdSink>,
) -> Result<Status, AllocError> {
    let alloc = rt.alloc();
    let mut disk = FileDisk::new(rt, path_at(alloc, words, JOURNAL)?, opening_of(words));
    let mut key = FileSource::new(rt, path_at(alloc, words, KEY)?);
    let mut entropy = FileEntropy::new(rt, String::from_str(alloc, ENTROPY)?);
    let mut input = StdSource::new(rt.stdin());
    let mut clock = SysClock::new(rt);
    let status = run_program(
        alloc,
        words,
        &mut key,
        &mut input,
        &mut disk,
        &mut clock,
        &mut entropy,
        out,
    );
    let told = [
        tell_why(rt, disk.path(), disk.why()),
        tell_why(rt, key.path(), key.why()),
        tell_why(rt, entropy.path(), entropy.why()),
        tell_why(rt, "standard input", input.why()),
        tell_why(rt, "standard output", out.out().why()),
    ];
    if told == [false; 5] {
        advise(rt, status, out.first());
    }
    Ok(status)
}

/// Runs the program on the words of its command line, by the threads and the sockets of the host where it serves. Words that name one file for two roles are of no form.
fn run_checked<R: Net<Listener = TcpListener, Stream = TcpStream> + Threads + Wait + Sync>(
    rt: &HostRuntime,
    host: &R,
    words: &[String],
    out: &mut Heard<StdSink>,
) -> Result<Status, AllocError> {
    if let [journal, key, _, ..] = words {
        if is_one_file(rt, journal.as_str(), key.as_str()) {
            tell_one_file(rt, journal.as_str());
            return run_words(rt, &[], out);
        }
    }
    warn(rt, words);
    let alloc = rt.alloc();
    match read_serve(words) {
        Some(plan) => serve(
            rt,
            host,
            words,
            &plan,
            path_at(alloc, words, JOURNAL)?,
            path_at(alloc, words, KEY)?,
            path_at(alloc, words, ORDERS)?,
            out,
        ),
        None => run_words(rt, words, out),
    }
}

/// Runs the program on its words.
fn run<R: Net<Listener = TcpListener, Stream = TcpStream> + Threads + Wait + Sync>(
    rt: &HostRuntime,
    host: &R,
) -> Status {
    let mut out = Heard::new(StdSink::new(rt.stdout()));
    let ended = match words_of(rt) {
        Ok(words) => run_checked(rt, host, &words, &mut out),
        Err(error) if error.kind() == io::ErrorKind::OutOfMemory => Err(AllocError),

        // A word that is not text is in no form, as no words are.
        Err(_) => run_words(rt, &[], &mut out),
    };
    match ended {
        Ok(status) => status,
        Err(_) => no_memory(&mut out),
    }
}

fn main(rt: HostRuntime) -> ExitCode {
    // Where a closed stream's descriptor can't be taken, a file could stand in its place: nothing is opened.
    if hold_streams(&rt).is_err() {
        return ExitCode::from(Status::DiskFault.number());
    }
    ExitCode::from(run(&rt, &rt).number())
}
