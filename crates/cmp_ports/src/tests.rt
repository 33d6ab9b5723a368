//! Streams in memory and over std's readers and writers, at their ends, at the limit and at a fault in their midst.

mod lists;
mod points;

use crate::{
    Answered, Answerer, ListUp, MemSink, MemSource, Octets, ReadSource, Source, WriteSink,
    read_up_to, write_all,
};
use std::io::{self, ErrorKind, Read, Write};
use std::test::Fail;

#[test]
fn reads_to_the_end_or_one_past_the_limit(rt: HostRuntime) -> Result<(), Fail> {
    let alloc = rt.alloc();
    for (limit, want) in [
        (6, "hello"),
        (5, "hello"),
        (4, "hello"),
        (3, "hell"),
        (0, "h"),
    ] {
        let mut source = MemSource::new(b"hello".to_vec(alloc)?);
        let octets = read_up_to(alloc, &mut source, limit)?;
        assert_eq!(rt; octets.as_slice(), want.as_bytes());
        let mut reader = ReadSource::new(b"hello".as_slice());
        let octets = read_up_to(alloc, &mut &mut reader, limit)?;
        assert_eq!(rt; octets.as_slice(), want.as_bytes());
    }
    Ok(())
}

#[test]
fn the_listed_read_fails_and_takes_nothing(rt: HostRuntime) -> Result<(), Fail> {
    let alloc = rt.alloc();
    let mut source = MemSource::failing(b"hello".to_vec(alloc)?, vec![in alloc; 2]?);
    let count = source.read(&mut [0u8; 2])?;
    assert_eq!(rt; count, 2);
    assert!(rt; source.read(&mut [0u8; 2]).is_err());
    assert_eq!(rt; source.left(), b"llo".as_slice());
    assert_eq!(rt; source.faults(), 1);
    Ok(())
}

#[test]
fn the_listed_write_fails_and_adds_nothing(rt: HostRuntime) -> Result<(), Fail> {
    let alloc = rt.alloc();
    let mut sink = MemSink::failing(alloc, vec![in alloc; 2]?);
    write_all(&mut &mut sink, b"one")?;
    assert!(rt; write_all(&mut sink, b"two").is_err());
    assert_eq!(rt; sink.written(), b"one".as_slice());
    assert_eq!(rt; sink.faults(), 1);
    Ok(())
}

#[test]
fn a_writer_without_room_fails(rt: HostRuntime) {
    // A slice of three octets takes three of four, and then none.
    let mut room = [0u8; 3];
    let mut sink = WriteSink::new(room.as_mut_slice());
    assert!(rt; write_all(&mut sink, b"four").is_err());
    assert_eq!(rt; room.as_slice(), b"fou".as_slice());
}

// A reader and writer of which each second call is interrupted by a signal.
#[derive(Drop)]
struct Signals {
    calls: u8,
}

impl Signals {
    ghost use Rattle.std.specs.Prelude.{◌≤◌, IfOk};

    fn call(&mut self, count: usize) -> io::Result<usize>
        ensures { IfOk result (λ n. n ≤ count) }
    {
        self.calls = self.calls.wrapping_add(1);
        if self.calls % 2 == 1 {
            return Err(io::Error::from(ErrorKind::Interrupted));
        }
        Ok(count.min(1))
    }
}

impl Read for Signals {
    fn read(&mut self, into: &mut [u8]) -> io::Result<usize> {
        self.call(into.len())
    }
}

impl Write for Signals {
    fn write(&mut self, bytes: &[u8]) -> io::Result<usize> {
        self.call(bytes.len())
    }

    fn flush(&mut self) -> io::Result<()> {
        Ok(())
    }
}

#[test]
fn a_call_that_a_signal_interrupts_is_made_again(rt: HostRuntime) -> Result<(), Fail> {
    let mut source = ReadSource::new(Signals { calls: 0 });
    assert_eq!(rt; source.read(&mut [0u8; 2])?, 1);
    assert_eq!(rt; source.read(&mut [0u8; 2])?, 1);
    assert!(rt; source.why().is_none());
    let mut sink = WriteSink::new(Signals { calls: 0 });
    write_all(&mut sink, b"two")?;
    assert!(rt; sink.why().is_none());
    Ok(())
}

#[test]
fn a_list_answers_its_replies_and_keeps_what_was_asked(rt: HostRuntime) -> Result<(), Fail> {
    let alloc = rt.alloc();
    let mut replies = Vec::new(alloc);
    replies.push(Octets::copy_of(alloc, b"one")?)?;
    replies.push(Octets::copy_of(alloc, b"two")?)?;
    let mut up = ListUp::failing(replies, vec![in alloc; 2]?);
    let mut reply = Octets::empty(alloc);
    for (request, answer) in [
        (b"a", Some(b"one".as_slice())),
        (b"b", None),
        (b"c", Some(b"two".as_slice())),
        (b"d", None),
    ] {
        let replied = matches!(up.answer(request, &mut reply), Answered::Replied(_));
        assert_eq!(rt; replied.then_some(reply.as_slice()), answer);
    }
    let [first, second] = up.asked() else {
        return Err("not two requests")?;
    };
    assert_eq!(rt; first.as_slice(), b"a".as_slice());
    assert_eq!(rt; second.as_slice(), b"c".as_slice());
    Ok(())
}
