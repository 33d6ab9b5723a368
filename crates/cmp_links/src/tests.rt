//! Links and doors in memory: cut in two, at their ends, and with calls that fail.

use crate::{Door, EndCause, Finished, Link, MemDoor, MemLink, Notes, SessionEnd};
use cmp_ports::{Failed, Note, Outcome};
use std::alloc::{AllocError, Global};
use std::test::Fail;

const FAILURE: Note = Note {
    place: 3,
    time: 7,
    words: [9; 32],
    outcome: Outcome::SystemFailure,
};

const DONE: Note = Note {
    place: 4,
    time: 8,
    words: [0; 32],
    outcome: Outcome::Done,
};

#[test]
fn a_link_tells_what_it_gave_and_what_was_written(rt: HostRuntime) -> Result<(), Fail> {
    let alloc = rt.alloc();
    // The second call of all, a write, fails; so does the fourth, a read.
    let mut link = MemLink::failing(b"hello".to_vec(alloc)?, vec![in alloc; 2, 4]?);
    assert_eq!(rt; (&mut link).read(&mut [0u8; 2]), Ok(2));
    assert_eq!(rt; (&mut link).write(b"one"), Err(Failed));
    assert_eq!(rt; (&mut link).write(b"two"), Ok(3));
    assert_eq!(rt; (&mut link).read(&mut [0u8; 9]), Err(Failed));
    assert_eq!(rt; link.gave(), b"he".as_slice());
    assert_eq!(rt; link.left(), b"llo".as_slice());
    assert_eq!(rt; link.written(), b"two".as_slice());
    assert_eq!(rt; link.faults(), 2);
    Ok(())
}

#[test]
fn notes_keep_their_order(rt: HostRuntime) -> Result<(), Fail> {
    let alloc = rt.alloc();
    let mut notes = Notes::empty(alloc);
    notes.push(DONE)?;
    notes.push(DONE)?;
    notes.set_last(FAILURE);
    assert_eq!(rt; notes.as_slice(), [DONE, FAILURE].as_slice());
    assert_eq!(rt; notes.failures(), 1);
    notes.pop();
    assert_eq!(rt; notes.as_slice(), [DONE].as_slice());
    Ok(())
}

// A door over two links, whose second call of `accept` fails.
fn door_of_two(alloc: Global) -> Result<MemDoor, AllocError> {
    let mut links = Vec::new(alloc);
    links.push(MemLink::new(b"one".to_vec(alloc)?))?;
    links.push(MemLink::new(b"two".to_vec(alloc)?))?;
    Ok(MemDoor::failing(links, vec![in alloc; 2]?))
}

// Takes both links and gives them back, the second one first.
fn give_back(alloc: Global, door: &mut MemDoor) -> bool {
    let Ok(first) = door.accept() else {
        return false;
    };
    let refused = door.accept().is_err();
    let Ok(second) = door.accept() else {
        return false;
    };
    let notes = Notes::empty(alloc);
    let cause = EndCause::Closed;
    door.finish(second, SessionEnd { notes, cause });
    let notes = Notes::empty(alloc);
    let cause = EndCause::Rejected(404);
    door.finish(first, SessionEnd { notes, cause });
    refused && door.accept().is_err() && door.faults() == 2
}

#[test]
fn a_door_takes_its_links_back_in_order(rt: HostRuntime) -> Result<(), Fail> {
    let alloc = rt.alloc();
    let mut door = door_of_two(alloc)?;
    assert!(rt; give_back(alloc, &mut door));
    let last = door.last();
    assert!(rt;
        last.is_some_and(|f| f.link().left() == b"one".as_slice()
            && f.end().cause == EndCause::Rejected(404))
    );
    let before = last.and_then(Finished::before);
    assert!(rt;
        before.is_some_and(|f| f.link().left() == b"two".as_slice()
            && f.end().cause == EndCause::Closed)
    );
    assert!(rt; before.and_then(Finished::before).is_none());
    Ok(())
}
