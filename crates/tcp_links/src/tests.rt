//! Real streams between two sockets of this machine.

use crate::{PortLink, TcpDoor, TcpLink, listen};
use cmp_links::{Door, EndCause, Link, Notes, SessionEnd};
use cmp_ports::Failed;
use std::alloc::Global;
use std::test::Fail;

// Whether what is written to one link is read from the other, as one piece.
fn passes<A: Link, B: Link>(from: &mut A, to: &mut B, words: &[u8; 3]) -> bool {
    let mut room = [0u8; 8];
    from.write(words) == Ok(3) && to.read(&mut room) == Ok(3) && room.starts_with(words)
}

// Takes a stream back, after a session with no requests.
fn give_back<D: Door<Joined = TcpLink> + Send>(alloc: Global, door: &mut D, link: TcpLink) {
    let notes = Notes::empty(alloc);
    let cause = EndCause::Closed;
    door.finish(link, SessionEnd { notes, cause });
}

#[test]
fn a_port_is_connected_anew_where_its_stream_ended(rt: HostRuntime) -> Result<(), Fail> {
    let alloc = rt.alloc();
    let listener = listen(alloc, &rt, 0)?;
    let mut near = PortLink::new(&rt, listener.local_addr()?.port());
    let mut door = TcpDoor::new(Some(listener));
    for _ in 0..2 {
        assert_eq!(rt; near.write(b"ask"), Ok(3));
        let mut far = door.accept()?;
        assert_eq!(rt; far.read(&mut [0u8; 8]), Ok(3));
        assert!(rt; passes(&mut far, &mut near, b"yes"));
        // What is left unread, as the far end is closed, doesn't cost the near end its last reply.
        assert_eq!(rt; near.write(b"and"), Ok(3));
        assert_eq!(rt; far.write(b"end"), Ok(3));
        give_back(alloc, &mut door, far);
        assert_eq!(rt; near.read(&mut [0u8; 8]), Ok(3));
        assert_eq!(rt; near.read(&mut [0u8; 8]), Ok(0));
    }
    Ok(())
}

#[test]
fn a_port_at_which_nobody_listens_is_a_fault(rt: HostRuntime) -> Result<(), Fail> {
    let listener = listen(rt.alloc(), &rt, 0)?;
    let port = listener.local_addr()?.port();
    drop(listener);
    let mut near = PortLink::new(&rt, port);
    assert_eq!(rt; near.write(b"ask"), Err(Failed));
    assert!(rt; near.why().is_some());
    let _listener = listen(rt.alloc(), &rt, port)?;
    assert_eq!(rt; near.write(b"ask"), Ok(3));
    Ok(())
}

#[test]
fn a_door_without_a_listener_fails(rt: HostRuntime) {
    let mut door = TcpDoor::new(None);
    assert!(rt; door.accept().is_err());
    assert!(rt; door.why().is_some());
}
