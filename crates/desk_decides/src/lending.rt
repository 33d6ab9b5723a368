use crate::logs::{FOUNDED, GRANTED, LISTED, NOW, mounted};
use crate::messages::{FRESH_KEY, GRANTED_TID, Told, outcome_of, request, short};
use cmp_ports::{MemDisk, Short};
use deal_model::DealState;
use desk::{Clerk, SoleClerk};
use std::alloc::Global;
use std::test::Fail;

// The place that a clerk tells of a transaction's Grant, 0 where there is none; none where memory runs out.
fn granted_by(clerk: &mut SoleClerk<'_, MemDisk>, tid: &Short) -> Option<u64> {
    match clerk.granted(tid) {
        Ok(Some(receipt)) => Some(receipt.place()),
        Ok(None) => Some(0),
        Err(_) => None,
    }
}

// What a clerk tells of an ir before it is decided, and what it decides.
fn decided_by(alloc: Global, clerk: &mut SoleClerk<'_, MemDisk>) -> Option<(u64, bool, Told)> {
    let Some(checked) = request(alloc, 1, FRESH_KEY) else {
        return None;
    };
    let look = clerk.look(&checked.ask, NOW);
    let told = outcome_of(clerk.decide(&checked, NOW, &[7; 32]));
    Some((look.place, look.tid_state == DealState::Unused, told))
}

// The Grant stands at place 3, and the lent desk has what was made through the clerk.
#[test]
fn a_clerk_keeps_a_lent_desk(rt: HostRuntime) -> Result<(), Fail> {
    let mut desk = mounted(rt.alloc(), &[FOUNDED, LISTED, GRANTED], &[])?;
    let mut clerk = SoleClerk::new(&mut desk);
    let grant = granted_by(&mut clerk, &short(GRANTED_TID));
    let none = granted_by(&mut clerk, &short(b"T"));
    let told = decided_by(rt.alloc(), &mut clerk);
    assert!(rt; grant == Some(3));
    assert!(rt; none == Some(0));
    assert!(rt; told == Some((3, true, Told::Done { place: 4 })));
    assert!(rt; desk.length() == 4);
    Ok(())
}
