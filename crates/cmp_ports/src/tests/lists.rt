//! A clock, draws and orders in memory, and the lines of orders.

use crate::{
    Clock, Entropy, Failed, ListClock, ListEntropy, ListOrders, Order, Orders, Short, SysClock,
    order_of_line,
};
use std::test::Fail;

#[test]
fn a_clock_repeats_its_last_reading(rt: HostRuntime) -> Result<(), Fail> {
    let alloc = rt.alloc();
    // The second time is past the last that a clock reads.
    let mut clock = ListClock::new(vec![in alloc; 7, 250_000_000_001]?);
    for want in [7, 250_000_000_000, 250_000_000_000] {
        assert_eq!(rt; (&mut clock).now(), want);
    }
    assert_eq!(rt; ListClock::new(Vec::new(alloc)).now(), 0);
    Ok(())
}

#[test]
fn the_system_reads_a_time_of_this_age(rt: HostRuntime) {
    // From 2020 on, and before 2100: the seconds at the start of each year, by `date -u -d 2020-01-01 +%s`.
    let now = SysClock::new(&rt).now();
    assert!(rt; now >= 1_577_836_800 && now < 4_102_444_800, "read {now}");
}

#[test]
fn a_draw_fails_where_it_is_listed_and_at_the_end(rt: HostRuntime) -> Result<(), Fail> {
    let alloc = rt.alloc();
    let mut entropy = ListEntropy::failing(
        vec![in alloc; [1u8; 32], [2u8; 32]]?,
        vec![in alloc; 2]?,
    );
    let mut words = [0u8; 32];
    for want in [Some(1), None, Some(2), None] {
        let drawn = (&mut entropy).draw(&mut words).ok().map(|()| words[31]);
        assert_eq!(rt; drawn, want);
    }
    assert_eq!(rt; entropy.faults(), 2);
    Ok(())
}

#[test]
fn orders_come_in_their_order(rt: HostRuntime) -> Result<(), Fail> {
    let alloc = rt.alloc();
    let tid = Short::of(b"t").unwrap_or(Short::empty());
    let list = vec![in alloc; Order::Deny(tid), Order::Bad]?;
    let mut orders = ListOrders::failing(list, vec![in alloc; 2]?);
    for want in [
        Ok(Some(Order::Deny(tid))),
        Err(Failed),
        Ok(Some(Order::Bad)),
        Ok(None),
    ] {
        assert!(rt; (&mut orders).next() == want);
    }
    assert_eq!(rt; orders.faults(), 1);
    Ok(())
}

#[test]
fn a_line_of_no_form_is_a_bad_order(rt: HostRuntime) {
    let tid = Short::of(b"\x0a\xbc").unwrap_or(Short::empty());
    for (line, want) in [
        (b"release 0aBC".as_slice(), Order::Release(tid)),
        (b"deny 0abc".as_slice(), Order::Deny(tid)),
        (b"deny 0abc ".as_slice(), Order::Bad),
        (b"deny 0ab".as_slice(), Order::Bad),
        (b"deny ".as_slice(), Order::Bad),
        (b"Deny 0abc".as_slice(), Order::Bad),
        (b"".as_slice(), Order::Bad),
    ] {
        assert!(rt; order_of_line(line) == want);
    }
}
