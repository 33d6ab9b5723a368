use crate::{FileOrders, Order, Orders, Short};
use std::fs;
use std::test::Fail;

#[test]
fn the_lines_of_a_real_file_are_orders(rt: HostRuntime) -> Result<(), Fail> {
    let mut orders = FileOrders::new(&rt, String::from_str(rt.alloc(), "order_lines")?);
    // The file isn't there before the first call, and is opened by the second. Its last line has no end.
    assert!(rt; orders.next().is_err());
    fs::write(&rt, "order_lines", "release 74\n\nbad\ndeny 74")?;
    let tid = Short::of(b"t").unwrap_or(Short::empty());
    for want in [
        Some(Order::Release(tid)),
        Some(Order::Bad),
        Some(Order::Bad),
        Some(Order::Deny(tid)),
        None,
    ] {
        assert!(rt; orders.next()? == want);
    }
    fs::remove_file(&rt, "order_lines")?;
    Ok(())
}

#[test]
fn a_line_past_the_limit_is_a_fault(rt: HostRuntime) -> Result<(), Fail> {
    let alloc = rt.alloc();
    let mut text = Vec::new(alloc);
    // A line of 65,536 octets, and one of 65,537 with an order behind it.
    for size in [65_536, 65_537] {
        for _ in 0..size {
            text.push(b'0')?;
        }
        text.push(b'\n')?;
    }
    text.extend_from_slice(b"deny 74\n")?;
    fs::write(&rt, "order_long", text.as_slice())?;
    let mut orders = FileOrders::new(&rt, String::from_str(alloc, "order_long")?);
    assert!(rt; orders.next()? == Some(Order::Bad));
    assert!(rt; orders.next().is_err());
    assert!(rt; orders.next().is_err());
    fs::remove_file(&rt, "order_long")?;
    Ok(())
}
