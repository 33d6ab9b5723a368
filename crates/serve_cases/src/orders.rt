//! An operator's orders while others are served.

use crate::gates::{Held, Passer, Stages};
use crate::runs::{check_lines, key_file, octets_of, serve, station_of};
use crate::vectors::{BROKEN, FIRST, HOLDING};
use cmp_links::MemDoor;
use cmp_ports::{ListClock, ListEntropy, ListOrders, MemDisk, MemSink, order_of_line};
use std::alloc::Global;
use std::process::Abort;
use std::sync::Wait;
use std::test::Fail;
use std::thread::Threads;
use workers::Station;

/// The orders of two lines, of which the second is none.
fn two_lines(alloc: Global) -> Result<ListOrders, Fail> {
    let mut orders = Vec::new(alloc);
    orders.push(order_of_line(b"release 43"))?;
    orders.push(order_of_line(b"frob"))?;
    Ok(ListOrders::new(orders))
}

/// Two stations: at one an ir is asked, and at the other a stream breaks off.
fn two_stations<'a>(
    alloc: Global,
    stages: &'a Stages,
) -> Result<Vec<Station<MemDoor, ListClock, ListEntropy, Held<'a>>>, Fail> {
    let mut stations = Vec::new(alloc);
    stations.push(station_of(alloc, FIRST, 0xb0, stages, Passer::Other)?)?;
    stations.push(station_of(alloc, BROKEN, 0xd0, stages, Passer::Other)?)?;
    Ok(stations)
}

/// Serves both over a history with a held request, and looks at what is written and at how the history stands on the disk.
fn check_orders<R: Threads + Wait + Sync + Abort>(
    rt: &R,
    alloc: Global,
    stages: &Stages,
) -> Result<(), Fail> {
    let mut stations = two_stations(alloc, stages)?;
    let mut disk = MemDisk::new(octets_of(alloc, HOLDING)?);
    let mut out = MemSink::new(alloc);
    let status = serve(
        rt,
        alloc,
        &["journal", "key", "serve", "8443", "2", "1", "orders"],
        key_file(alloc)?,
        &mut disk,
        &mut stations,
        two_lines(alloc)?,
        stages,
        &mut out,
    )?;
    let text = b"connections 2\nchanges 5\norders 1 done 1 refused\n";
    assert_eq!(rt; out.written(), text.as_slice());
    assert_eq!(rt; status.number(), 0);
    let lines =
        "changes 5\nissue 3 of 32\nreply 0 of 32\ncert 3 open 1700000300 000102030405060708090a0b0c0d0e0f\nreleased 43\n";
    check_lines(rt, alloc, &mut disk, lines)
}

// Beside the two workers a held request is released.
#[test]
fn orders_are_taken_beside_the_workers(rt: HostRuntime) -> Result<(), Fail> {
    let stages = Stages::new();
    check_orders(&rt, rt.alloc(), &stages)
}
