//! How a run ends whose words, journal, key file or devices are amiss.

use crate::gates::{Held, Passer, Stages};
use crate::runs::{NOW, check_lines, key_file, link_of, octets_of, serve, station_of, words_from};
use crate::vectors::{FIRST, KEY_FILE, LISTED, MISMATCH, OTHER_KEY_FILE};
use cmp_links::MemDoor;
use cmp_ports::{ListClock, ListEntropy, ListOrders, MemDisk, MemSink, MemSource};
use std::alloc::Global;
use std::process::Abort;
use std::sync::Wait;
use std::test::Fail;
use std::thread::Threads;
use workers::Station;

const ASKED: &[&str] = &["journal", "key", "serve", "65535", "1", "1", "orders"];

/// How the history stands where nothing is granted.
const UNCHANGED: &str = "changes 2\nissue 2 of 32\nreply 0 of 32\n";

/// How it stands where the first ir is.
const GRANTED: &str =
    "changes 3\nissue 3 of 32\nreply 0 of 32\ncert 3 open 1700000300 000102030405060708090a0b0c0d0e0f\n";

/// Words that are of no form: a port, workers and connections that are 0, past the last, with a zero in front or with a sign; a word too
/// few and one too many; another verb.
const USELESS: &[&[&str]] = &[
    &["journal", "key", "serve", "0", "1", "1", "orders"],
    &["journal", "key", "serve", "65536", "1", "1", "orders"],
    &["journal", "key", "serve", "08443", "1", "1", "orders"],
    &["journal", "key", "serve", "+8443", "1", "1", "orders"],
    &["journal", "key", "serve", "8443", "0", "1", "orders"],
    &["journal", "key", "serve", "8443", "17", "1", "orders"],
    &["journal", "key", "serve", "8443", "01", "1", "orders"],
    &["journal", "key", "serve", "8443", "+1", "1", "orders"],
    &["journal", "key", "serve", "8443", "1", "0", "orders"],
    &["journal", "key", "serve", "8443", "1", "1000001", "orders"],
    &["journal", "key", "serve", "8443", "1", "01", "orders"],
    &["journal", "key", "serve", "8443", "1", "-1", "orders"],
    &["journal", "key", "serve", "8443", "1", "orders"],
    &[
        "journal", "key", "serve", "8443", "1", "1", "orders", "more",
    ],
    &["journal", "key", "Serve", "8443", "1", "1", "orders"],
    &["verify", "7365637265742d31"],
];

/// The call of each device that fails, counted from 1, or 0.
#[derive(Clone, Copy)]
struct Failing {
    key: u64,
    disk: u64,
    door: u64,
    orders: u64,
    draw: u64,
    output: u64,
}

const NONE: Failing = Failing {
    key: 0,
    disk: 0,
    door: 0,
    orders: 0,
    draw: 0,
    output: 0,
};

/// A station at which these calls fail, and the first ir is asked.
fn failing_station<'a>(
    alloc: Global,
    failing: Failing,
    stages: &'a Stages,
) -> Result<Station<MemDoor, ListClock, ListEntropy, Held<'a>>, Fail> {
    let links = vec![in alloc; link_of(alloc, FIRST)?]?;
    let draws = vec![in alloc; words_from(0xb0)]?;
    Ok(Station {
        door: MemDoor::failing(links, vec![in alloc; failing.door]?),
        clock: ListClock::new(vec![in alloc; NOW]?),
        entropy: ListEntropy::failing(draws, vec![in alloc; failing.draw]?),
        gate: Held {
            stages,
            passer: Passer::Other,
        },
    })
}

/// Serves one link over a key file and a disk while these calls fail, and compares the number of the status and what is written.
fn check_run<R: Threads + Wait + Sync + Abort>(
    rt: &R,
    alloc: Global,
    stages: &Stages,
    texts: &[&str],
    key: MemSource,
    disk: &mut MemDisk,
    failing: Failing,
    number: u8,
    text: &str,
) -> Result<(), Fail> {
    let mut stations = Vec::new(alloc);
    stations.push(failing_station(alloc, failing, stages)?)?;
    let fails = vec![in alloc; failing.orders]?;
    let orders = ListOrders::failing(Vec::new(alloc), fails);
    let mut out = MemSink::failing(alloc, vec![in alloc; failing.output]?);
    let status = serve(
        rt,
        alloc,
        texts,
        key,
        disk,
        &mut stations,
        orders,
        stages,
        &mut out,
    )?;
    assert_eq!(rt; out.written(), text.as_bytes());
    assert_eq!(rt; status.number(), number);
    Ok(())
}

#[test]
fn words_of_no_form_are_usage(rt: HostRuntime) -> Result<(), Fail> {
    let alloc = rt.alloc();
    let stages = Stages::new();
    let text = "usage: cmpca verify SECRET | JOURNAL KEY COMMAND\n";
    for texts in USELESS {
        let key = MemSource::failing(Vec::new(alloc), vec![in alloc; 1]?);
        let mut disk = MemDisk::new(Vec::new(alloc));
        check_run(&rt, alloc, &stages, texts, key, &mut disk, NONE, 2, text)?;
    }
    Ok(())
}

/// Sixteen stations, whose doors are used up after a link each.
fn sixteen_stations<'a>(
    alloc: Global,
    stages: &'a Stages,
) -> Result<Vec<Station<MemDoor, ListClock, ListEntropy, Held<'a>>>, Fail> {
    let mut stations = Vec::new(alloc);
    for _ in 0..16u8 {
        stations.push(station_of(alloc, "", 0xb0, stages, Passer::Other)?)?;
    }
    Ok(stations)
}

/// Serves them by the last numbers that there are: the words are taken, and then the doors fail.
fn check_last_numbers<R: Threads + Wait + Sync + Abort>(
    rt: &R,
    alloc: Global,
    stages: &Stages,
) -> Result<(), Fail> {
    let mut stations = sixteen_stations(alloc, stages)?;
    let mut disk = MemDisk::new(octets_of(alloc, LISTED)?);
    let mut out = MemSink::new(alloc);
    let status = serve(
        rt,
        alloc,
        &[
            "journal", "key", "serve", "65535", "16", "1000000", "orders",
        ],
        key_file(alloc)?,
        &mut disk,
        &mut stations,
        ListOrders::new(Vec::new(alloc)),
        stages,
        &mut out,
    )?;
    assert_eq!(rt; out.written(), b"read fault\n".as_slice());
    assert_eq!(rt; status.number(), 3);
    Ok(())
}

#[test]
fn the_last_numbers_are_taken(rt: HostRuntime) -> Result<(), Fail> {
    let stages = Stages::new();
    check_last_numbers(&rt, rt.alloc(), &stages)
}

/// The octets that hex digits stand for, only so many of them, with others behind.
fn cut(alloc: Global, digits: &str, count: usize, more: &[u8]) -> Result<Vec<u8>, Fail> {
    let mut octets = octets_of(alloc, digits)?;
    octets.truncate(count);
    octets.extend_from_slice(more)?;
    Ok(octets)
}

/// So many octets of the key file, and an octet behind them where they are all; so many of the journal, and others behind them; the
/// number of the status that a run ends with, and what it writes.
struct Unserved {
    key: &'static str,
    key_octets: usize,
    key_more: &'static [u8],
    log_octets: usize,
    log_more: &'static [u8],
    number: u8,
    text: &'static str,
}

/// The log of the journal has 237 octets without the closed gate at its end. What is amiss with the disk is told before the key file.
const UNSERVED: &[Unserved] = &[
    Unserved {
        key: KEY_FILE,
        key_octets: 95,
        key_more: &[],
        log_octets: 237,
        log_more: &[1, 255, 255, 255, 255],
        number: 7,
        text: "damaged at 237\n",
    },
    Unserved {
        key: KEY_FILE,
        key_octets: 95,
        key_more: &[],
        log_octets: 8,
        log_more: &[],
        number: 8,
        text: "not founded\n",
    },
    Unserved {
        key: OTHER_KEY_FILE,
        key_octets: 96,
        key_more: &[],
        log_octets: 237,
        log_more: &[0],
        number: 9,
        text: MISMATCH,
    },
    Unserved {
        key: KEY_FILE,
        key_octets: 95,
        key_more: &[],
        log_octets: 237,
        log_more: &[0],
        number: 10,
        text: "bad key file\n",
    },
    Unserved {
        key: KEY_FILE,
        key_octets: 96,
        key_more: &[0],
        log_octets: 237,
        log_more: &[0],
        number: 10,
        text: "bad key file\n",
    },
];

/// Compares how a run ends over these octets.
fn check_unserved<R: Threads + Wait + Sync + Abort>(
    rt: &R,
    alloc: Global,
    stages: &Stages,
    row: &Unserved,
) -> Result<(), Fail> {
    let key = MemSource::new(cut(alloc, row.key, row.key_octets, row.key_more)?);
    let mut disk = MemDisk::new(cut(alloc, LISTED, row.log_octets, row.log_more)?);
    check_run(
        rt, alloc, stages, ASKED, key, &mut disk, NONE, row.number, row.text,
    )
}

#[test]
fn a_journal_or_a_key_file_at_fault_is_told(rt: HostRuntime) -> Result<(), Fail> {
    let stages = Stages::new();
    for row in UNSERVED {
        check_unserved(&rt, rt.alloc(), &stages, row)?;
    }
    Ok(())
}

/// Calls that fail, the number of the status that a run ends with, what it writes, and how the history stands then.
struct Failure {
    failing: Failing,
    number: u8,
    text: &'static str,
    lines: &'static str,
}

/// What fails beside the session leaves its certificate. Where the output fails, that is told before all others.
const FAILURES: &[Failure] = &[
    Failure {
        failing: NONE,
        number: 0,
        text: "connections 1\nchanges 3\norders 0 done 0 refused\n",
        lines: GRANTED,
    },
    Failure {
        failing: Failing { key: 1, ..NONE },
        number: 3,
        text: "read fault\n",
        lines: UNCHANGED,
    },
    Failure {
        failing: Failing { door: 1, ..NONE },
        number: 3,
        text: "read fault\n",
        lines: UNCHANGED,
    },
    Failure {
        failing: Failing { draw: 1, ..NONE },
        number: 3,
        text: "read fault\n",
        lines: UNCHANGED,
    },
    Failure {
        failing: Failing { orders: 1, ..NONE },
        number: 3,
        text: "read fault\n",
        lines: GRANTED,
    },
    Failure {
        failing: Failing {
            door: 1,
            output: 1,
            ..NONE
        },
        number: 4,
        text: "",
        lines: UNCHANGED,
    },
    Failure {
        failing: Failing { disk: 1, ..NONE },
        number: 5,
        text: "disk fault\n",
        lines: UNCHANGED,
    },
];

/// Serves the first ir over the journal while these calls fail, compares how the run ends, and gives the disk.
fn check_failing<R: Threads + Wait + Sync + Abort>(
    rt: &R,
    alloc: Global,
    stages: &Stages,
    failing: Failing,
    number: u8,
    text: &str,
) -> Result<MemDisk, Fail> {
    let key = MemSource::failing(octets_of(alloc, KEY_FILE)?, vec![in alloc; failing.key]?);
    let mut disk = MemDisk::failing(octets_of(alloc, LISTED)?, vec![in alloc; failing.disk]?);
    check_run(
        rt, alloc, stages, ASKED, key, &mut disk, failing, number, text,
    )?;
    Ok(disk)
}

#[test]
fn failing_devices_have_their_status(rt: HostRuntime) -> Result<(), Fail> {
    let alloc = rt.alloc();
    let stages = Stages::new();
    for row in FAILURES {
        let mut disk = check_failing(&rt, alloc, &stages, row.failing, row.number, row.text)?;
        check_lines(&rt, alloc, &mut disk, row.lines)?;
    }
    Ok(())
}

// A mount is three calls of the disk. Then the record is written and synced, and its gate is written and synced: that sync fails. Whether
// the change stands then is in doubt, and a call beside the session may settle it.
#[test]
fn a_failing_sync_is_told_before_other_faults(rt: HostRuntime) -> Result<(), Fail> {
    let stages = Stages::new();
    for orders in [0, 1] {
        let failing = Failing {
            disk: 7,
            orders,
            ..NONE
        };
        check_failing(&rt, rt.alloc(), &stages, failing, 5, "disk fault\n")?;
    }
    Ok(())
}
