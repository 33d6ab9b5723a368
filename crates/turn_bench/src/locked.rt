//! The same turns through a mutex of std.
use crate::counter::Counter;
use std::sync::{Mutex, Wait};
use std::thread::{Threads, join};

fn take<R: Wait>(rt: &R, lock: &Mutex<Counter>, turns: u64) {
    for _ in 0..turns {
        lock.lock(rt).add();
    }
}

/// So many turns of each of so many threads.
pub fn take_all<R: Threads + Wait + Sync>(rt: &R, lock: &Mutex<Counter>, threads: u32, turns: u64) {
    if threads <= 1 {
        take(rt, lock, turns);
        return;
    }
    let rest = threads - 1;
    join(
        rt,
        || take(rt, lock, turns),
        || take_all(rt, lock, rest, turns),
    );
}
