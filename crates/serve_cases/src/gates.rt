//! Gates at which the answers of two stations wait for each other.

use cmp_ports::{Gate, Point};
use std::sync::atomic::{AtomicBool, AtomicU64, Ordering};

/// How often a gate looks whether the other answer has come as far.
const MOST_TURNS: u32 = 1_000_000_000;

/// How far the answers of two stations are, each by the number of the last point that its gate let it pass.
#[derive(Drop)]
pub struct Stages {
    first: AtomicU64,
    second: AtomicU64,
    late: AtomicBool,
}

impl Stages {
    pub fn new() -> Stages {
        Stages {
            first: AtomicU64::new(0),
            second: AtomicU64::new(0),
            late: AtomicBool::new(false),
        }
    }

    /// Whether a gate has turned as often as it may.
    pub fn is_late(&self) -> bool {
        self.late.load(Ordering::SeqCst)
    }

    // Turns until an answer has passed this point.
    fn turn_until(&self, stage: &AtomicU64, point: Point) {
        for _ in 0..MOST_TURNS {
            if stage.load(Ordering::SeqCst) >= number_of(point) {
                return;
            }
        }
        self.late.store(true, Ordering::SeqCst);
    }
}

// The place of a point in an answer, counted from 1.
fn number_of(point: Point) -> u64 {
    match point {
        Point::Looked => 1,
        Point::Checked => 2,
        Point::Decided => 3,
        Point::Sealed => 4,
        Point::Idle => 0,
    }
}

/// Whose answers pass a gate.
#[derive(Clone, Copy, Debug, PartialEq, Eq)]
pub enum Passer {
    /// The first station's, held once checked until the second one's has its reply.
    First,
    /// The second station's, held once it has looked until the first one's has looked.
    Second,
    /// Nobody's who is held.
    Other,
}

/// A gate over these stages.
#[derive(Drop)]
pub struct Held<'a> {
    pub stages: &'a Stages,
    pub passer: Passer,
}

impl Gate for Held<'_> {
    fn pass(&mut self, point: Point) {
        let stages = self.stages;
        match self.passer {
            Passer::First => {
                if point == Point::Checked {
                    stages.turn_until(&stages.second, Point::Sealed);
                }
                stages.first.store(number_of(point), Ordering::SeqCst);
            }
            Passer::Second => {
                if point == Point::Looked {
                    stages.turn_until(&stages.first, Point::Looked);
                }
                stages.second.store(number_of(point), Ordering::SeqCst);
            }
            Passer::Other => {}
        }
    }
}
