//! Points at which others may watch an answer.

use std::time::Duration;
use std::{rt, thread};

/// How far an answer is, or that there is nothing to do.
#[derive(Clone, Copy, Debug, PartialEq, Eq)]
pub enum Point {
    /// The history was looked at.
    Looked,
    /// The message was checked.
    Checked,
    /// The message was decided.
    Decided,
    /// The reply was made.
    Sealed,
    /// There is nothing to do for now.
    Idle,
}

/// What is passed at each point of an answer. Nothing is promised of it: a test may hold a call there until another one has come
/// as far.
pub trait Gate {
    /// Passes a point.
    fn pass(&mut self, point: Point);
}

/// A gate that is lent.
impl<G: Gate> Gate for &mut G {
    fn pass(&mut self, point: Point) {
        (**self).pass(point)
    }
}

/// A gate that holds nobody. Where there is nothing to do it pauses for a moment, by this runtime.
#[derive(Drop)]
pub struct OpenGate<R: rt::Clock + Drop> {
    clock: R,
}

impl<R: rt::Clock + Drop> OpenGate<R> {
    /// A gate over the runtime's clock.
    pub fn new(clock: R) -> OpenGate<R> {
        OpenGate { clock }
    }
}

impl<R: rt::Clock + Drop> Gate for OpenGate<R> {
    fn pass(&mut self, point: Point) {
        if point == Point::Idle {
            thread::sleep(&self.clock, Duration::from_millis(1));
        }
    }
}
