//! The points of an answer.

use crate::{Gate, OpenGate, Point};

#[test]
fn an_open_gate_holds_nobody(rt: HostRuntime) {
    let mut gate = OpenGate::new(&rt);
    gate.pass(Point::Looked);
    gate.pass(Point::Idle);
}
