//! Where a worker works.

/// The devices of one worker: the door whose streams it serves, and the clock, the entropy and the gate of its answers.
#[derive(Drop)]
pub struct Station<S, C, E, G> {
    pub door: S,
    pub clock: C,
    pub entropy: E,
    pub gate: G,
}
