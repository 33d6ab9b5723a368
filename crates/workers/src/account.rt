//! The account of workers, once they are done.
use atomic_table::Badge;
use deal_model::Change;
use desk::FaultMarks;
use turnstile::view::View;

/// What workers leave: their badge, the marks of a disk that failed, and what else went amiss.
#[derive(Drop)]
pub struct Account {
    /// A seat at the turnstile that holds no turn, and counts for all that the workers' badge counted for.
    pub badge: Badge<View<Change>>,
    pub marks: FaultMarks,
    /// Whether a door failed, so that streams are missing.
    pub door: bool,
    /// Whether an entropy failed under an answer.
    pub entropy: bool,
    /// Whether memory ran out in a session.
    pub memory: bool,
}
