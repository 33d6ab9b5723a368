//! What stands in the way of a summary.
ghost use Rattle.std.specs.Prelude.{◌≡◌, ◌≢◌, ◌⊎◌, None, Some, true, false, codes};
ghost use Rattle.cmp_ports.specs.Faults.{Rose};
ghost use Rattle.cmpca_tool.specs.Texts.{text_of};
ghost use Rattle.cmpca_serve.specs.Troubles.{trouble_status, trouble_line, IsOfStop};

use cmpca_tool::{Reply, Status};
use desk::FaultMarks;
use rounds::Stop;
use workers::Account;

/// What failed while others were served or in the last round: of several the first of these.
#[derive(Clone, Copy, Debug, PartialEq, Eq)]
pub(crate) enum Trouble {
    /// A disk under a clerk.
    Disk,
    /// A door, the orders, or an entropy.
    Read,
    /// Memory.
    Memory,
}

impl Trouble {
    /// The trouble by which a round stopped before its end.
    pub(crate) fn of(stop: Stop) -> Trouble
        ensures { IsOfStop stop result }
    {
        match stop {
            Stop::DiskFault => Trouble::Disk,
            Stop::ReadFault => Trouble::Read,
            Stop::NoMemory => Trouble::Memory,
        }
    }

    /// The reply of a run that ends by it.
    pub(crate) fn reply(self) -> Reply
        ensures ends { result.status ≡ trouble_status self }
        ensures says { text_of result.text ≡ trouble_line self }
    {
        match self {
            Trouble::Disk => Reply::says(Status::DiskFault, b"disk fault\n"),
            Trouble::Read => Reply::read_fault(),
            Trouble::Memory => Reply::no_memory(),
        }
    }
}

/// Takes marks in, and tells whether there were some.
pub(crate) fn take_marks(marks: &mut FaultMarks, more: FaultMarks) -> bool
    ensures none { result ≡ false → (more ≡ 0) × (marks.new ≡ marks.old) }
    ensures some { result ≡ true → Rose marks.old marks.new }
{
    if more.count() == 0 {
        return false;
    }
    marks.join(more);
    true
}

/// What else than a disk failed where others were served, or in the round beside them.
pub(crate) fn trouble_in(account: &Account, stop: Option<Stop>) -> Option<Trouble>
    ensures none { result ≡ None → (account.now.door ≡ false) × (account.now.entropy ≡ false) × (account.now.memory ≡ false) × (stop ≡ None) }
    ensures read { result ≡ Some Trouble.Read → (account.now.door ≡ true) ⊎ ((account.now.entropy ≡ true) ⊎ (stop ≡ Some Stop.ReadFault)) }
    ensures disk { result ≢ Some Trouble.Disk }
{
    if account.door || account.entropy || stop == Some(Stop::ReadFault) {
        return Some(Trouble::Read);
    }
    if account.memory || stop.is_some() {
        return Some(Trouble::Memory);
    }
    None
}
