//! What a command replies, and the words that several commands reply with.
ghost use Rattle.std.specs.Prelude.{◌≡◌, ◌≢◌, ◌++◌, IfOk, codes};
ghost use Rattle.std.specs.Fmt.{decimal};
ghost use Rattle.cmpca_tool.specs.Lines.{line};
ghost use Rattle.cmpca_tool.specs.Mounts.{IsFaultReply, fault_line};
ghost use Rattle.cmpca_tool.specs.Texts.{text_of};

use crate::status::Status;
use cmp_ports::Octets;
use desk::MountFault;
use itoa::Buffer;
use std::alloc::{AllocError, Global};

/// What a run writes.
#[derive(Drop)]
pub enum Text {
    /// A line that stands in the program.
    Line(&'static [u8]),
    /// A text that the run made.
    Made(Octets),
}

impl Text {
    /// The octets.
    pub fn as_slice(&self) -> &[u8]
        ensures { result.now ≡ text_of self.now }
    {
        match self {
            Text::Line(line) => line,
            Text::Made(octets) => octets.as_slice(),
        }
    }
}

/// What a run writes, and how it ends where all of it is written.
#[derive(Drop)]
pub struct Reply {
    pub status: Status,
    pub text: Text,
}

impl Reply {
    /// The reply with a line that stands in the program.
    pub fn says(status: Status, line: &'static [u8]) -> Reply
        ensures ends { result.status ≡ status }
        ensures says { text_of result.text ≡ line.now }
    {
        Reply {
            status,
            text: Text::Line(line),
        }
    }

    /// The reply with a text that was made.
    pub fn made(status: Status, octets: Octets) -> Reply
        ensures ends { result.status ≡ status }
        ensures says { text_of result.text ≡ octets }
    {
        Reply {
            status,
            text: Text::Made(octets),
        }
    }

    /// The reply where a source that is read, or the entropy, fails.
    pub fn read_fault() -> Reply
        ensures ends { result.status ≡ Status.ReadFault }
        ensures says { text_of result.text ≡ line (codes "read fault") }
    {
        Reply::says(Status::ReadFault, b"read fault\n")
    }

    /// The reply where memory runs out.
    pub fn no_memory() -> Reply
        ensures ends { result.status ≡ Status.NoMemory }
        ensures says { text_of result.text ≡ line (codes "no memory") }
    {
        Reply::says(Status::NoMemory, b"no memory\n")
    }
}

/// The line that names the offset of a damage.
fn damaged_line(alloc: Global, at: u64) -> Result<Octets, AllocError>
    ensures { IfOk result (λ text. text ≡ fault_line (MountFault.Damaged at)) }
{
    let mut text = Octets::empty(alloc);
    let mut digits = Buffer::new();
    text.append(b"damaged at ")?;
    text.append(digits.format(at).as_bytes())?;
    text.append(b"\n")?;
    Ok(text)
}

/// The reply of a command whose disk is not mounted.
pub fn unmounted(alloc: Global, fault: MountFault) -> Reply
    ensures reply { IsFaultReply fault result.status (text_of result.text) }
    ensures streams { (result.status ≢ Status.WriteFault) × (result.status ≢ Status.ReadFault) }
    ensures disk { result.status ≡ Status.DiskFault → fault ≡ MountFault.DiskFault }
{
    match fault {
        MountFault::NotFounded => Reply::says(Status::NotFounded, b"not founded\n"),
        MountFault::Damaged { at } => match damaged_line(alloc, at) {
            Ok(text) => Reply::made(Status::Damaged { at }, text),
            Err(_) => Reply::no_memory(),
        },
        MountFault::DiskFault => Reply::says(Status::DiskFault, b"disk fault\n"),
        MountFault::NoMemory => Reply::no_memory(),
    }
}
