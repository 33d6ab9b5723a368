//! The end of a run: its reply is written, and it has its status.
ghost use Rattle.std.specs.Prelude.{◌≡◌, ◌≢◌, ◌≤◌, codes};
ghost use Rattle.cmp_ports.specs.Faults.{Rose};
ghost use Rattle.cmpca_tool.specs.Lines.{line};
ghost use Rattle.cmpca_tool.specs.Reply.{Wrote};
ghost use Rattle.cmpca_tool.specs.Texts.{text_of};

use crate::reply::Reply;
use crate::status::Status;
use cmp_ports::{Disk, Sink, write_all};
use desk::MountFault;

/// Writes the reply of a run, which ends with it.
pub fn finish<W: Sink>(out: &mut W, reply: &Reply) -> Status
    requires { reply.now.status ≢ Status.WriteFault }
    ensures wrote { Wrote (W.written out.old) (W.written out.new) reply.now.status (text_of reply.now.text) result }
    ensures fault { result ≡ Status.WriteFault → Rose (W.faults out.old) (W.faults out.new) }
{
    match write_all(out, reply.text.as_slice()) {
        Ok(()) => reply.status,
        Err(_) => Status::WriteFault,
    }
}

/// Ends a run that memory was refused to before it began.
pub fn no_memory<W: Sink>(out: &mut W) -> Status
    ensures wrote { Wrote (W.written out.old) (W.written out.new) Status.NoMemory (line (codes "no memory")) result }
    ensures fault { result ≡ Status.WriteFault → Rose (W.faults out.old) (W.faults out.new) }
{
    finish(out, &Reply::no_memory())
}

/// The disk that was not mounted.
pub fn disk_of<F: Disk>(failed: (F, MountFault)) -> F
    ensures { result ≡ failed.0 }
{
    failed.0
}
