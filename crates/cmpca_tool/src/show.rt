//! The command that tells how the history of a journal stands.
ghost use Rattle.std.specs.Prelude.{◌≡◌, ◌≢◌, ◌≤◌};
ghost use Rattle.cmp_ports.specs.Disk.{Among, LeavesOnly};
ghost use Rattle.cmp_ports.specs.Faults.{Rose};
ghost use Rattle.cmpca_tool.specs.Changes.{run_of};
ghost use Rattle.cmpca_tool.specs.Reply.{IsShowReply};
ghost use Rattle.cmpca_tool.specs.Texts.{text_of};

use crate::reply::{Reply, unmounted};
use crate::status::Status;
use cmp_ports::Disk;
use deal_lines::show_lines;
use desk::history_on;
use desk_laws::at_most_one_answer;
use std::alloc::Global;

/// The lines of the history that the disk holds, or why there is none.
pub fn show<D: Disk>(alloc: Global, disk: &mut D) -> Reply
    ensures reply { IsShowReply (run_of D.content D.images D.moment D.left_since disk.old disk.new) result.status (text_of result.text) }
    ensures streams { (result.status ≢ Status.WriteFault) × (result.status ≢ Status.ReadFault) }
    ensures disk_fault { result.status ≡ Status.DiskFault → Rose (D.faults disk.old) (D.faults disk.new) }
    ensures same { D.content disk.new ≡ D.content disk.old }
    ensures crash { Among (D.images disk.old) (D.images disk.new) }
    ensures moments { LeavesOnly D.moment D.left_since disk.old disk.new (D.images disk.old) }
{
    at_most_one_answer();
    match history_on(alloc, disk) {
        Ok(history) => match show_lines(alloc, &history) {
            Ok(text) => Reply::made(Status::Done, text),
            Err(_) => Reply::no_memory(),
        },
        Err(fault) => unmounted(alloc, fault),
    }
}
