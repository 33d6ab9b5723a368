//! The commands that release and deny a held request.
ghost use Rattle.std.specs.Prelude.{◌≡◌, ◌≢◌, ◌≤◌, None};
ghost use Rattle.cmp_ports.specs.Disk.{LeavesOnly};
ghost use Rattle.cmp_ports.specs.Faults.{Rose};
ghost use Rattle.desk.specs.History.{history_of};
ghost use Rattle.desk.specs.Images.{RecoversWith, MayCome};
ghost use Rattle.cmpca_tool.specs.Changes.{run_of, IsStep};
ghost use Rattle.cmpca_tool.specs.Deeds.{Obeys, IsOrderedAt, ordered_status, ordered_line};
ghost use Rattle.cmpca_tool.specs.Reply.{IsOrderReply};
ghost use Rattle.cmpca_tool.specs.Texts.{text_of};

use crate::ending::disk_of;
use crate::reply::{Reply, unmounted};
use crate::status::Status;
use cmp_ports::{Disk, Order};
use desk::{Desk, Ordered};
use desk_laws::at_most_one_answer;
use std::alloc::Global;

/// How a run ends after an order ended so.
fn ordered_status(ordered: Ordered) -> Status
    ensures status { result ≡ ordered_status ordered }
    ensures disk { result ≡ Status.DiskFault → ordered ≡ Ordered.DiskFault }
    ensures streams { (result ≢ Status.WriteFault) × (result ≢ Status.ReadFault) }
{
    match ordered {
        Ordered::Done { .. } => Status::Done,
        Ordered::NotHeld | Ordered::Full => Status::Refused,
        Ordered::DiskFault => Status::DiskFault,
        Ordered::NoMemory => Status::NoMemory,
    }
}

/// What is written then, with this line where the order was obeyed.
fn ordered_line(ordered: Ordered, done: &'static [u8]) -> &'static [u8]
    ensures { result.now ≡ ordered_line done.now ordered }
{
    match ordered {
        Ordered::Done { .. } => done,
        Ordered::NotHeld => b"refused not held\n",
        Ordered::Full => b"refused journal full\n",
        Ordered::DiskFault => b"disk fault\n",
        Ordered::NoMemory => b"no memory\n",
    }
}

/// Obeys an order at a desk where nothing is in doubt.
fn order_on<F: Disk>(desk: &mut Desk<F>, order: &Order, done: &'static [u8], now: u64) -> Reply
    requires clock { now ≤ 250000000000 }
    requires clear { desk.old.doubt ≡ None }
    ensures reply { Obeys order.now done.now now (history_of desk.old) result.status (text_of result.text) (history_of desk.new) desk.new.doubt }
    ensures makes { IsStep (IsOrderedAt order.now now (history_of desk.old)) (history_of desk.old) (history_of desk.new) desk.new.doubt }
    ensures moments { LeavesOnly F.moment F.left_since desk.old.disk desk.new.disk (RecoversWith (history_of desk.old) (MayCome (IsOrderedAt order.now now (history_of desk.old)) (history_of desk.old))) }
    ensures streams { (result.status ≢ Status.WriteFault) × (result.status ≢ Status.ReadFault) }
    ensures disk_fault { result.status ≡ Status.DiskFault → Rose (F.faults desk.old.disk) (F.faults desk.new.disk) }
    ensures loan { F.loan desk.new.disk ≡ F.loan desk.old.disk }
{
    let ordered = desk.order(order, now);
    Reply::says(ordered_status(ordered), ordered_line(ordered, done))
}

/// Obeys an order on the history that the disk holds, at this time in seconds since 1970, and replies with this line where it is done.
pub fn run_order<D: Disk>(
    alloc: Global,
    order: &Order,
    done: &'static [u8],
    disk: &mut D,
    now: u64,
) -> Reply
    requires { now ≤ 250000000000 }
    ensures reply { IsOrderReply (run_of D.content D.images D.moment D.left_since disk.old disk.new) order.now done.now now result.status (text_of result.text) }
    ensures streams { (result.status ≢ Status.WriteFault) × (result.status ≢ Status.ReadFault) }
    ensures disk_fault { result.status ≡ Status.DiskFault → Rose (D.faults disk.old) (D.faults disk.new) }
{
    at_most_one_answer();
    let mut desk = match Desk::mount(alloc, &mut *disk) {
        Ok(desk) => desk,
        Err(failed) => {
            let fault = failed.1;
            let _disk = disk_of(failed);
            return unmounted(alloc, fault);
        }
    };
    let reply = order_on(&mut desk, order, done, now);
    desk.stands_for_its_disk();
    let _disk = desk.into_disk();
    reply
}
