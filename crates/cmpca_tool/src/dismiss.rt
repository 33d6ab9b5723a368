//! The command that dismisses a credential.
ghost use Rattle.std.specs.Prelude.{◌≡◌, ◌≢◌, ◌≤◌, None};
ghost use Rattle.cmp_ports.specs.Disk.{LeavesOnly};
ghost use Rattle.cmp_ports.specs.Faults.{Rose};
ghost use Rattle.desk.specs.History.{history_of};
ghost use Rattle.desk.specs.Images.{RecoversWith, MayCome};
ghost use Rattle.cmpca_tool.specs.Changes.{run_of, IsStep};
ghost use Rattle.cmpca_tool.specs.Deeds.{Dismisses, IsDismissedAt, listing_status, listing_line};
ghost use Rattle.cmpca_tool.specs.Reply.{IsChangeReply};
ghost use Rattle.cmpca_tool.specs.Texts.{text_of};

use crate::ending::disk_of;
use crate::reply::{Reply, Text, unmounted};
use crate::status::Status;
use cmp_ports::{Disk, Short};
use deal_model::Kind;
use desk::{Desk, Listing};
use desk_laws::at_most_one_answer;
use std::alloc::Global;

/// How a run ends after a listing or a dismissal ended so.
pub fn listing_status(listing: Listing) -> Status
    ensures status { result ≡ listing_status listing }
    ensures disk { result ≡ Status.DiskFault → listing ≡ Listing.DiskFault }
    ensures streams { (result ≢ Status.WriteFault) × (result ≢ Status.ReadFault) }
{
    match listing {
        Listing::Done { .. } => Status::Done,
        Listing::DiskFault => Status::DiskFault,
        Listing::NoMemory => Status::NoMemory,
        _ => Status::Refused,
    }
}

/// What is written then, with this text where it was done.
pub fn listing_text(listing: Listing, done: Text) -> Text
    ensures { text_of result ≡ listing_line (text_of done) listing }
{
    match listing {
        Listing::Done { .. } => done,
        Listing::InUse { .. } => Text::Line(b"refused reference in use\n"),
        Listing::Unknown => Text::Line(b"refused unknown credential\n"),
        Listing::Already => Text::Line(b"refused already dismissed\n"),
        Listing::Full => Text::Line(b"refused journal full\n"),
        Listing::DiskFault => Text::Line(b"disk fault\n"),
        Listing::NoMemory => Text::Line(b"no memory\n"),
    }
}

/// Dismisses a credential at a desk where nothing is in doubt.
fn dismiss_on<F: Disk>(desk: &mut Desk<F>, kind: Kind, id: &Short, now: u64) -> Reply
    requires clock { now ≤ 250000000000 }
    requires clear { desk.old.doubt ≡ None }
    ensures reply { Dismisses kind id.now now (history_of desk.old) result.status (text_of result.text) (history_of desk.new) desk.new.doubt }
    ensures makes { IsStep (IsDismissedAt kind id.now now (history_of desk.old)) (history_of desk.old) (history_of desk.new) desk.new.doubt }
    ensures moments { LeavesOnly F.moment F.left_since desk.old.disk desk.new.disk (RecoversWith (history_of desk.old) (MayCome (IsDismissedAt kind id.now now (history_of desk.old)) (history_of desk.old))) }
    ensures streams { (result.status ≢ Status.WriteFault) × (result.status ≢ Status.ReadFault) }
    ensures disk_fault { result.status ≡ Status.DiskFault → Rose (F.faults desk.old.disk) (F.faults desk.new.disk) }
    ensures loan { F.loan desk.new.disk ≡ F.loan desk.old.disk }
{
    let listing = desk.dismiss(kind, id, now);
    Reply {
        status: listing_status(listing),
        text: listing_text(listing, Text::Line(b"dismissed\n")),
    }
}

/// Dismisses a credential of the history that the disk holds, at this time in seconds since 1970.
pub fn run_dismiss<D: Disk>(alloc: Global, kind: Kind, id: &Short, disk: &mut D, now: u64) -> Reply
    requires { now ≤ 250000000000 }
    ensures reply { IsChangeReply (run_of D.content D.images D.moment D.left_since disk.old disk.new) (Dismisses kind id.now now) (IsDismissedAt kind id.now now) result.status (text_of result.text) }
    ensures streams { (result.status ≢ Status.WriteFault) × (result.status ≢ Status.ReadFault) }
    ensures disk_fault { result.status ≡ Status.DiskFault → Rose (D.faults disk.old) (D.faults disk.new) }
{
    at_most_one_answer();
    let mut desk = match Desk::mount(alloc, &mut *disk) {
        Ok(desk) => desk,
        Err(failed) => {
            let fault = failed.1;
            let _disk = disk_of(failed);
            return unmounted(alloc, fault);
        }
    };
    let reply = dismiss_on(&mut desk, kind, id, now);
    desk.stands_for_its_disk();
    let _disk = desk.into_disk();
    reply
}
