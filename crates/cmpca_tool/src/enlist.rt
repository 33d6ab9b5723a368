//! The command that lists the credentials of a file.
ghost use Rattle.std.specs.Prelude.{◌≡◌, ◌≢◌, ◌≤◌, None, Ok, IfOk, IfErr};
ghost use Rattle.cmp_ports.specs.Disk.{LeavesOnly};
ghost use Rattle.cmp_ports.specs.Faults.{Rose};
ghost use Rattle.cmp_ports.specs.Whole.{TakesUpTo};
ghost use Rattle.registry.specs.Credentials.{AreListable};
ghost use Rattle.desk.specs.Due.{event_time};
ghost use Rattle.desk.specs.History.{history_of};
ghost use Rattle.desk.specs.Images.{RecoversWith, MayCome};
ghost use Rattle.desk.specs.Listings.{IsEnlisting};
ghost use Rattle.cmpca_tool.specs.Changes.{run_of, IsStep};
ghost use Rattle.cmpca_tool.specs.Deeds.{IsFile, IsUnlisted, Lists, enlisted_line};
ghost use Rattle.cmpca_tool.specs.Reply.{IsEnlistReply};
ghost use Rattle.cmpca_tool.specs.Sources.{source_run, Told, file_most};
ghost use Rattle.cmpca_tool.specs.Texts.{text_of};

use crate::dismiss::{listing_status, listing_text};
use crate::ending::disk_of;
use crate::file::{FILE_LIMIT, Unread, unread_reply};
use crate::reply::{Reply, Text, unmounted};
use crate::status::Status;
use cmp_ports::{Disk, Octets, ReadError, Source, read_up_to};
use deal_model::CredentialList;
use desk::Desk;
use desk_laws::at_most_one_answer;
use itoa::Buffer;
use registry::{RegFault, read_credentials};
use std::alloc::{AllocError, Global};

/// The line that tells how many were listed.
fn enlisted_line(alloc: Global, count: usize) -> Result<Octets, AllocError>
    ensures { IfOk result (λ text. text ≡ enlisted_line count) }
{
    let mut text = Octets::empty(alloc);
    let mut digits = Buffer::new();
    text.append(b"enlisted ")?;
    text.append(digits.format(count).as_bytes())?;
    text.append(b"\n")?;
    Ok(text)
}

/// The credentials of a file, which is read from `input` to its end, at most one octet past its limit.
fn read_list<S: Source>(alloc: Global, input: &mut S) -> Result<CredentialList, Unread>
    ensures read { IfOk result (λ list. IsFile (S.left input.old) (Ok list)) }
    ensures unread { IfErr result (IsUnlisted (S.left input.old)) }
    ensures listable { IfOk result AreListable }
    ensures taken { TakesUpTo file_most (S.left input.old) (S.left input.new) }
    ensures fault { IfErr result (λ f. f ≡ Unread.ReadFault → Rose (S.faults input.old) (S.faults input.new)) }
{
    let octets = match read_up_to(alloc, input, FILE_LIMIT) {
        Ok(octets) => octets,
        Err(ReadError::Fault) => return Err(Unread::ReadFault),
        Err(ReadError::NoMemory) => return Err(Unread::Bad(RegFault::NoMemory)),
    };
    match read_credentials(alloc, octets.as_slice()) {
        Ok(list) => Ok(list),
        Err(fault) => Err(Unread::Bad(fault)),
    }
}

/// Lists credentials at a desk where nothing is in doubt. The line that tells it is made before.
fn enlist_on<F: Disk>(alloc: Global, desk: &mut Desk<F>, list: &CredentialList, now: u64) -> Reply
    requires clock { now ≤ 250000000000 }
    requires clear { desk.old.doubt ≡ None }
    requires listable { AreListable list.now }
    ensures reply { Lists list.now (event_time (history_of desk.old) now) (history_of desk.old) result.status (text_of result.text) (history_of desk.new) desk.new.doubt }
    ensures makes { IsStep (IsEnlisting list.now (event_time (history_of desk.old) now)) (history_of desk.old) (history_of desk.new) desk.new.doubt }
    ensures moments { LeavesOnly F.moment F.left_since desk.old.disk desk.new.disk (RecoversWith (history_of desk.old) (MayCome (IsEnlisting list.now (event_time (history_of desk.old) now)) (history_of desk.old))) }
    ensures streams { (result.status ≢ Status.WriteFault) × (result.status ≢ Status.ReadFault) }
    ensures disk_fault { result.status ≡ Status.DiskFault → Rose (F.faults desk.old.disk) (F.faults desk.new.disk) }
    ensures loan { F.loan desk.new.disk ≡ F.loan desk.old.disk }
{
    desk.stands_for_its_disk();
    let done = match enlisted_line(alloc, list.len()) {
        Ok(done) => done,
        Err(_) => return Reply::no_memory(),
    };
    let listing = desk.enlist(list, now);
    Reply {
        status: listing_status(listing),
        text: listing_text(listing, Text::Made(done)),
    }
}

/// Lists the credentials of the input on the history that the disk holds, at this time in seconds since 1970. Where the disk isn't
/// mounted, nothing of the input is read.
pub fn run_enlist<D: Disk, S: Source>(alloc: Global, input: &mut S, disk: &mut D, now: u64) -> Reply
    requires { now ≤ 250000000000 }
    ensures told { Told (S.left input.old) (IsEnlistReply (run_of D.content D.images D.moment D.left_since disk.old disk.new) (source_run S.faults input.old input.new) now) result.status (text_of result.text) }
    ensures taken { TakesUpTo file_most (S.left input.old) (S.left input.new) }
    ensures read_fault { result.status ≡ Status.ReadFault → Rose (S.faults input.old) (S.faults input.new) }
    ensures no_write { result.status ≢ Status.WriteFault }
    ensures disk_fault { result.status ≡ Status.DiskFault → Rose (D.faults disk.old) (D.faults disk.new) }
{
    at_most_one_answer();
    let mut desk = match Desk::mount(alloc, &mut *disk) {
        Ok(desk) => desk,
        Err(failed) => {
            let fault = failed.1;
            let _disk = disk_of(failed);
            return unmounted(alloc, fault);
        }
    };
    match read_list(alloc, input) {
        Ok(list) => {
            let reply = enlist_on(alloc, &mut desk, &list, now);
            desk.stands_for_its_disk();
            let _disk = desk.into_disk();
            reply
        }
        Err(unread) => {
            desk.stands_for_its_disk();
            let _disk = desk.into_disk();
            unread_reply(alloc, unread)
        }
    }
}
