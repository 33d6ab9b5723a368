//! Lists credentials, and dismisses them.
ghost use Rattle.std.specs.Prelude.{◌≡◌, ◌≢◌, ◌<◌, ◌≤◌, length, position, IfSome, MatchOption, IfOk};
ghost use Rattle.cmp_ports.specs.Disk.{LeavesOnly};
ghost use Rattle.cmp_ports.specs.Faults.{Rose};
ghost use Rattle.desk.specs.History.{history_of};
ghost use Rattle.desk.specs.Images.{RecoversWith, DoubtOr, MayCome};
ghost use Rattle.desk.specs.Due.{event_time};
ghost use Rattle.desk.specs.Listings.{listing_end, AreFit, is_used, AreFree, IsEnlisting, IsEnlisted, IsDismissal, IsDismissed};

use crate::answers::{Added, Listing};
use crate::desk::Desk;
use crate::lapsing::event_time;
use cmp_ports::{Disk, Short};
use deal_answers::{is_dismissed, is_key_taken, is_listed};
use deal_model::{Change, Credential, CredentialList, Kind, Who};
use std::alloc::{AllocError, Global};

// Whether a credential's reference was ever listed, or its key identifier stands somewhere.
fn is_used(h: &[Change], c: &Credential) -> bool
    ensures { result ≡ is_used h.now c.now }
{
    match c.kind {
        Kind::Mac => is_listed(h, Kind::Mac, c.kid.as_slice()),
        Kind::Lms => is_key_taken(h, c.kid.as_slice()),
    }
}

// The index of the first credential in use.
fn first_used(h: &[Change], list: &[Credential]) -> Option<usize>
    ensures first { result ≡ position (is_used h.now) list.now }
    ensures free { MatchOption result (AreFree h.now list.now) (λ index. index < length list.now) }
{
    list.iter().position(|c| is_used(h, c))
}

// The change that lists these.
fn enlisting(alloc: Global, list: &CredentialList, time: u64) -> Result<Change, AllocError>
    ensures { IfOk result (IsEnlisting list.now time) }
{
    let list = CredentialList::copy_of(alloc, list.as_slice())?;
    Ok(Change::Enlist { time, list })
}

// How a listing or a dismissal ends whose change was added so, where the history has so many changes then.
fn listing_end(added: Added, place: u64) -> Listing
    ensures { result ≡ listing_end added place }
{
    match added {
        Added::Done => Listing::Done { place },
        Added::Full => Listing::Full,
        Added::DiskFault => Listing::DiskFault,
        Added::NoMemory => Listing::NoMemory,
    }
}

impl<D: Disk> Desk<D> {
    /// Lists credentials, all by one change. The time is a clock's reading in seconds since 1970.
    pub fn enlist(&mut self, list: &CredentialList, now: u64) -> Listing
        requires clock { now ≤ 250000000000 }
        requires some { 1 ≤ length list.now }
        requires most { length list.now ≤ 256 }
        // Each is of its form, the identifier of an HSS/LMS one is its key's, and none stands twice by kind and identifier.
        requires fit { AreFit list.now }
        ensures ends { IsEnlisted (history_of self.old) self.old.doubt list.now (event_time (history_of self.old) now) result (history_of self.new) self.new.doubt }
        // Only the change that was in doubt, or the call's own that may come next, is in doubt afterwards.
        ensures doubt { IfSome self.new.doubt (DoubtOr self.old.doubt (MayCome (IsEnlisting list.now (event_time (history_of self.old) now)) (history_of self.old))) }
        // A stop at any moment of the call leaves the history, with the change in doubt behind it, with the list's, or alone.
        ensures moments { LeavesOnly D.moment D.left_since self.old.disk self.new.disk (RecoversWith (history_of self.old) (DoubtOr self.old.doubt (MayCome (IsEnlisting list.now (event_time (history_of self.old) now)) (history_of self.old)))) }
        ensures fault { result ≡ Listing.DiskFault → Rose (D.faults self.old.disk) (D.faults self.new.disk) }
        ensures later { D.faults self.old.disk ≤ D.faults self.new.disk }
        ensures exact { result ≢ Listing.DiskFault → D.faults self.new.disk ≡ D.faults self.old.disk }
        ensures loan { D.loan self.new.disk ≡ D.loan self.old.disk }
        // The mark of another call stays.
        ensures mark { self.new.mark ≡ self.old.mark }
    {
        let changes = self.changes();
        let time = event_time(changes, now);
        if let Some(index) = first_used(changes, list.as_slice()) {
            return Listing::InUse {
                index: index as u32,
            };
        }
        let Ok(change) = enlisting(*self.history.allocator(), list, time) else {
            return Listing::NoMemory;
        };
        let added = self.add(change);
        listing_end(added, self.length())
    }

    /// Dismisses a listed credential, by its kind and identifier. The time is a clock's reading in seconds since 1970.
    pub fn dismiss(&mut self, kind: Kind, kid: &Short, now: u64) -> Listing
        requires { now ≤ 250000000000 }
        ensures ends { IsDismissed (history_of self.old) self.old.doubt kind kid.now (event_time (history_of self.old) now) result (history_of self.new) self.new.doubt }
        // Only the change that was in doubt, or the call's own that may come next, is in doubt afterwards.
        ensures doubt { IfSome self.new.doubt (DoubtOr self.old.doubt (MayCome (IsDismissal kind kid.now (event_time (history_of self.old) now)) (history_of self.old))) }
        // A stop at any moment of the call leaves the history, with the change in doubt behind it, with the dismissal, or alone.
        ensures moments { LeavesOnly D.moment D.left_since self.old.disk self.new.disk (RecoversWith (history_of self.old) (DoubtOr self.old.doubt (MayCome (IsDismissal kind kid.now (event_time (history_of self.old) now)) (history_of self.old)))) }
        ensures fault { result ≡ Listing.DiskFault → Rose (D.faults self.old.disk) (D.faults self.new.disk) }
        ensures later { D.faults self.old.disk ≤ D.faults self.new.disk }
        ensures exact { result ≢ Listing.DiskFault → D.faults self.new.disk ≡ D.faults self.old.disk }
        ensures loan { D.loan self.new.disk ≡ D.loan self.old.disk }
        // The mark of another call stays.
        ensures mark { self.new.mark ≡ self.old.mark }
    {
        let changes = self.changes();
        let time = event_time(changes, now);
        if !is_listed(changes, kind, kid.as_slice()) {
            return Listing::Unknown;
        }
        if is_dismissed(changes, kind, kid.as_slice()) {
            return Listing::Already;
        }
        let who = Who::Listed(kind, *kid);
        let added = self.add(Change::Dismiss { time, who });
        listing_end(added, self.length())
    }
}
