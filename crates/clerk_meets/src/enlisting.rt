ghost use Rattle.std.specs.Prelude.{◌≡◌, ◌+◌, ◌≤◌, ◌<◌, length, None, IfOk};
ghost use Rattle.desk.specs.Listings.{AreFit};
ghost use Rattle.turnstile.specs.Lists.{Extends};
ghost use Rattle.turnstile.specs.Steps.{Rests};

use crate::desks::{FOUNDED, NOW, mounted};
use cmp_ports::{Disk, MemDisk, Short};
use deal_model::{Credential, CredentialList, Kind};
use desk::{Desk, Listing};
use std::alloc::{AllocError, Global};
use std::sync::Wait;
use std::test::Fail;
use std::thread::{Threads, join};
use turnstile::{Chronicle, Seat, Turnstile};

// One reference, which is a letter with a number behind it.
fn reference(alloc: Global, letter: u8, number: u8) -> Result<CredentialList, AllocError>
    requires letter { letter < 128 }
    requires number { number < 128 }
    ensures { IfOk result (λ list. AreFit list × (length list ≡ 1)) }
{
    let Some(kid) = Short::of(&[letter, number]) else {
        unreachable!()
    };
    let Some(material) = Short::of(b"01234567") else {
        unreachable!()
    };
    Ok(CredentialList::of(vec![in alloc;
        Credential {
            kind: Kind::Mac,
            kid,
            material,
            rights: 1,
        },
    ]?))
}

/// A value to which references can be listed.
trait Lister: Chronicle {
    ghost use Rattle.desk.specs.Listings.{AreFit};
    ghost use Rattle.turnstile.specs.Lists.{Extends};

    /// Lists one reference, and tells how many changes that made.
    fn list(&mut self, list: &CredentialList) -> u64
        requires fit { AreFit list.now }
        requires one { length list.now ≡ 1 }
        ensures one { result ≤ 1 }
        ensures grown { Extends (Self.history self.old) (Self.history self.new) }
        ensures kept { Self.kept self.old → Self.kept self.new }
        ensures count { length (Self.history self.new) ≡ length (Self.history self.old) + result };
}

impl<D: Disk + Drop> Lister for Desk<D> {
    fn list(&mut self, list: &CredentialList) -> u64 {
        match self.enlist(list, NOW) {
            Listing::Done { .. } => 1,
            _ => 0,
        }
    }
}

// Lists one in a turn of a seat: so many places more are the seat's.
fn list_in_turn<T: Lister, R: Wait>(
    rt: &R,
    stile: &Turnstile<T>,
    seat: &mut Seat<T>,
    list: &CredentialList,
) -> u64
    requires own { seat.old.table_id ≡ stile.now.table.shared.table_id }
    requires rests { Rests seat.old.me }
    requires fit { AreFit list.now }
    requires one { length list.now ≡ 1 }
    ensures one { result ≤ 1 }
    ensures own { seat.new.table_id ≡ seat.old.table_id }
    ensures rests { Rests seat.new.me }
    ensures share { seat.new.me.0.share ≡ seat.old.me.0.share }
    ensures mine { length seat.new.me.0.mine ≡ length seat.old.me.0.mine + result }
{
    let mut desk = stile.enter(rt, seat);
    let count = desk.list(list);
    stile.leave(seat, desk);
    count
}

// Lists a hundred references that begin with a letter, each in a turn of its own, and tells how many places the seat gained.
fn list_hundred<T: Lister, R: Wait>(
    rt: &R,
    alloc: Global,
    stile: &Turnstile<T>,
    mut seat: Seat<T>,
    letter: u8,
) -> (u64, Seat<T>)
    requires own { seat.table_id ≡ stile.now.table.shared.table_id }
    requires rests { Rests seat.me }
    requires letter { letter < 128 }
    ensures own { result.1.table_id ≡ seat.table_id }
    ensures rests { Rests result.1.me }
    ensures share { result.1.me.0.share ≡ seat.me.0.share }
    ensures mine { length result.1.me.0.mine ≡ length seat.me.0.mine + result.0 }
{
    let mut places = 0;
    for number in 0..100u8 {
        if let Ok(list) = reference(alloc, letter, number) {
            places += list_in_turn(rt, stile, &mut seat, &list);
        }
    }
    (places, seat)
}

// Two threads list a hundred references each, by a seat that counts for two. Tells how many places each gained.
fn list_by_two<T: Lister + Send, R: Threads + Wait + Sync>(
    rt: &R,
    alloc: Global,
    stile: &Turnstile<T>,
    mut first: Seat<T>,
) -> (u64, u64, Seat<T>)
    requires own { first.table_id ≡ stile.now.table.shared.table_id }
    requires rests { Rests first.me }
    requires none { length first.me.0.mine ≡ 0 }
    requires two { first.me.0.share ≡ 2 }
    ensures own { result.2.table_id ≡ first.table_id }
    ensures rests { Rests result.2.me }
    ensures share { result.2.me.0.share ≡ 2 }
    ensures mine { length result.2.me.0.mine ≡ result.0 + result.1 }
{
    let second = stile.split(&mut first);
    let ((by_first, mut first), (by_second, second)) = join(
        rt,
        move || list_hundred(rt, alloc, stile, first, b'a'),
        move || list_hundred(rt, alloc, stile, second, b'b'),
    );
    stile.join(&mut first, second);
    (by_first, by_second, first)
}

// What two threads listed at a desk: how many places each seat gained, and how many changes stand then.
fn listed_by_two<R: Threads + Wait + Sync>(
    rt: &R,
    alloc: Global,
    desk: Desk<MemDisk>,
) -> Option<(u64, u64, u64)>
    requires { desk.mark ≡ None }
{
    let Ok((stile, seat)) = Turnstile::new(alloc, desk, 2) else {
        return None;
    };
    let (first, second, seat) = list_by_two(rt, alloc, &stile, seat);
    let desk = stile.close(seat);
    Some((first, second, desk.length()))
}

#[test]
fn two_threads_list_a_hundred_each(rt: HostRuntime) -> Result<(), Fail> {
    let desk = mounted(rt.alloc(), FOUNDED)?;
    let told = listed_by_two(&rt, rt.alloc(), desk);
    assert!(rt; told == Some((100, 100, 201)));
    Ok(())
}
