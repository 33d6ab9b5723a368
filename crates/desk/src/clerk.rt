//! Whoever keeps a history for those that answer messages.
ghost use Rattle.std.specs.Prelude.{◌≡◌, ◌≢◌, ◌≤◌, ℕ, List, ◌++◌, Option, None, IfSome, IfOk};
ghost use Rattle.atomic_table.specs.Seated.{TableId};
ghost use Rattle.cmp_ports.specs.Disk.{LeavesOnly, Every};
ghost use Rattle.cmp_ports.specs.Faults.{Rose};
ghost use Rattle.deal_changes.specs.declared.change.Change.{Change};
ghost use Rattle.deal_model.specs.Rules.{Allowed, Legal};
ghost use Rattle.deal_table.specs.History.{Begins, IsFounded, look_of, grant_receipt};
ghost use Rattle.deal_table.specs.Message.{Letter};
ghost use Rattle.deal_table.specs.Carry.{FitsChecked, Carries, untold, HashIsTold};
ghost use Rattle.desk.specs.Due.{event_time, IsLapse};
ghost use Rattle.desk.specs.Calls.{IsLapsed, IsOrder, IsOrdered};
ghost use Rattle.desk.specs.Images.{RecoversWith, IsDoubt, DoubtOr, MayCome};
ghost use Rattle.desk.specs.Verdicts.{Decides, IsInTime, LeftMakes, IsLeft};
ghost use Rattle.desk.specs.Clerks.{decided_place, lapsed_place, ordered_place, IsDecidedSince, IsLapsedSince, IsOrderedSince};

use crate::answers::{Lapsed, Ordered};
use crate::receipt::Receipt;
use crate::verdict::Verdict;
use cmp_ports::{Order, Short};
use deal_model::{Ask, Checked};
use deal_table::Look;
use std::alloc::AllocError;

/// Keeps a history for those that answer messages, and others may keep it too: what it has seen only grows, and each answer is
/// about the history that it has seen after the call. Times are a clock's readings in seconds since 1970.
///
/// A clerk that has its history to itself tells what a stop at any moment leaves on the disk; one that shares it tells nothing
/// of that.
pub trait Clerk {
    /// The history, as far as the clerk has seen it.
    ghost seen: { Self → List Change };

    /// The places of the changes that were made through the clerk, in the order in which they were made.
    ghost mine: { Self → List ℕ };

    /// How often a disk failed under the clerk's calls.
    ghost faults: { Self → ℕ };

    /// The loan by which what was lent to the clerk is held, by its number. A call keeps it, so whoever lent it knows at the end
    /// that it is this one.
    ghost loan: { Self → ℕ };

    /// The loan by which the disk is held, where the clerk tells it.
    ghost disk_loan: { Self → ℕ };

    /// The turnstile at which the clerk has its seat, where it has one, and for how many seats that counts. A clerk without a seat has
    /// its history to itself.
    ghost table: { Self → Option TableId };

    ghost share: { Self → ℕ };

    /// The change in doubt, where the clerk tells it.
    ghost doubt: { Self → Option Change };

    /// The moment, as a number that doesn't fall.
    ghost moment: { Self → ℕ };

    /// What a stop at some moment from that one on might have left on the disk, where the clerk tells it.
    ghost left_since: { Self → ℕ → List ℕ → Type 0 };

    /// What the history tells of a message before it is checked.
    fn look(&mut self, ask: &Ask, now: u64) -> Look
        requires { now ≤ 250000000000 }
        ensures grown { Begins (seen self.old) (seen self.new) }
        ensures lawful { ∥ Legal (seen self.new) × IfSome (doubt self.new) (Allowed (seen self.new)) ∥₁ }
        ensures answer { result ≡ look_of (seen self.new) ask.now now }
        ensures founded { IsFounded (seen self.new) }
        ensures time { result.time ≤ 250000000000 }
        ensures mine { mine self.new ≡ mine self.old }
        ensures faults { faults self.new ≡ faults self.old }
        ensures loan { loan self.new ≡ loan self.old }
        ensures disk_loan { disk_loan self.new ≡ disk_loan self.old }
        ensures seat { (table self.new ≡ table self.old) × (share self.new ≡ share self.old) }
        ensures alone { table self.old ≡ None → seen self.new ≡ seen self.old }
        ensures doubt { doubt self.new ≡ doubt self.old }
        ensures moments { LeavesOnly moment left_since self.old self.new (RecoversWith (seen self.old) (IsDoubt (doubt self.old))) };

    /// What the reply to a transaction's Grant needs; none exactly where there is no Grant.
    fn granted(&mut self, tid: &Short) -> Result<Option<Receipt>, AllocError>
        ensures grown { Begins (seen self.old) (seen self.new) }
        ensures lawful { ∥ Legal (seen self.new) × IfSome (doubt self.new) (Allowed (seen self.new)) ∥₁ }
        ensures answer { IfOk result (λ r. r ≡ grant_receipt (seen self.new) tid.now) }
        ensures mine { mine self.new ≡ mine self.old }
        ensures faults { faults self.new ≡ faults self.old }
        ensures loan { loan self.new ≡ loan self.old }
        ensures disk_loan { disk_loan self.new ≡ disk_loan self.old }
        ensures seat { (table self.new ≡ table self.old) × (share self.new ≡ share self.old) }
        ensures alone { table self.old ≡ None → seen self.new ≡ seen self.old }
        ensures doubt { doubt self.new ≡ doubt self.old }
        ensures moments { LeavesOnly moment left_since self.old self.new (RecoversWith (seen self.old) (IsDoubt (doubt self.old))) };

    /// Decides a message that was checked, by 32 words drawn for the reply.
    fn decide(&mut self, checked: &Checked<'_>, now: u64, words: &[u8; 32]) -> Verdict
        requires clock { now ≤ 250000000000 }
        requires fits { FitsChecked checked.now }
        ensures grown { Begins (seen self.old) (seen self.new) }
        ensures lawful { ∥ Legal (seen self.new) × IfSome (doubt self.new) (Allowed (seen self.new)) ∥₁ }
        // Each message that the Checked carries, by a history that its maker has seen, is decided so.
        ensures verdict { (l : Letter) (looked : List Change) → Begins looked (seen self.old) → Carries l (untold checked.now) looked → HashIsTold l checked.now (seen self.old) → Decides l checked.now (seen self.old) (seen self.new) now words.now result }
        ensures time { IsInTime result }
        ensures ends { IsDecidedSince (seen self.old) (seen self.new) checked.now now words.now result }
        ensures mine { mine self.new ≡ mine self.old ++ decided_place result }
        ensures fault { result ≡ Verdict.DiskFault → Rose (faults self.old) (faults self.new) }
        ensures later { faults self.old ≤ faults self.new }
        ensures exact { result ≢ Verdict.DiskFault → faults self.new ≡ faults self.old }
        ensures memory { result ≡ Verdict.NoMemory → doubt self.new ≡ doubt self.old }
        ensures loan { loan self.new ≡ loan self.old }
        ensures disk_loan { disk_loan self.new ≡ disk_loan self.old }
        ensures seat { (table self.new ≡ table self.old) × (share self.new ≡ share self.old) }
        // A clerk without a seat tells the change in doubt too.
        ensures alone { table self.old ≡ None → IsLeft checked.now now words.now (seen self.old) (doubt self.old) result (seen self.new) (doubt self.new) }
        // A stop at any moment of the call leaves the history, with the change in doubt behind it, with the message's, or alone;
        // and only one of these may be in doubt afterwards.
        ensures doubt { IfSome (doubt self.new) (DoubtOr (doubt self.old) (MayCome (LeftMakes (seen self.old) checked.now now words.now) (seen self.old))) }
        ensures moments { LeavesOnly moment left_since self.old self.new (RecoversWith (seen self.old) (DoubtOr (doubt self.old) (MayCome (LeftMakes (seen self.old) checked.now now words.now) (seen self.old)))) };

    /// Takes back the certificate with the least deadline that has come.
    fn lapse(&mut self, now: u64) -> Lapsed
        requires { now ≤ 250000000000 }
        ensures grown { Begins (seen self.old) (seen self.new) }
        ensures lawful { ∥ Legal (seen self.new) × IfSome (doubt self.new) (Allowed (seen self.new)) ∥₁ }
        ensures ends { IsLapsedSince (seen self.old) (seen self.new) now result }
        ensures mine { mine self.new ≡ mine self.old ++ lapsed_place result }
        ensures fault { result ≡ Lapsed.DiskFault → Rose (faults self.old) (faults self.new) }
        ensures later { faults self.old ≤ faults self.new }
        ensures exact { result ≢ Lapsed.DiskFault → faults self.new ≡ faults self.old }
        ensures memory { result ≡ Lapsed.NoMemory → doubt self.new ≡ doubt self.old }
        ensures loan { loan self.new ≡ loan self.old }
        ensures disk_loan { disk_loan self.new ≡ disk_loan self.old }
        ensures seat { (table self.new ≡ table self.old) × (share self.new ≡ share self.old) }
        ensures alone { table self.old ≡ None → IsLapsed (seen self.old) (doubt self.old) (event_time (seen self.old) now) result (seen self.new) (doubt self.new) }
        ensures doubt { IfSome (doubt self.new) (DoubtOr (doubt self.old) (MayCome (IsLapse (seen self.old) (event_time (seen self.old) now)) (seen self.old))) }
        ensures moments { LeavesOnly moment left_since self.old self.new (RecoversWith (seen self.old) (DoubtOr (doubt self.old) (MayCome (IsLapse (seen self.old) (event_time (seen self.old) now)) (seen self.old)))) };

    /// Releases or denies a held request.
    fn order(&mut self, order: &Order, now: u64) -> Ordered
        requires { now ≤ 250000000000 }
        ensures grown { Begins (seen self.old) (seen self.new) }
        ensures lawful { ∥ Legal (seen self.new) × IfSome (doubt self.new) (Allowed (seen self.new)) ∥₁ }
        ensures ends { IsOrderedSince (seen self.old) (seen self.new) order.now now result }
        ensures mine { mine self.new ≡ mine self.old ++ ordered_place result }
        ensures fault { result ≡ Ordered.DiskFault → Rose (faults self.old) (faults self.new) }
        ensures later { faults self.old ≤ faults self.new }
        ensures exact { result ≢ Ordered.DiskFault → faults self.new ≡ faults self.old }
        ensures memory { result ≡ Ordered.NoMemory → doubt self.new ≡ doubt self.old }
        ensures loan { loan self.new ≡ loan self.old }
        ensures disk_loan { disk_loan self.new ≡ disk_loan self.old }
        ensures seat { (table self.new ≡ table self.old) × (share self.new ≡ share self.old) }
        ensures alone { table self.old ≡ None → IsOrdered (seen self.old) (doubt self.old) order.now (event_time (seen self.old) now) result (seen self.new) (doubt self.new) }
        ensures doubt { IfSome (doubt self.new) (DoubtOr (doubt self.old) (MayCome (IsOrder order.now (event_time (seen self.old) now)) (seen self.old))) }
        ensures moments { LeavesOnly moment left_since self.old self.new (RecoversWith (seen self.old) (DoubtOr (doubt self.old) (MayCome (IsOrder order.now (event_time (seen self.old) now)) (seen self.old)))) };

    /// A stop now leaves the history, with the change in doubt behind it or alone.
    fn stands_for_its_disk(&self)
        ensures { Every (left_since self.now (moment self.now)) (RecoversWith (seen self.now) (IsDoubt (doubt self.now))) };
}
