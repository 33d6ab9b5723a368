//! A run of serving, from its words, its devices and its disk to its status.
ghost use Rattle.std.specs.Prelude.{◌≡◌, ◌≢◌, ◌⊎◌, ◌≤◌, ℕ, List, None, length, map, string_bytes, IfSome};
ghost use Rattle.cmp_ports.specs.Faults.{Rose};
ghost use Rattle.cmp_ports.specs.Whole.{TakesUpTo};
ghost use Rattle.deal_model.specs.Views.{History, settings_of};
ghost use Rattle.deal_table.specs.History.{IsFounded};
ghost use Rattle.desk.specs.History.{history_of};
ghost use Rattle.front.specs.Fronts.{replier_by};
ghost use Rattle.workers.specs.Stations.{AnyPair};
ghost use Rattle.cmpca_tool.specs.Changes.{run_of};
ghost use Rattle.cmpca_tool.specs.Reply.{Replied};
ghost use Rattle.cmpca_tool.specs.Sources.{key_most};
ghost use Rattle.cmpca_tool.specs.Texts.{text_of};
ghost use Rattle.cmpca_serve.specs.Serving.{IsServedRun, IsServeReply, IsServing, IsSummaryReply};
ghost use Rattle.cmpca_serve.specs.Words.{Serves};
ghost use Rattle.cmpca_serve.specs.declared.words.ServePlan.{ServePlan};

use crate::behind::work_behind;
use crate::closing::Closing;
use crate::summary::Summary;
use crate::words::{ServePlan, read_serve};
use cmp_links::Door;
use cmp_ports::{Clock, Disk, Entropy, Gate, Orders, Sink, Source};
use cmpca_tool::{Reply, Status, disk_of, finish, keyless_reply, settings_at, unmounted};
use desk::{Desk, FaultMarks};
use desk_laws::at_most_one_answer;
use reply_maker::Keys;
use rounds::Round;
use std::alloc::Global;
use std::sync::Wait;
use std::thread::Threads;
use turnstile::Turnstile;
use workers::Station;

/// The line that names the words.
const USAGE: &[u8] = b"usage: cmpca verify SECRET | JOURNAL KEY COMMAND\n";

/// The reply of a run that served all: what became of the history and of the orders.
fn summary_reply(alloc: Global, plan: ServePlan, changes: u64, round: Round) -> Reply
    ensures { IsSummaryReply plan changes round result.status (text_of result.text) }
{
    let summary = Summary {
        connections: u64::from(plan.workers) * u64::from(plan.connections),
        changes,
        done: round.done,
        refused: round.refused,
    };
    match summary.lines(alloc) {
        Ok(text) => Reply::made(Status::Done, text),
        Err(_) => Reply::no_memory(),
    }
}

/// Serves over the history of a desk where nothing is in doubt, under its keys.
fn serve_desk<
    D: Disk + Send + Drop,
    S: Door + Send,
    C: Clock + Send,
    E: Entropy + Send,
    G: Gate + Send,
    O: Orders + Send,
    R: Threads + Wait + Sync,
>(
    alloc: Global,
    rt: &R,
    plan: ServePlan,
    keys: &Keys,
    desk: Desk<D>,
    stations: &mut [Station<S, C, E, G>],
    clock: &mut C,
    orders: &mut O,
    gate: &mut G,
    marks: &mut FaultMarks,
) -> Reply
where
    S::Joined: Send,
    requires founded { IsFounded (history_of desk) }
    requires settings { settings_of (history_of desk) ≡ keys.now.settings }
    requires mark { desk.mark ≡ None }
    requires some { 1 ≤ plan.workers }
    requires few { plan.workers ≤ 16 }
    requires stations { length stations.old ≡ plan.workers }
    ensures serving { (h : History) × IsServing (λ h0 h text. IsServedRun S.Joined.Link S.Door C.Clock E.Entropy (replier_by keys.now) h0 h plan stations.old stations.new (O.left orders.old) (O.left orders.new) (C.readings clock.old) (C.readings clock.new) text × (marks.new ≡ marks.old)) (history_of desk) h result.status (text_of result.text) }
    ensures disk_fault { result.status ≡ Status.DiskFault → Rose marks.old marks.new }
    ensures read_fault { result.status ≡ Status.ReadFault → Rose (O.faults orders.old) (O.faults orders.new) ⊎ (AnyPair (λ s t. Rose (S.faults s.door) (S.faults t.door)) stations.old stations.new ⊎ AnyPair (λ s t. Rose (E.faults s.entropy) (E.faults t.entropy)) stations.old stations.new) }
    ensures no_write { result.status ≢ Status.WriteFault }
{
    let Ok((stile, seat)) = Turnstile::new(alloc, desk, plan.workers + 1) else {
        return Reply::no_memory();
    };
    let ended = work_behind(
        alloc, rt, plan, keys, &stile, seat, stations, orders, clock, gate, marks,
    );
    match ended {
        Ok(Closing { seat, round }) => {
            let desk = stile.close(seat);
            summary_reply(alloc, plan, desk.length(), round)
        }
        Err(trouble) => trouble.reply(),
    }
}

/// Does what the words ask for: the history that the disk holds is mounted, then the key file is read, and then connections are served.
/// Where one of these ends the run, nothing behind it is used.
fn work<
    D: Disk + Send,
    K: Source,
    S: Door + Send,
    C: Clock + Send,
    E: Entropy + Send,
    O: Orders + Send,
    G: Gate + Send,
    R: Threads + Wait + Sync,
>(
    alloc: Global,
    rt: &R,
    words: &[String],
    key: &mut K,
    disk: &mut D,
    stations: &mut [Station<S, C, E, G>],
    clock: &mut C,
    orders: &mut O,
    gate: &mut G,
    marks: &mut FaultMarks,
) -> Reply
where
    S::Joined: Send,
    requires stations { (p : ServePlan) → Serves (map string_bytes words.now) p → length stations.old ≡ p.workers }
    ensures told { (file : List ℕ) × IfSome (K.left key.old) (λ all. all ≡ file) × IsServeReply (map string_bytes words.now) (run_of D.content D.images D.moment D.left_since disk.old disk.new) (key.new ≡ key.old) (Rose (K.faults key.old) (K.faults key.new)) ((stations.new ≡ stations.old) × (orders.new ≡ orders.old) × (clock.new ≡ clock.old) × (marks.new ≡ marks.old)) file (λ plan k h0 h text. IsServedRun S.Joined.Link S.Door C.Clock E.Entropy k h0 h plan stations.old stations.new (O.left orders.old) (O.left orders.new) (C.readings clock.old) (C.readings clock.new) text × (marks.new ≡ marks.old)) result.status (text_of result.text) }
    ensures key_taken { TakesUpTo key_most (K.left key.old) (K.left key.new) }
    ensures read_fault { result.status ≡ Status.ReadFault → Rose (K.faults key.old) (K.faults key.new) ⊎ (Rose (O.faults orders.old) (O.faults orders.new) ⊎ (AnyPair (λ s t. Rose (S.faults s.door) (S.faults t.door)) stations.old stations.new ⊎ AnyPair (λ s t. Rose (E.faults s.entropy) (E.faults t.entropy)) stations.old stations.new)) }
    ensures disk_fault { result.status ≡ Status.DiskFault → Rose (D.faults disk.old) (D.faults disk.new) ⊎ Rose marks.old marks.new }
    ensures no_write { result.status ≢ Status.WriteFault }
{
    at_most_one_answer();
    let Some(plan) = read_serve(words) else {
        return Reply::says(Status::Usage, USAGE);
    };
    let desk = match Desk::mount(alloc, &mut *disk) {
        Ok(desk) => desk,
        Err(failed) => {
            let fault = failed.1;
            let _disk = disk_of(failed);
            return unmounted(alloc, fault);
        }
    };
    match Keys::load(alloc, key, settings_at(&desk)) {
        Ok(keys) => serve_desk(
            alloc, rt, plan, &keys, desk, stations, clock, orders, gate, marks,
        ),
        Err(fault) => {
            desk.stands_for_its_disk();
            let _disk = desk.into_disk();
            keyless_reply(alloc, fault)
        }
    }
}

/// Serves as the words ask, JOURNAL KEY `serve` PORT WORKERS CONNECTIONS ORDERS: the history that the disk holds is mounted, the key file
/// is read, and each worker accepts, serves and hands back its number of connections at its station, one after the other. Beside them
/// the operator's orders are taken, and what is due is taken back. Once all have ended without a fault a last round is made. What was
/// served is written to `out`, or what failed.
pub fn run_serve<
    D: Disk + Send,
    K: Source,
    S: Door + Send,
    C: Clock + Send,
    E: Entropy + Send,
    O: Orders + Send,
    G: Gate + Send,
    W: Sink,
    R: Threads + Wait + Sync,
>(
    alloc: Global,
    rt: &R,
    words: &[String],
    key: &mut K,
    disk: &mut D,
    stations: &mut [Station<S, C, E, G>],
    clock: &mut C,
    orders: &mut O,
    gate: &mut G,
    marks: &mut FaultMarks,
    out: &mut W,
) -> Status
where
    S::Joined: Send,
    // There are as many stations as the words ask for workers.
    requires stations { (p : ServePlan) → Serves (map string_bytes words.now) p → length stations.old ≡ p.workers }
    ensures replied { (file : List ℕ) × IfSome (K.left key.old) (λ all. all ≡ file) × Replied (IsServeReply (map string_bytes words.now) (run_of D.content D.images D.moment D.left_since disk.old disk.new) (key.new ≡ key.old) (Rose (K.faults key.old) (K.faults key.new)) ((stations.new ≡ stations.old) × (orders.new ≡ orders.old) × (clock.new ≡ clock.old) × (marks.new ≡ marks.old)) file (λ plan k h0 h text. IsServedRun S.Joined.Link S.Door C.Clock E.Entropy k h0 h plan stations.old stations.new (O.left orders.old) (O.left orders.new) (C.readings clock.old) (C.readings clock.new) text × (marks.new ≡ marks.old))) (W.written out.old) (W.written out.new) result }
    // At most one octet more than a key file has is read of it.
    ensures key_taken { TakesUpTo key_most (K.left key.old) (K.left key.new) }
    ensures read_fault { result ≡ Status.ReadFault → Rose (K.faults key.old) (K.faults key.new) ⊎ (Rose (O.faults orders.old) (O.faults orders.new) ⊎ (AnyPair (λ s t. Rose (S.faults s.door) (S.faults t.door)) stations.old stations.new ⊎ AnyPair (λ s t. Rose (E.faults s.entropy) (E.faults t.entropy)) stations.old stations.new)) }
    ensures disk_fault { result ≡ Status.DiskFault → Rose (D.faults disk.old) (D.faults disk.new) ⊎ Rose marks.old marks.new }
    ensures write_fault { result ≡ Status.WriteFault → Rose (W.faults out.old) (W.faults out.new) }
{
    let reply = work(
        alloc, rt, words, key, disk, stations, clock, orders, gate, marks,
    );
    finish(out, &reply)
}
