//! The top call: a run of the program from its words, its streams and its disk to its status.
ghost use Rattle.std.specs.Prelude.{◌≡◌, ◌≢◌, ◌⊎◌, ◌≤◌, ℕ, false, map, string_bytes};
ghost use Rattle.cmp_ports.specs.Coming.{Gives};
ghost use Rattle.cmp_ports.specs.Disk.{Among, LeavesOnly};
ghost use Rattle.cmp_ports.specs.Faults.{Rose};
ghost use Rattle.cmp_ports.specs.Whole.{TakesUpTo};
ghost use Rattle.cmpca_tool.specs.Words.{command_of, reads_input, reads_key, draws_words, reads_disk, changes_history, input_most, key_file_most};
ghost use Rattle.cmpca_tool.specs.Changes.{run_of};
ghost use Rattle.cmpca_tool.specs.Reply.{IsVerifyReply, IsReply, RanKeyed};
ghost use Rattle.cmpca_tool.specs.Sources.{devices_of, Told, ToldBoth, message_most};
ghost use Rattle.cmpca_tool.specs.Texts.{text_of};

use crate::check::check;
use crate::dismiss::run_dismiss;
use crate::ending::finish;
use crate::enlist::run_enlist;
use crate::init::run_init;
use crate::order::run_order;
use crate::reply::Reply;
use crate::show::show;
use crate::status::Status;
use crate::take::run_take;
use crate::words::{Command, read_words};
use cmp_ports::{Clock, Disk, Entropy, Order, ReadError, Sink, Source, read_up_to};
use pki_message::MESSAGE_LIMIT;
use std::alloc::Global;

/// The line that names the words.
const USAGE: &[u8] = b"usage: cmpca verify SECRET | JOURNAL KEY COMMAND\n";

/// Checks the protection of one message, which is read from `input` to its end, at most one octet past its limit.
fn run_verify<S: Source>(alloc: Global, secret: &[u8], input: &mut S) -> Reply
    ensures told { Told (S.left input.old) (IsVerifyReply (Rose (S.faults input.old) (S.faults input.new)) secret.now) result.status (text_of result.text) }
    ensures taken { TakesUpTo message_most (S.left input.old) (S.left input.new) }
    ensures read_fault { result.status ≡ Status.ReadFault → Rose (S.faults input.old) (S.faults input.new) }
    ensures devices { (result.status ≢ Status.WriteFault) × (result.status ≢ Status.DiskFault) }
{
    match read_up_to(alloc, input, MESSAGE_LIMIT) {
        Ok(octets) => match check(alloc, secret, octets.as_slice()) {
            Ok(verdict) => Reply::says(verdict.status(), verdict.line()),
            Err(_) => Reply::no_memory(),
        },
        Err(ReadError::Fault) => Reply::read_fault(),
        Err(ReadError::NoMemory) => Reply::no_memory(),
    }
}

/// Does what the words ask for, and says what is to be written. It has no output: nothing is written before its work is done.
fn work<D: Disk, S: Source, K: Source, C: Clock, E: Entropy>(
    alloc: Global,
    words: &[String],
    key: &mut K,
    input: &mut S,
    disk: &mut D,
    clock: &mut C,
    entropy: &mut E,
) -> Reply
    ensures told { ToldBoth (S.left input.old) (K.left key.old) (IsReply (command_of (map string_bytes words.now)) (devices_of S.faults K.faults E.faults input.old input.new key.old key.new clock.old clock.new entropy.old entropy.new) (Gives (C.readings clock.old) (C.readings clock.new)) (Gives (E.draws entropy.old) (E.draws entropy.new)) (run_of D.content D.images D.moment D.left_since disk.old disk.new)) result.status (text_of result.text) }
    ensures taken { TakesUpTo (input_most (command_of (map string_bytes words.now))) (S.left input.old) (S.left input.new) }
    ensures key_taken { TakesUpTo (key_file_most (command_of (map string_bytes words.now))) (K.left key.old) (K.left key.new) }
    ensures entropy { draws_words (command_of (map string_bytes words.now)) ≡ false → entropy.new ≡ entropy.old }
    ensures key { reads_key (command_of (map string_bytes words.now)) ≡ false → key.new ≡ key.old }
    ensures clock { changes_history (command_of (map string_bytes words.now)) ≡ false → clock.new ≡ clock.old }
    ensures unread { reads_input (command_of (map string_bytes words.now)) ≡ false → input.new ≡ input.old }
    ensures unmounted { reads_disk (command_of (map string_bytes words.now)) ≡ false → disk.new ≡ disk.old }
    ensures same { changes_history (command_of (map string_bytes words.now)) ≡ false → D.content disk.new ≡ D.content disk.old }
    ensures crash { changes_history (command_of (map string_bytes words.now)) ≡ false → Among (D.images disk.old) (D.images disk.new) }
    ensures moments { changes_history (command_of (map string_bytes words.now)) ≡ false → LeavesOnly D.moment D.left_since disk.old disk.new (D.images disk.old) }
    ensures read_fault { result.status ≡ Status.ReadFault → (Rose (S.faults input.old) (S.faults input.new) ⊎ Rose (K.faults key.old) (K.faults key.new)) ⊎ Rose (E.faults entropy.old) (E.faults entropy.new) }
    ensures no_write { result.status ≢ Status.WriteFault }
    ensures disk_fault { result.status ≡ Status.DiskFault → Rose (D.faults disk.old) (D.faults disk.new) }
{
    let Some(command) = read_words(words) else {
        return Reply::says(Status::Usage, USAGE);
    };
    match &command {
        Command::Verify { secret } => run_verify(alloc, secret.as_slice(), input),
        Command::Init => run_init(alloc, key, input, disk, clock.now()),
        Command::Take => run_take(alloc, key, input, disk, clock, entropy),
        Command::Show => show(alloc, disk),
        Command::Enlist => run_enlist(alloc, input, disk, clock.now()),
        Command::Dismiss { kind, id } => run_dismiss(alloc, *kind, id, disk, clock.now()),
        Command::Release { tid } => {
            let order = Order::Release(*tid);
            run_order(alloc, &order, b"released\n", disk, clock.now())
        }
        Command::Deny { tid } => {
            let order = Order::Deny(*tid);
            run_order(alloc, &order, b"denied\n", disk, clock.now())
        }
    }
}

/// Runs the program on its words. `verify` reads one message from `input`, `enlist` a file of credentials and `init` one of settings;
/// `init` reads the key file from `key` besides, and founds a history on the disk. The other commands on a journal mount the history
/// that the disk holds. Those that change it read the clock once, before all else, as `init` does. `take` reads the key file and then
/// a message, and only then the clock and the entropy, each once. What the words ask for is written to `out`, or why it isn't done or
/// can't be told.
pub fn run_tool<D: Disk, S: Source, K: Source, C: Clock, E: Entropy, W: Sink>(
    alloc: Global,
    words: &[String],
    key: &mut K,
    input: &mut S,
    disk: &mut D,
    clock: &mut C,
    entropy: &mut E,
    out: &mut W,
) -> Status
    // What is written, the status and the history after are the reply to the words, the input, the key file, the reading, the draw and
    // the history before; and which of these failed, where one did.
    ensures ran { RanKeyed (S.left input.old) (K.left key.old) (IsReply (command_of (map string_bytes words.now)) (devices_of S.faults K.faults E.faults input.old input.new key.old key.new clock.old clock.new entropy.old entropy.new) (Gives (C.readings clock.old) (C.readings clock.new)) (Gives (E.draws entropy.old) (E.draws entropy.new)) (run_of D.content D.images D.moment D.left_since disk.old disk.new)) (W.written out.old) (W.written out.new) result }

    // What the command doesn't read is as before: its faults, and what it still gives.
    ensures entropy { draws_words (command_of (map string_bytes words.now)) ≡ false → entropy.new ≡ entropy.old }
    ensures key { reads_key (command_of (map string_bytes words.now)) ≡ false → key.new ≡ key.old }
    ensures clock { changes_history (command_of (map string_bytes words.now)) ≡ false → clock.new ≡ clock.old }
    ensures unread { reads_input (command_of (map string_bytes words.now)) ≡ false → input.new ≡ input.old }

    // Of what it reads, at most its limit and one octet are taken, after every answer.
    ensures taken { TakesUpTo (input_most (command_of (map string_bytes words.now))) (S.left input.old) (S.left input.new) }
    ensures key_taken { TakesUpTo (key_file_most (command_of (map string_bytes words.now))) (K.left key.old) (K.left key.new) }
    ensures unmounted { reads_disk (command_of (map string_bytes words.now)) ≡ false → disk.new ≡ disk.old }

    // Unless the command is one that changes the history, the disk holds what it held, and a stop at any moment leaves an image
    // from before the run.
    ensures same { changes_history (command_of (map string_bytes words.now)) ≡ false → D.content disk.new ≡ D.content disk.old }
    ensures crash { changes_history (command_of (map string_bytes words.now)) ≡ false → Among (D.images disk.old) (D.images disk.new) }
    ensures moments { changes_history (command_of (map string_bytes words.now)) ≡ false → LeavesOnly D.moment D.left_since disk.old disk.new (D.images disk.old) }

    // The faults of the streams, of the key file, of the entropy and of the disk alone give these.
    ensures read_fault { result ≡ Status.ReadFault → (Rose (S.faults input.old) (S.faults input.new) ⊎ Rose (K.faults key.old) (K.faults key.new)) ⊎ Rose (E.faults entropy.old) (E.faults entropy.new) }
    ensures write_fault { result ≡ Status.WriteFault → Rose (W.faults out.old) (W.faults out.new) }
    ensures disk_fault { result ≡ Status.DiskFault → Rose (D.faults disk.old) (D.faults disk.new) }
{
    let reply = work(alloc, words, key, input, disk, clock, entropy);
    finish(out, &reply)
}
