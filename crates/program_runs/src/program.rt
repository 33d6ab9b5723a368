//! A run of the program, with the visit of its disk that it is.
ghost use Rattle.std.specs.Prelude.{◌≡◌, ◌⊎◌, false, map, string_bytes};
ghost use Rattle.cmp_ports.specs.Coming.{Gives};
ghost use Rattle.cmp_ports.specs.Disk.{Among, LeavesOnly};
ghost use Rattle.cmp_ports.specs.Faults.{Rose};
ghost use Rattle.cmp_ports.specs.Whole.{TakesUpTo};
ghost use Rattle.cmpca_tool.specs.Words.{command_of, reads_input, reads_key, draws_words, reads_disk, changes_history, input_most, key_file_most};
ghost use Rattle.cmpca_tool.specs.Changes.{run_of};
ghost use Rattle.cmpca_tool.specs.Reply.{IsReply, RanKeyed};
ghost use Rattle.cmpca_tool.specs.Sources.{devices_of};
ghost use Rattle.program_runs.specs.Program.{IsVisitingRun};

use crate::laws::every_run_is_a_visit;
use cmp_ports::{Clock, Disk, Entropy, Sink, Source};
use cmpca_tool::{Status, run_tool};
use std::alloc::Global;

/// Runs the program on its words, as `run_tool` does. On a disk that tells what it holds the run is a visit of the disk, whatever its
/// ending: each change that it makes comes of what it was asked, its answers are right by the history that it found, and what it is
/// about to write is their reply (RFC 9810, 5.1.3 and 5.2.8). So the law of all runs speaks of this call.
pub fn run_program<D: Disk, S: Source, K: Source, C: Clock, E: Entropy, W: Sink>(
    alloc: Global,
    words: &[String],
    key: &mut K,
    input: &mut S,
    disk: &mut D,
    clock: &mut C,
    entropy: &mut E,
    out: &mut W,
) -> Status
    // What is written is a reply by which the run is a visit of its disk.
    ensures visits { RanKeyed (S.left input.old) (K.left key.old) (IsVisitingRun D.Disk disk.old disk.new (devices_of S.faults K.faults E.faults input.old input.new key.old key.new clock.old clock.new entropy.old entropy.new) (Gives (C.readings clock.old) (C.readings clock.new)) (Gives (E.draws entropy.old) (E.draws entropy.new)) (command_of (map string_bytes words.now))) (W.written out.old) (W.written out.new) result }

    // The rest is the contract of `run_tool`, word for word.
    ensures ran { RanKeyed (S.left input.old) (K.left key.old) (IsReply (command_of (map string_bytes words.now)) (devices_of S.faults K.faults E.faults input.old input.new key.old key.new clock.old clock.new entropy.old entropy.new) (Gives (C.readings clock.old) (C.readings clock.new)) (Gives (E.draws entropy.old) (E.draws entropy.new)) (run_of D.content D.images D.moment D.left_since disk.old disk.new)) (W.written out.old) (W.written out.new) result }
    ensures entropy { draws_words (command_of (map string_bytes words.now)) ≡ false → entropy.new ≡ entropy.old }
    ensures key { reads_key (command_of (map string_bytes words.now)) ≡ false → key.new ≡ key.old }
    ensures clock { changes_history (command_of (map string_bytes words.now)) ≡ false → clock.new ≡ clock.old }
    ensures unread { reads_input (command_of (map string_bytes words.now)) ≡ false → input.new ≡ input.old }
    ensures taken { TakesUpTo (input_most (command_of (map string_bytes words.now))) (S.left input.old) (S.left input.new) }
    ensures key_taken { TakesUpTo (key_file_most (command_of (map string_bytes words.now))) (K.left key.old) (K.left key.new) }
    ensures unmounted { reads_disk (command_of (map string_bytes words.now)) ≡ false → disk.new ≡ disk.old }
    ensures same { changes_history (command_of (map string_bytes words.now)) ≡ false → D.content disk.new ≡ D.content disk.old }
    ensures crash { changes_history (command_of (map string_bytes words.now)) ≡ false → Among (D.images disk.old) (D.images disk.new) }
    ensures moments { changes_history (command_of (map string_bytes words.now)) ≡ false → LeavesOnly D.moment D.left_since disk.old disk.new (D.images disk.old) }
    ensures read_fault { result ≡ Status.ReadFault → (Rose (S.faults input.old) (S.faults input.new) ⊎ Rose (K.faults key.old) (K.faults key.new)) ⊎ Rose (E.faults entropy.old) (E.faults entropy.new) }
    ensures write_fault { result ≡ Status.WriteFault → Rose (W.faults out.old) (W.faults out.new) }
    ensures disk_fault { result ≡ Status.DiskFault → Rose (D.faults disk.old) (D.faults disk.new) }
{
    every_run_is_a_visit::<D, S, K, C, E>();
    run_tool(alloc, words, key, input, disk, clock, entropy, out)
}
