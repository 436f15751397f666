ghost use Rattle.std.specs.Prelude.{◌≡◌, ℕ, List, ◌≤◌};
ghost use Rattle.planner_commands.specs.Run.{Ends, PutsText};
ghost use Rattle.input_files.specs.Shelves.{KeepsShelf};
ghost use Rattle.outside_io.specs.declared.status.Status.{Status};

use outside_io::{Gate, Shelf, Sink, Status};
use planner_commands::run as commands;
use std::alloc::Global;
use std::sync::Wait;
use std::thread::Threads;

/// Carries out the command that the words give: reads its files from the shelf, and writes its text to the sink. Nothing is written if
/// reading failed or memory ran out. It may never return, since callers wait for each other.
///
/// ```text
/// let mut shelf = MemShelf::new(files, List::new(alloc));                 // with the triangle's network under the name t.txt
/// let status = run(&rt, alloc, &words, &mut shelf, &mut out, &OpenGate);  // the words are plan t.txt
/// // Done, and `out` has taken the report; for a network that isn't there NoFile, and a line with its name
/// ```
pub fn run<Rt: Threads + Wait + Sync, S: Shelf, K: Sink, G: Gate + Sync>(
    rt: &Rt,
    alloc: Global,
    words: &[String],
    shelf: &mut S,
    out: &mut K,
    gate: &G,
) -> Status
    // The answer of the run has its cause in the words and the files, reading fails only where the shelf counts it, and the
    // text is written. The files stay as they are, and no count of faults falls.
    ensures outcome { (status : Status) × (text : List ℕ) × Ends words.now (S.files shelf.old) status text
        × KeepsShelf S.files S.faults (status ≡ Status.ReadFault) shelf.old shelf.new
        × PutsText K.taken K.faults status text result out.old out.new }
    ensures later { K.faults out.old ≤ K.faults out.new }
{
    commands::run(rt, alloc, words, shelf, out, gate)
}
