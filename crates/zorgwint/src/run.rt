ghost use Rattle.std.specs.Prelude.{◌≡◌, ℕ, List, ◌≤◌};
ghost use Rattle.input_files.specs.Shelves.{KeepsShelf};
ghost use Rattle.people_commands.specs.Endings.{EndsForPeople, PutsBoth};
ghost use Rattle.outside_io.specs.declared.status.Status.{Status};

use outside_io::{Shelf, Sink, Status};
use people_commands::run as commands;
use plan_progress::Teller;
use std::alloc::Global;
use std::sync::Wait;
use std::thread::Threads;

/// Carries out the command that the words give: reads its files from the shelf, prints its text to `out`, and says what is wrong to
/// `beside`. If something is wrong, it prints nothing, or, if writing fails, the beginning of the text. A plan tells the teller its
/// progress, unless the words ask for quiet, and may never return.
///
/// ```text
/// let mut shelf = MemShelf::new(files, List::new(alloc));   // with the triangle's network under the name t.txt
/// let status = run(&rt, alloc, &words, &mut shelf, &mut out, &mut beside, &NoTeller);   // the words are failures t.txt
/// // Done, and `out` has taken the failure list; for a network that isn't there NoFile, and `beside` has taken what is said of it
/// ```
pub fn run<R: Threads + Wait + Sync, S: Shelf, K: Sink, E: Sink, T: Teller + Sync>(
    rt: &R,
    alloc: Global,
    words: &[String],
    shelf: &mut S,
    out: &mut K,
    beside: &mut E,
    teller: &T,
) -> Status
    // The outcome of the run has its cause in the words and the files, reading fails only where the shelf counts it, and text and message
    // are written. The files stay as they are, and no count of faults falls.
    ensures outcome { (status : Status) × (text : List ℕ) × (message : List ℕ) × EndsForPeople words.now (S.files shelf.old) status text message
        × KeepsShelf S.files S.faults (status ≡ Status.ReadFault) shelf.old shelf.new
        × PutsBoth K.taken K.faults E.taken E.faults status text message result out.old out.new beside.old beside.new }
    ensures later { K.faults out.old ≤ K.faults out.new }
    ensures beside { E.faults beside.old ≤ E.faults beside.new }
{
    commands::run(rt, alloc, words, shelf, out, beside, teller)
}
