ghost use Rattle.std.specs.Prelude.{◌≡◌, ◌≤◌, ℕ, List, [], IfOk};
ghost use Rattle.input_files.specs.Shelves.{KeepsShelf};
ghost use Rattle.people_files.specs.Endings.{FailsReading, Halts};
ghost use Rattle.people_words.specs.AskedCommands.{people_command};
ghost use Rattle.outside_io.specs.declared.status.Status.{Status};
ghost use Rattle.people_commands.{specs.Endings.{EndsForPeople, EndsPeopleCommand, PutsBoth, usage_message}, specs.inner.Printing.HasPrintedCause};

use crate::failures::failures_file;
use crate::output::{Printed, alone, say, tell};
use crate::plan::plan_files;
use crate::usage::{HELP, MEMORY_MESSAGE, USAGE, VERSION, topic_help};
use crate::view::view_files;
use net_core::{Bytes, List as Items, NoMemory};
use outside_io::{Shelf, Sink, Status};
use people_files::{Halt, told};
use people_words::{PeopleWords, command_of};
use plan_progress::Teller;
use std::alloc::Global;
use std::sync::Wait;
use std::thread::Threads;

/// A text of these bytes.
fn text_of(alloc: Global, bytes: &[u8]) -> Result<Bytes, NoMemory>
    ensures { IfOk result (λ text. text ≡ bytes.now) }
{
    Items::from_slice(alloc, bytes)
}

/// The end of a run whose words are no command.
fn bad_words(alloc: Global) -> Halt
    ensures { Halts (λ s message. (s ≡ Status.BadWords) × (message ≡ usage_message)) result }
{
    told(Status::BadWords, text_of(alloc, USAGE))
}

/// A text of the program's own, without a message.
fn own_text(alloc: Global, bytes: &[u8]) -> Result<Printed, Halt>
    ensures ends { HasPrintedCause (λ status text message. (status ≡ Status.Done) × (text ≡ bytes.now) × (message ≡ [])) result }
    ensures read { FailsReading result → ⊥ }
{
    let text = text_of(alloc, bytes)?;
    Ok(Printed {
        text,
        message: Items::new(alloc),
    })
}

/// The answer to a command.
fn answer_command<R: Threads + Wait + Sync, S: Shelf, T: Teller + Sync>(
    rt: &R,
    alloc: Global,
    words: &PeopleWords,
    shelf: &mut S,
    teller: &T,
) -> Result<Printed, Halt>
    ensures ends { HasPrintedCause (EndsPeopleCommand (S.files shelf.old) (people_command words.now)) result }
    ensures shelf { KeepsShelf S.files S.faults (FailsReading result) shelf.old shelf.new }
{
    match *words {
        PeopleWords::Help => own_text(alloc, HELP),
        PeopleWords::HelpOn(topic) => own_text(alloc, topic_help(topic)),
        PeopleWords::Version => own_text(alloc, VERSION),
        PeopleWords::Failures(network) => alone(alloc, failures_file(alloc, network, shelf)),
        PeopleWords::View(view) => alone(alloc, view_files(alloc, &view, shelf)),
        PeopleWords::Plan(plan) => plan_files(rt, alloc, &plan, shelf, teller),
    }
}

/// The answer to the words of the command line.
fn answer_words<R: Threads + Wait + Sync, S: Shelf, T: Teller + Sync>(
    rt: &R,
    alloc: Global,
    words: &[String],
    shelf: &mut S,
    teller: &T,
) -> Result<Printed, Halt>
    ensures ends { HasPrintedCause (EndsForPeople words.now (S.files shelf.old)) result }
    ensures shelf { KeepsShelf S.files S.faults (FailsReading result) shelf.old shelf.new }
{
    match command_of(alloc, words)? {
        Some(command) => answer_command(rt, alloc, &command, shelf, teller),
        None => Err(bad_words(alloc)),
    }
}

/// Carries out the command that the words give: reads its files from the shelf, prints its text to `out`, and says what is wrong to
/// `beside`. If something is wrong, it prints nothing, or, if writing fails, the beginning of the text. A plan tells the teller its
/// progress, unless the words ask for quiet, and may never return. It takes the time and the memory of the command and of the readers of
/// its files, and memory for its texts.
///
/// ```text
/// let mut shelf = MemShelf::new(files, List::new(alloc));   // with the triangle's network under the name t.txt
/// let status = run(&rt, alloc, &words, &mut shelf, &mut out, &mut beside, &NoTeller);   // the words are failures t.txt
/// // Done, and `out` has taken the failure list; for a network that isn't there NoFile, and `beside` has taken what is said of it
/// ```
pub fn run<R: Threads + Wait + Sync, S: Shelf, K: Sink, E: Sink, T: Teller + Sync>(
    rt: &R,
    alloc: Global,
    words: &[String],
    shelf: &mut S,
    out: &mut K,
    beside: &mut E,
    teller: &T,
) -> Status
    // The outcome of the run has its cause in the words and the files, reading fails only where the shelf counts it, and text and message
    // are written. The files stay as they are, and no count of faults falls.
    ensures outcome { (status : Status) × (text : List ℕ) × (message : List ℕ) × EndsForPeople words.now (S.files shelf.old) status text message
        × KeepsShelf S.files S.faults (status ≡ Status.ReadFault) shelf.old shelf.new
        × PutsBoth K.taken K.faults E.taken E.faults status text message result out.old out.new beside.old beside.new }
    ensures later { K.faults out.old ≤ K.faults out.new }
    ensures beside { E.faults beside.old ≤ E.faults beside.new }
{
    match answer_words(rt, alloc, words, shelf, teller) {
        Ok(printed) => say(out, beside, printed.text.items(), printed.message.items()),
        Err(Halt::Told(told)) => {
            tell(beside, told.message.items());
            told.status
        }
        Err(Halt::NoMemory) => {
            tell(beside, MEMORY_MESSAGE);
            Status::NoMemory
        }
    }
}
