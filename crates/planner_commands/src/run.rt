ghost use Rattle.std.specs.Prelude.{◌≡◌, ℕ, List, ◌≤◌, IfOk, IsErrOf};
ghost use Rattle.plan_terms.specs.Terms.{case};
ghost use Rattle.sample_net.specs.Samples.{no_notes};
ghost use Rattle.command_answers.specs.Answers.{IsSummary, sample_case};
ghost use Rattle.input_files.specs.Terms.{KeepsShelf, named};
ghost use Rattle.outside_io.specs.declared.status.Status.{Status};
ghost use Rattle.planner_commands.{specs.Commands.usage, specs.Run.{Ends, EndsCheck, EndsCommand, PutsText}, specs.inner.Steps.HasCause};
ghost use Rattle.planner_commands.specs.Commands as commands;

use crate::command::command_of;
use crate::output::say;
use crate::words::{Command, FourFiles, ProofWords, SampleWords};
use check_answers::answer_check;
use command_answers::{
    answer_import, answer_plan, answer_prove, answer_sample, answer_session, answer_trim,
};
use input_files::{PlanFiles, Stop, load_flows, load_problem, load_report, load_script};
use net_core::{List, NoMemory, Problem};
use outside_io::{Answer, Gate, Shelf, Sink, Status};
use std::alloc::Global;
use std::sync::Wait;
use std::thread::Threads;

/// The line that answers words outside the grammar.
const USAGE: &[u8] =
    b"usage: plan NET [MODEL [FAILURES]] | session NET MODEL FAILURES SCRIPT | check NET MODEL FAILURES REPORT | sample SEED N | trim NET [MODEL [FAILURES]] | prove LIMIT NET [MODEL [FAILURES]] | import NET MODEL FAILURES FLOWS\n";

/// The answer to words outside the grammar.
fn bad_words(alloc: Global) -> Result<Answer, NoMemory>
    ensures { IfOk result (λ a. (a.status ≡ Status.BadWords) × (a.text ≡ usage)) }
{
    Ok(Answer {
        status: Status::BadWords,
        text: List::from_slice(alloc, USAGE)?,
    })
}

/// The answer to `plan` with these files.
fn plan_files<Rt: Threads + Wait + Sync, S: Shelf, G: Gate + Sync>(
    rt: &Rt,
    alloc: Global,
    files: &PlanFiles,
    shelf: &mut S,
    gate: &G,
) -> Result<Answer, Stop>
    ensures ends { HasCause (EndsCommand (S.files shelf.old) (commands.Plan (named files.now))) result }
    ensures shelf { KeepsShelf S.files S.faults (IsErrOf result Stop.ReadFault) shelf.old shelf.new }
{
    let problem = load_problem(alloc, files, shelf)?;
    Ok(answer_plan(rt, alloc, problem, gate)?)
}

/// The answer to `session` with these files.
fn session_files<Rt: Threads + Wait + Sync, S: Shelf, G: Gate + Sync>(
    rt: &Rt,
    alloc: Global,
    four: &FourFiles,
    shelf: &mut S,
    gate: &G,
) -> Result<Answer, Stop>
    ensures ends { HasCause (EndsCommand (S.files shelf.old) (commands.Session (named four.now.files) four.now.last.now)) result }
    ensures shelf { KeepsShelf S.files S.faults (IsErrOf result Stop.ReadFault) shelf.old shelf.new }
{
    let problem = load_problem(alloc, &four.files, shelf)?;
    let script = load_script(alloc, problem.net.places(), four.last, shelf)?;
    Ok(answer_session(rt, alloc, problem, &script, gate)?)
}

/// The answer to `check` with this report of plans for a problem.
fn check_file<S: Shelf>(
    alloc: Global,
    problem: &Problem,
    name: &str,
    shelf: &mut S,
) -> Result<Answer, Stop>
    ensures ends { HasCause (EndsCheck (S.files shelf.old) name.now (case problem.now.net problem.now.states problem.now.demands)
        problem.now.net.notes) result }
    ensures shelf { KeepsShelf S.files S.faults (IsErrOf result Stop.ReadFault) shelf.old shelf.new }
{
    let report = load_report(alloc, problem, name, shelf)?;
    Ok(answer_check(alloc, problem, &report)?)
}

/// The answer to `check` with these files.
fn check_files<S: Shelf>(alloc: Global, four: &FourFiles, shelf: &mut S) -> Result<Answer, Stop>
    ensures ends { HasCause (EndsCommand (S.files shelf.old) (commands.Check (named four.now.files) four.now.last.now)) result }
    ensures shelf { KeepsShelf S.files S.faults (IsErrOf result Stop.ReadFault) shelf.old shelf.new }
{
    let problem = load_problem(alloc, &four.files, shelf)?;
    check_file(alloc, &problem, four.last, shelf)
}

/// The answer to `trim` with these files.
fn trim_files<Rt: Threads + Wait + Sync, S: Shelf, G: Gate + Sync>(
    rt: &Rt,
    alloc: Global,
    files: &PlanFiles,
    shelf: &mut S,
    gate: &G,
) -> Result<Answer, Stop>
    ensures ends { HasCause (EndsCommand (S.files shelf.old) (commands.Trim (named files.now))) result }
    ensures shelf { KeepsShelf S.files S.faults (IsErrOf result Stop.ReadFault) shelf.old shelf.new }
{
    let problem = load_problem(alloc, files, shelf)?;
    Ok(answer_trim(rt, alloc, problem, gate)?)
}

/// The answer to `prove` with this limit and these files.
fn prove_files<Rt: Threads + Wait + Sync, S: Shelf, G: Gate + Sync>(
    rt: &Rt,
    alloc: Global,
    words: &ProofWords,
    shelf: &mut S,
    gate: &G,
) -> Result<Answer, Stop>
    ensures ends { HasCause (EndsCommand (S.files shelf.old) (commands.Prove words.now.limit (named words.now.files))) result }
    ensures shelf { KeepsShelf S.files S.faults (IsErrOf result Stop.ReadFault) shelf.old shelf.new }
{
    let problem = load_problem(alloc, &words.files, shelf)?;
    Ok(answer_prove(rt, alloc, problem, words.limit, gate)?)
}

/// The answer to `import` with these files.
fn import_files<Rt: Threads + Wait + Sync, S: Shelf, G: Gate + Sync>(
    rt: &Rt,
    alloc: Global,
    four: &FourFiles,
    shelf: &mut S,
    gate: &G,
) -> Result<Answer, Stop>
    ensures ends { HasCause (EndsCommand (S.files shelf.old) (commands.Import (named four.now.files) four.now.last.now)) result }
    ensures shelf { KeepsShelf S.files S.faults (IsErrOf result Stop.ReadFault) shelf.old shelf.new }
{
    let problem = load_problem(alloc, &four.files, shelf)?;
    let file = load_flows(alloc, &problem, four.last, shelf)?;
    Ok(answer_import(rt, alloc, problem, file, gate)?)
}

/// The answer to `sample` with this seed and number of nodes.
fn sample_words<Rt: Threads + Wait + Sync>(
    rt: &Rt,
    alloc: Global,
    words: &SampleWords,
) -> Result<Answer, NoMemory>
    ensures status { IfOk result (λ a. a.status ≡ Status.Done) }
    ensures summary { IfOk result (λ a. IsSummary words.now.seed words.now.nodes (sample_case words.now.seed words.now.nodes) no_notes a.text) }
{
    answer_sample(rt, alloc, words.seed, words.nodes)
}

/// The answer to the words of the command line.
fn answer_words<Rt: Threads + Wait + Sync, S: Shelf, G: Gate + Sync>(
    rt: &Rt,
    alloc: Global,
    words: &[String],
    shelf: &mut S,
    gate: &G,
) -> Result<Answer, Stop>
    ensures ends { HasCause (Ends words.now (S.files shelf.old)) result }
    ensures shelf { KeepsShelf S.files S.faults (IsErrOf result Stop.ReadFault) shelf.old shelf.new }
{
    match command_of(words) {
        Some(Command::Plan(files)) => plan_files(rt, alloc, &files, shelf, gate),
        Some(Command::Session(four)) => session_files(rt, alloc, &four, shelf, gate),
        Some(Command::Check(four)) => check_files(alloc, &four, shelf),
        Some(Command::Trim(files)) => trim_files(rt, alloc, &files, shelf, gate),
        Some(Command::Prove(words)) => prove_files(rt, alloc, &words, shelf, gate),
        Some(Command::Import(four)) => import_files(rt, alloc, &four, shelf, gate),
        Some(Command::Sample(words)) => Ok(sample_words(rt, alloc, &words)?),
        None => Ok(bad_words(alloc)?),
    }
}

/// Carries out the command that the words give: reads its files from the shelf, and writes its text to the sink. Nothing is written if
/// reading failed or memory ran out. It may never return, since callers wait for each other. It takes the time and the memory of the
/// command and of the readers of its files, and memory for its text.
///
/// ```text
/// let mut shelf = MemShelf::new(files, List::new(alloc));                 // with the triangle's network under the name t.txt
/// let status = run(&rt, alloc, &words, &mut shelf, &mut out, &OpenGate);  // the words are plan t.txt
/// // Done, and `out` has taken the report; for a network that isn't there NoFile, and a line with its name
/// ```
pub fn run<Rt: Threads + Wait + Sync, S: Shelf, K: Sink, G: Gate + Sync>(
    rt: &Rt,
    alloc: Global,
    words: &[String],
    shelf: &mut S,
    out: &mut K,
    gate: &G,
) -> Status
    // The outcome of the run has its cause in the words and the files, reading fails only where the shelf counts it, and the
    // text is written. The files stay as they are, and no count of faults falls.
    ensures outcome { (status : Status) × (text : List ℕ) × Ends words.now (S.files shelf.old) status text
        × KeepsShelf S.files S.faults (status ≡ Status.ReadFault) shelf.old shelf.new
        × PutsText K.taken K.faults status text result out.old out.new }
    ensures later { K.faults out.old ≤ K.faults out.new }
{
    match answer_words(rt, alloc, words, shelf, gate) {
        Ok(answer) => say(out, answer.text.items(), answer.status),
        Err(Stop::Told(answer)) => say(out, answer.text.items(), answer.status),
        Err(Stop::ReadFault) => say(out, b"", Status::ReadFault),
        Err(Stop::NoMemory) => say(out, b"", Status::NoMemory),
    }
}
