ghost use Rattle.std.specs.Prelude.{◌≡◌, ◌≤◌, IfSome};
ghost use Rattle.plan_view.specs.Terms.{problem_case};
ghost use Rattle.input_files.specs.Shelves.{KeepsShelf};
ghost use Rattle.people_files.specs.Endings.{FailsReading};
ghost use Rattle.people_plans.specs.PlansForPeople.{EndsPlanForPeople};
ghost use Rattle.people_words.specs.AskedCommands.{asked_plan};
ghost use Rattle.net_core.specs.Limits.{most_splits};
ghost use Rattle.people_commands.{specs.Endings.EndsPeoplePlan, specs.inner.Printing.{GivesAnswer, HasPrintedCause}};

use crate::output::Printed;
use net_core::Problem;
use outside_io::{Shelf, Status};
use people_files::{Halt, Told, load_case};
use people_plans::{PlanAnswer, plan_for_people};
use people_words::PlanRequest;
use plan_progress::{Teller, TellingGate};
use std::alloc::Global;
use std::sync::Wait;
use std::thread::Threads;

/// What is printed and said for an answer with a plan, or the end of a run with its message.
fn printed(answer: PlanAnswer) -> Result<Printed, Halt>
    ensures { GivesAnswer answer result }
{
    match answer.status {
        Status::Done => Ok(Printed {
            text: answer.text,
            message: answer.message,
        }),
        status => Err(Halt::Told(Told {
            status,
            message: answer.message,
        })),
    }
}

/// How many splits the tree has at most, if the words say.
fn splits_of(words: &PlanRequest) -> Option<u32>
    ensures same { result ≡ words.now.splits }
    ensures few { IfSome result (λ n. n ≤ most_splits) }
{
    words.splits
}

/// The plan that the words ask for, of a problem.
fn plan_problem<R: Threads + Wait + Sync, T: Teller + Sync>(
    rt: &R,
    alloc: Global,
    words: &PlanRequest,
    problem: &Problem,
    teller: &T,
) -> Result<Printed, Halt>
    ensures ends { HasPrintedCause (EndsPlanForPeople words.now.case.files.network.now words.now.splits words.now.report
        (problem_case problem.now) problem.now.net.notes) result }
    ensures read { FailsReading result → ⊥ }
{
    let gate = TellingGate::new(alloc, problem.net.places(), words.quiet, teller);
    let answer = plan_for_people(
        rt,
        alloc,
        words.case.files.network.as_bytes(),
        problem,
        splits_of(words),
        words.report,
        &gate,
    )?;
    printed(answer)
}

/// The plan that the words ask for, of the problem in their files.
pub(crate) fn plan_files<R: Threads + Wait + Sync, S: Shelf, T: Teller + Sync>(
    rt: &R,
    alloc: Global,
    words: &PlanRequest,
    shelf: &mut S,
    teller: &T,
) -> Result<Printed, Halt>
    ensures ends { HasPrintedCause (EndsPeoplePlan (S.files shelf.old) (asked_plan words.now)) result }
    ensures shelf { KeepsShelf S.files S.faults (FailsReading result) shelf.old shelf.new }
{
    let problem = load_case(alloc, &words.case, shelf)?;
    plan_problem(rt, alloc, words, &problem, teller)
}
