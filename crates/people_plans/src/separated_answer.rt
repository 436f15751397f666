ghost use Rattle.std.specs.Prelude.{◌≡◌, ◌++◌, ◌∷◌, [], IfOk, OnOk, codes, decimal};
ghost use Rattle.plan_terms.specs.Terms.{case_of};
ghost use Rattle.plan_report.specs.Terms.{state_name};
ghost use Rattle.proof_report.specs.Terms.{IsSeparationOf};
ghost use Rattle.outside_io.specs.declared.status.Status.{Status};
ghost use Rattle.people_plans.specs.PlansForPeople.{SaysSeparations, separated_words};

use crate::answer::PlanAnswer;
use failure_texts::{put_separations, separated_line, separations};
use net_core::{Bytes, Instance, List, Name, NoMemory, StateId};
use outside_io::Status;
use std::alloc::Global;

/// Appends what is said before the lines of the separations.
fn put_words(text: &mut Bytes, network: &[u8]) -> Result<(), NoMemory>
    ensures { OnOk result (text.new ≡ text.old ++ separated_words network.now) }
{
    text.append(network)?;
    text.append(b": there is no plan, since some demands can't be carried\n")
}

/// Appends the planner's line of the first separation.
fn put_line(
    text: &mut Bytes,
    alloc: Global,
    instance: &Instance,
    state: StateId,
    demand: &[u8],
) -> Result<(), NoMemory>
    ensures { OnOk result (text.new ≡ text.old ++ (codes "not survivable: state " ++ decimal state.0 ++ 32
        ∷ state_name instance.now.states.now.listed state.0 ++ codes " demand " ++ demand.now ++ 10 ∷ [])) }
{
    let line = separated_line(alloc, instance.states, state, demand)?;
    text.append(line.items())
}

/// What is said of an instance whose first separation is of this state and this demand.
fn separated_text(
    alloc: Global,
    network: &[u8],
    instance: &Instance,
    state: StateId,
    demand: &[u8],
) -> Result<Bytes, NoMemory>
    requires { IsSeparationOf (case_of instance.now) state.0 demand.now }
    ensures { IfOk result (SaysSeparations network.now (case_of instance.now)) }
{
    let found = separations(alloc, instance)?;
    let mut text = List::new(alloc);
    put_words(&mut text, network)?;
    put_separations(&mut text, instance, found.items())?;
    put_line(&mut text, alloc, instance, state, demand)?;
    Ok(text)
}

/// The answer to an instance without a plan, whose first separation is of this state and this demand.
pub(crate) fn separated_answer(
    alloc: Global,
    network: &[u8],
    instance: &Instance,
    state: StateId,
    demand: &Name,
) -> Result<PlanAnswer, NoMemory>
    requires { IsSeparationOf (case_of instance.now) state.0 demand.now }
    ensures { IfOk result (λ a. (a.status ≡ Status.NotSurvivable) × (a.text ≡ []) × SaysSeparations network.now (case_of instance.now) a.message) }
{
    let message = separated_text(alloc, network, instance, state, demand.bytes())?;
    Ok(PlanAnswer {
        status: Status::NotSurvivable,
        text: List::new(alloc),
        message,
    })
}
