ghost use Rattle.std.specs.Prelude.{◌≡◌, ◌+◌, ◌<◌, ◌^◌, [], None, ℕ, List as Seq, All, IfOk, OnOk, length, map};
ghost use Rattle.plan_terms.specs.Terms.{Entry, Caps, Case};
ghost use Rattle.cut_pool.specs.Terms.{cut_of_line};
ghost use Rattle.separator.specs.Separators.{AreRoundAnswers, cuts_answered};
ghost use Rattle.plan_rounds.specs.inner.Answered.{AnswersShort, AreSorted, PutsAnswer};

use crate::candidates::Candidates;
use net_core::{Evidence, List, NoMemory, Routing, discard};
use separator::{Separated, StateAnswer};
use std::alloc::Global;

/// The answers of states, sorted: the routings, the cuts that the capacities violate, and evidence that a number of a state is too wide, if
/// it is in one.
#[derive(Drop)]
pub struct Answered {
    pub routings: List<Routing>,
    pub found: Candidates,
    pub wide: Option<Evidence>,
}

/// Lengths are below 2^32 by their type. It looks at none.
pub fn are_short(lengths: &[u32])
    ensures { All (λ x. x < 2 ^ 32) lengths.now }
{
    let _ = lengths;
}

/// Adds the answer of one state to those of the states before it. Of evidence only the last is kept.
fn put_answer(answer: Separated, answered: &mut Answered) -> Result<(), NoMemory>
    ensures puts { OnOk result (PutsAnswer answer answered.old answered.new) }
    ensures short { OnOk result (AnswersShort answer) }
{
    match answer {
        Separated::Routed(routing) => answered.routings.push(routing)?,
        Separated::Violated(line, spot) => {
            are_short(line.lengths.items());
            answered.found.lines.push(line)?;
            answered.found.spots.push(spot)?;
        }
        Separated::Wide(evidence) => discard(answered.wide.replace(evidence)),
    }
    Ok(())
}

/// Adds the answers of states, in their order, to an empty sorting.
fn put_answers(answers: List<StateAnswer>, answered: &mut Answered) -> Result<(), NoMemory>
    requires { answered.old ≡ record { routings = []; found = record { lines = []; spots = [] }; wide = None } }
    ensures sorted { OnOk result ((p : Case) (caps : Caps) (history : Seq Entry) → AreRoundAnswers p caps history answers
        → AreSorted p caps history (length p.listed + 1) answered.new) }
    ensures found { OnOk result (map cut_of_line answered.new.found.lines ≡ cuts_answered answers) }
{
    let mut left = answers.into_vec();
    left.reverse();
    while let Some(next) = left.pop() {
        put_answer(next.answer, answered)?;
    }
    Ok(())
}

/// Sorts the answers of states into routings, cuts and evidence.
pub fn sorted(alloc: Global, answers: List<StateAnswer>) -> Result<Answered, NoMemory>
    ensures sorted { IfOk result (λ a. (p : Case) (caps : Caps) (history : Seq Entry) → AreRoundAnswers p caps history answers
        → AreSorted p caps history (length p.listed + 1) a) }
    ensures found { IfOk result (λ a. map cut_of_line a.found.lines ≡ cuts_answered answers) }
{
    let mut answered = Answered {
        routings: List::new(alloc),
        found: Candidates {
            lines: List::new(alloc),
            spots: List::new(alloc),
        },
        wide: None,
    };
    match put_answers(answers, &mut answered) {
        Ok(()) => Ok(answered),
        Err(error) => {
            discard(answered);
            Err(error)
        }
    }
}
