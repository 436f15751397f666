ghost use Rattle.std.specs.Prelude.{◌≡◌, ◌<◌, All, Contains, IfOk, length};
ghost use Rattle.plan_terms.specs.Terms.{graph_in, case_of};
ghost use Rattle.metric_cut.specs.Cuts.{IsCutOf};
ghost use Rattle.separator.{specs.Findings.IsFinding, specs.Separators.{IsAnswerOf, cut_answered, cuts_after}, specs.inner.Working.{AnswersFound, PoolsFound, PoolsOf}};

use crate::admission::line_and_spot;
use crate::answers::{Separated, StateAnswer};
use cut_pool::Board;
use flow_router::RouteAnswer;
use metric_cut::Cut;
use net_core::{Caps, Instance, NoMemory, StateId};

/// The answer of a state that a cut is found of, the cut admitted to the board's pool.
pub fn answer_cut(
    instance: &Instance,
    state: StateId,
    cut: Cut,
    board: &mut Board,
) -> Result<StateAnswer, NoMemory>
    requires net { board.old.net.now ≡ instance.now.net.now }
    requires listed { board.old.states.now ≡ instance.now.states.now }
    requires cut { IsCutOf (graph_in (case_of instance.now) state.0) cut }
    ensures pools { PoolsFound (case_of instance.now) state.0 cut board.old board.new }
    ensures state { IfOk result (λ a. a.state ≡ state) }
    ensures answer { IfOk result (λ a. AnswersFound (case_of instance.now) state.0 cut board.new.entries a.answer) }
    ensures among { IfOk result (λ a. All (Contains (cut_answered a.answer)) (cuts_after board.old.entries board.new.entries)) }
    ensures one { IfOk result (λ a. length (cut_answered a.answer) ≡ 1) }
{
    let (line, spot) = line_and_spot(instance.demands, cut, board)?;
    Ok(StateAnswer {
        state,
        answer: Separated::Violated(line, spot),
    })
}

/// The answer of a state, its cut admitted to the board's pool where one is found.
pub fn answer_found(
    instance: &Instance,
    state: StateId,
    caps: &Caps,
    found: RouteAnswer,
    board: &mut Board,
) -> Result<StateAnswer, NoMemory>
    requires net { board.old.net.now ≡ instance.now.net.now }
    requires listed { board.old.states.now ≡ instance.now.states.now }
    requires found { IsFinding (graph_in (case_of instance.now) state.0) instance.now.demands.now caps.now found }
    ensures pools { PoolsOf (case_of instance.now) caps.now state.0 board.old board.new (cuts_after board.old.entries board.new.entries) }
    ensures state { IfOk result (λ a. a.state ≡ state) }
    ensures answer { IfOk result (λ a. IsAnswerOf (case_of instance.now) caps.now board.new.entries state.0 a.answer) }
    ensures among { IfOk result (λ a. All (Contains (cut_answered a.answer)) (cuts_after board.old.entries board.new.entries)) }
{
    match found {
        RouteAnswer::Routed(routing) => Ok(StateAnswer {
            state,
            answer: Separated::Routed(routing),
        }),
        RouteAnswer::Violated(cut) => answer_cut(instance, state, cut, board),
        RouteAnswer::Wide(evidence) => Ok(StateAnswer {
            state,
            answer: Separated::Wide(evidence),
        }),
    }
}
