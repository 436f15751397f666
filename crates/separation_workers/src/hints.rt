ghost use Rattle.std.specs.Prelude.{◌≡◌, ◌<◌, ◌≤◌, ◌+◌, ◌^◌, All, Contains, IfOk, IfSome, IsTrue, length};
ghost use Rattle.plan_terms.specs.Terms.{graph_in, AreDemands, case_of};
ghost use Rattle.hint_board.{specs.Hints.hint_links, specs.Priced.AreHintLengths};
ghost use Rattle.route_law.specs.Terms.{ArePricedSomewhere};
ghost use Rattle.separator.specs.Findings.{IsFoundCutOf};

use crate::depths::depth;
use crate::round::Round;
use hint_board::HintBoard;
use metric_cut::{Cut, are_narrow, violated_by};
use net_core::{Copied, Lengths, List, NoMemory, StateId, Surviving, discard};
use route_law::law::zeros_and_ones_are_priced;
use std::sync::Wait;

/// The most vectors of the hint board that are looked at.
const MOST_HINTS: u64 = 8192;

/// Whether there is a depth, and it is less than the least one so far, if any.
fn is_deeper(depth: Option<u128>, least: Option<u128>) -> bool {
    match (depth, least) {
        (Some(depth), Some(least)) => depth < least,
        (Some(_), None) => true,
        _ => false,
    }
}

/// The lengths of the hint board of least `depth` in a state, the first of them where several have it; `None` where none has a depth.
/// `parts` has one number per node.
fn deepest<'r>(round: &'r Round, graph: &Surviving, parts: &mut [u32]) -> Option<&'r Lengths>
    requires net { graph.now.net.now ≡ round.now.instance.net.now }
    requires nodes { length parts.old ≡ length graph.now.net.now.nodes }
    ensures { IfSome result (λ lengths. AreHintLengths (hint_links round.now.hints.now) lengths.now) }
{
    let mut least: Option<u128> = None;
    let mut best: Option<&Lengths> = None;
    for at in 0..MOST_HINTS {
        let Some(lengths) = round.hints.get(at) else {
            break;
        };
        let depth = depth(round, graph, lengths.items(), parts);
        if is_deeper(depth, least) {
            least = depth;
            best = Some(lengths);
        }
    }
    best
}

/// A copy of the lengths of the hint board that have the least depth in a state.
fn deepest_in(round: &Round, state: StateId) -> Result<Option<Lengths>, NoMemory>
    requires { state.0 < length round.now.instance.states.now.listed + 1 }
    ensures { IfOk result (λ o. IfSome o (AreHintLengths (hint_links round.now.hints.now))) }
{
    let graph = round.instance.in_state(state);
    let mut parts = List::filled(round.alloc, 0, graph.net.nodes().len())?;
    match deepest(round, &graph, parts.items_mut()) {
        Some(lengths) => Ok(Some(lengths.copy()?)),
        None => Ok(None),
    }
}

/// The cut of the lengths in the state, if the capacities violate it.
fn if_violated(round: &Round, state: StateId, lengths: Lengths) -> Result<Option<Cut>, NoMemory>
    requires state { state.0 < length round.now.instance.states.now.listed + 1 }
    requires narrow { All (λ n. n < 2 ^ 62) round.now.caps.now.nums }
    requires lengths { AreHintLengths (hint_links round.now.hints.now) lengths }
    ensures { IfOk result (λ o. IfSome o (IsFoundCutOf (graph_in (case_of round.now.instance) state.0) round.now.instance.demands.now round.now.caps.now)) }
{
    let instance = &round.instance;
    let found = Cut::in_graph(round.alloc, &instance.in_state(state), lengths)?;
    let Some(cut) = found else {
        return Ok(None);
    };
    let line = cut.line(instance.demands)?;
    let is_violated = violated_by(&line, round.caps);
    discard(line);
    if is_violated {
        Ok(Some(cut))
    } else {
        discard(cut);
        Ok(None)
    }
}

/// A cut of lengths from the hint board that the capacities violate in a state, if the lengths of least depth have one.
///
/// Each vector of lengths is tested cheaply by its depth; a cut, which takes a search from each node, is made of one only.
pub fn hinted_cut(round: &Round, state: StateId) -> Result<Option<Cut>, NoMemory>
    requires { state.0 < length round.now.instance.states.now.listed + 1 }
    ensures { IfOk result (λ o. IfSome o (IsFoundCutOf (graph_in (case_of round.now.instance) state.0) round.now.instance.demands.now round.now.caps.now)) }
{
    if !are_narrow(round.caps.nums.items()) {
        return Ok(None);
    }
    match deepest_in(round, state)? {
        Some(lengths) => if_violated(round, state, lengths),
        None => Ok(None),
    }
}

/// Whether the lengths are on the hint board.
fn is_shown(hints: &HintBoard, lengths: &[u32]) -> bool {
    (0..MOST_HINTS)
        .map_while(|at| hints.get(at))
        .any(|shown| shown.items() == lengths)
}

/// Whether each length is 0 or 1, and at least one is 1.
fn are_zeros_and_ones(lengths: &[u32]) -> bool
    ensures { IsTrue result → All (λ l. l ≤ 1) lengths.now × Contains lengths.now 1 }
{
    lengths.iter().all(|l| *l <= 1) && lengths.contains(&1)
}

/// Posts lengths on the hint board if they are zeros and ones, and not there yet. Where memory runs out they aren't posted.
pub fn post<R: Wait>(rt: &R, hints: &HintBoard, lengths: &Lengths)
    requires count { length lengths.now ≡ hint_links hints.now }
    requires few { length lengths.now ≤ 256 }
{
    if !are_zeros_and_ones(lengths.items()) || is_shown(hints, lengths.items()) {
        return;
    }
    if let Ok(lengths) = lengths.copy() {
        zeros_and_ones_are_priced();
        let _ = hints.post(rt, lengths);
    }
}
