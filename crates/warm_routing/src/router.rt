ghost use Rattle.std.specs.Prelude.{◌<◌, IfOk, IfSome};
ghost use Rattle.plan_terms.specs.Terms.{graph_of};
ghost use Rattle.row_cuts.specs.FoundCuts.{IsFoundCutOf};
ghost use Rattle.warm_routing.{specs.WarmAnswers.IsWarmAnswer, specs.inner.Steps.{IsSoundChoice, IsSoundStep}};

use crate::answer::WarmAnswer;
use crate::cut_of_row::cut_at;
use crate::entering_path::{entering_path, entering_slack};
use crate::path_search::{Waiting, collect, given, set_lengths};
use crate::start::{Amounts, amounts_of, first_basis};
use flow_mending::if_routed;
use flow_mending::reach::Reach;
use flow_router::lowest;
use metric_cut::Cut;
use net_core::{List, NoMemory, RouteColumn, RouteTask, Routing, StateId, Surviving};
use node_sets::threshold_set;
use std::alloc::Global;
use warm_basis::{
    Aim, Basis, BasisRow, Entrant, Share, Shortage, aimed, clear, enter, is_short, routing_of,
    set_weights, shares_of, short_in_all, shortage_of,
};

/// A basis that is kept from one question to the next. It saves work and changes no answer's meaning, so that nothing need be known of it.
#[derive(Drop)]
pub struct WarmRouter {
    alloc: Global,
    basis: Basis,
}

/// What one question is of, and the paths that may enter.
#[derive(Drop)]
struct Question {
    amounts: Amounts,
    waiting: List<Waiting>,
    reach: Reach,
    /// Whether one row counts alone, and searches take all links.
    alone: bool,
}

/// How the search for an answer goes on.
#[derive(Drop)]
enum Step {
    /// The basis has changed, or what counts in it.
    Turned,
    /// There is this answer.
    Done(WarmAnswer),
    /// It isn't found.
    GivenUp,
}

/// What enters, or an answer.
#[derive(Drop)]
enum Choice {
    Enters(Entrant),
    Done(WarmAnswer),
    Nothing,
}

/// A violated cut of a set of nodes that are near under the slopes.
fn near_set(alloc: Global, task: &RouteTask, slopes: &[i64]) -> Result<Option<Cut>, NoMemory>
    requires scale { 0 < task.now.caps.now.scale }
    ensures { IfOk result (λ o. IfSome o (IsFoundCutOf (graph_of task.now.graph) task.now.demands.now task.now.caps.now)) }
{
    let mut lengths = List::filled(alloc, 0, task.graph.net.links().len())?;
    set_lengths(lengths.items_mut(), slopes);
    threshold_set(alloc, task, &lengths)
}

/// Searches for paths that may enter, and for a violated cut of a set of nodes near under the slopes.
fn search(
    alloc: Global,
    task: &RouteTask,
    basis: &Basis,
    shortage: &Shortage,
    shares: &[Share],
    question: &mut Question,
) -> Result<Choice, NoMemory>
    requires scale { 0 < task.now.caps.now.scale }
    ensures { IfOk result (IsSoundChoice (graph_of task.now.graph) task.now.demands.now task.now.caps.now) }
{
    let slopes = shortage.slopes.items();
    let keys = basis.keys.items();
    let needs = question.amounts.needs.items();
    let reach = &mut question.reach;
    let found = collect(alloc, task, shortage, keys, shares, needs, reach)?;
    question.waiting = found.waiting;
    if !question.alone && given(slopes, question.amounts.bounds.items()) < found.asked {
        if let Some(cut) = near_set(alloc, task, slopes)? {
            return Ok(Choice::Done(WarmAnswer::Violated(cut)));
        }
    }
    match entering_path(shortage, keys, shares, needs, &mut question.waiting) {
        Some(entrant) => Ok(Choice::Enters(entrant)),
        None => Ok(Choice::Nothing),
    }
}

/// What enters next.
fn choose(
    alloc: Global,
    task: &RouteTask,
    basis: &Basis,
    shortage: &Shortage,
    shares: &[Share],
    question: &mut Question,
) -> Result<Choice, NoMemory>
    requires scale { 0 < task.now.caps.now.scale }
    ensures { IfOk result (IsSoundChoice (graph_of task.now.graph) task.now.demands.now task.now.caps.now) }
{
    if let Some(entrant) = entering_slack(shortage.slopes.items()) {
        return Ok(Choice::Enters(entrant));
    }
    let keys = basis.keys.items();
    let needs = question.amounts.needs.items();
    if let Some(entrant) = entering_path(shortage, keys, shares, needs, &mut question.waiting) {
        return Ok(Choice::Enters(entrant));
    }
    search(alloc, task, basis, shortage, shares, question)
}

/// The answer that a basis gives in which nothing is short, if its routing carries the demands.
fn routed(
    alloc: Global,
    task: &RouteTask,
    basis: &Basis,
    shares: &[Share],
    needs: &[i128],
) -> Result<Step, NoMemory>
    ensures { IfOk result (IsSoundStep (graph_of task.now.graph) task.now.demands.now task.now.caps.now) }
{
    let Some(routing) = routing_of(alloc, basis, shares, needs)? else {
        return Ok(Step::GivenUp);
    };
    if routing.den == 0 {
        return Ok(Step::GivenUp);
    }
    let routing = lowest(routing);
    match if_routed(alloc, task, routing)? {
        Some(routing) => Ok(Step::Done(WarmAnswer::Routed(routing))),
        None => Ok(Step::GivenUp),
    }
}

/// From now on one row counts alone, and searches take all links of the network.
fn leave_alone(
    alloc: Global,
    task: &RouteTask,
    basis: &mut Basis,
    question: &mut Question,
) -> Result<(), NoMemory> {
    let whole = Surviving {
        net: task.graph.net,
        states: task.graph.states,
        state: StateId(0),
    };
    question.reach = Reach::new(alloc, &whole)?;
    question.alone = true;
    clear(basis.rows.items_mut());
    Ok(())
}

/// What is done where nothing enters: one row counts alone from now on, and where one does already, its cut is the answer.
fn end_search(
    alloc: Global,
    task: &RouteTask,
    basis: &mut Basis,
    question: &mut Question,
) -> Result<Step, NoMemory>
    requires scale { 0 < task.now.caps.now.scale }
    ensures { IfOk result (IsSoundStep (graph_of task.now.graph) task.now.demands.now task.now.caps.now) }
{
    if !question.alone {
        leave_alone(alloc, task, basis, question)?;
        return Ok(Step::Turned);
    }
    let Some(at) = aimed(basis.rows.items()) else {
        return Ok(Step::GivenUp);
    };
    match cut_at(alloc, task, basis, at)? {
        Some(cut) => Ok(Step::Done(WarmAnswer::Violated(cut))),
        None => Ok(Step::GivenUp),
    }
}

/// A turn, or an answer, by how what is short depends on the capacities.
fn lessen(
    alloc: Global,
    task: &RouteTask,
    basis: &mut Basis,
    question: &mut Question,
    shares: &mut [Share],
    shortage: &Shortage,
) -> Result<Step, NoMemory>
    requires scale { 0 < task.now.caps.now.scale }
    ensures { IfOk result (IsSoundStep (graph_of task.now.graph) task.now.demands.now task.now.caps.now) }
{
    match choose(alloc, task, basis, shortage, shares, question)? {
        Choice::Enters(entrant) => {
            let (needs, alone) = (question.amounts.needs.items(), question.alone);
            if enter(alloc, basis, shares, needs, entrant, shortage.den, alone)? {
                Ok(Step::Turned)
            } else {
                Ok(Step::GivenUp)
            }
        }
        Choice::Done(answer) => Ok(Step::Done(answer)),
        Choice::Nothing => end_search(alloc, task, basis, question),
    }
}

/// A turn, or an answer, by what the rows that count are short of.
fn go_on(
    alloc: Global,
    task: &RouteTask,
    basis: &mut Basis,
    question: &mut Question,
    shares: &mut [Share],
) -> Result<Step, NoMemory>
    requires scale { 0 < task.now.caps.now.scale }
    ensures { IfOk result (IsSoundStep (graph_of task.now.graph) task.now.demands.now task.now.caps.now) }
{
    let links = question.amounts.bounds.len();
    match shortage_of(alloc, basis.rows.items(), links)? {
        Some(shortage) => lessen(alloc, task, basis, question, shares, &shortage),
        None => Ok(Step::GivenUp),
    }
}

/// One step where the keys carry these shares.
fn advance_by(
    alloc: Global,
    task: &RouteTask,
    basis: &mut Basis,
    question: &mut Question,
    shares: &mut [Share],
) -> Result<Step, NoMemory>
    requires scale { 0 < task.now.caps.now.scale }
    ensures { IfOk result (IsSoundStep (graph_of task.now.graph) task.now.demands.now task.now.caps.now) }
{
    if !is_short(basis.rows.items(), shares) {
        return routed(alloc, task, basis, shares, question.amounts.needs.items());
    }
    match set_weights(alloc, basis, shares, question.alone)? {
        Aim::Set => go_on(alloc, task, basis, question, shares),
        Aim::Exchanged => Ok(Step::Turned),
        Aim::Wide => Ok(Step::GivenUp),
    }
}

/// One step: an answer where nothing is short, else a turn.
fn advance(
    alloc: Global,
    task: &RouteTask,
    basis: &mut Basis,
    question: &mut Question,
) -> Result<Step, NoMemory>
    requires scale { 0 < task.now.caps.now.scale }
    ensures { IfOk result (IsSoundStep (graph_of task.now.graph) task.now.demands.now task.now.caps.now) }
{
    let rows = basis.rows.items_mut();
    let Amounts { needs, places, .. } = &mut question.amounts;
    match shares_of(alloc, rows, needs.items(), places.items_mut())? {
        Some(mut shares) => advance_by(alloc, task, basis, question, shares.items_mut()),
        None => Ok(Step::GivenUp),
    }
}

/// At most `turns` steps, one after another, up to an answer; `None` where they find none.
fn answer(
    alloc: Global,
    task: &RouteTask,
    basis: &mut Basis,
    question: &mut Question,
    turns: u32,
) -> Result<Option<WarmAnswer>, NoMemory>
    requires scale { 0 < task.now.caps.now.scale }
    ensures { IfOk result (λ o. IfSome o (IsWarmAnswer (graph_of task.now.graph) task.now.demands.now task.now.caps.now)) }
{
    for _ in 0..turns {
        match advance(alloc, task, basis, question)? {
            Step::Turned => {}
            Step::Done(answer) => return Ok(Some(answer)),
            Step::GivenUp => return Ok(None),
        }
    }
    Ok(None)
}

/// How much is short of what the demands need; `None` where a number is too wide.
fn short_at(
    alloc: Global,
    rows: &mut [BasisRow],
    amounts: &mut Amounts,
) -> Result<Option<u128>, NoMemory> {
    let Amounts { needs, places, .. } = amounts;
    match shares_of(alloc, rows, needs.items(), places.items_mut())? {
        Some(shares) => Ok(Some(short_in_all(rows, shares.items()))),
        None => Ok(None),
    }
}

impl WarmRouter {
    /// A router that begins with the first question's paths of fewest links. It asks for no memory.
    pub fn new(alloc: Global) -> WarmRouter {
        WarmRouter {
            alloc,
            basis: Basis::new(alloc),
        }
    }

    /// Whether it has a basis: a question has left one, with numbers that aren't too wide. It takes constant time.
    pub fn has_basis(&self) -> bool {
        self.basis.rows.len() > 0
    }

    /// A router that begins with a copy of this basis. It takes time and memory in the basis.
    pub fn copy(&self) -> Result<WarmRouter, NoMemory> {
        Ok(WarmRouter {
            alloc: self.alloc,
            basis: self.basis.copy(self.alloc)?,
        })
    }

    /// Whether the basis has the shape of the network and the demands.
    fn fits(&self, task: &RouteTask) -> bool {
        self.basis.keys.len() == task.demands.len()
            && self.basis.rows.len() == task.graph.net.links().len()
    }

    /// Sets what the columns carry at a task's capacities and needs, which it gives back.
    fn set_values(&mut self, task: &RouteTask) -> Result<Amounts, NoMemory> {
        let amounts = amounts_of(self.alloc, task)?;
        let (bounds, needs) = (amounts.bounds.items(), amounts.needs.items());
        self.basis.set_values(self.alloc, bounds, needs)?;
        Ok(amounts)
    }

    /// How much is short at these capacities while the basis is left as it is, with 20 bits after the point; `None` where it has another
    /// shape than the network and the demands, or a number is too wide.
    fn short(&mut self, task: &RouteTask) -> Result<Option<u128>, NoMemory> {
        if !self.fits(task) {
            return Ok(None);
        }
        let mut amounts = self.set_values(task)?;
        short_at(self.alloc, self.basis.rows.items_mut(), &mut amounts)
    }

    /// Whether less is short with the other router's basis at these capacities than with its own, or its own doesn't say how much.
    fn is_farther(&mut self, other: &mut WarmRouter, task: &RouteTask) -> Result<bool, NoMemory> {
        match other.short(task)? {
            Some(short) => match self.short(task)? {
                Some(own) => Ok(short < own),
                None => Ok(true),
            },
            None => Ok(false),
        }
    }

    /// Goes on with the other router's basis where less is short with it at these capacities than with its own, and where it has none.
    ///
    /// It takes time in the square of the links, and in the links of the paths.
    pub fn take_nearer(&mut self, mut other: WarmRouter, task: &RouteTask) -> Result<(), NoMemory> {
        if self.is_farther(&mut other, task)? {
            *self = other;
        }
        Ok(())
    }

    /// Begins anew where the basis has another shape than the network and the demands.
    fn prepare(&mut self, task: &RouteTask) -> Result<Question, NoMemory> {
        let mut reach = Reach::new(self.alloc, &task.graph)?;
        if !self.fits(task) {
            self.basis = first_basis(self.alloc, task, &mut reach)?;
        }
        Ok(Question {
            amounts: self.set_values(task)?,
            waiting: List::new(self.alloc),
            reach,
            alone: false,
        })
    }

    /// Whether capacities carry the demands in a state; `None` where it isn't known: after `turns` turns, where a number is too wide, and
    /// where neither a set of nodes nor a row of the basis shows why not.
    ///
    /// Each turn takes time in the square of the links, and some take a search from each node; a cut takes the time of `threshold_set`
    /// or of `row_cut`. It keeps a path for each demand and a number for each link with each link.
    pub fn ask(&mut self, task: &RouteTask, turns: u32) -> Result<Option<WarmAnswer>, NoMemory>
        requires scale { 0 < task.now.caps.now.scale }
        ensures { IfOk result (λ o. IfSome o (IsWarmAnswer (graph_of task.now.graph) task.now.demands.now task.now.caps.now)) }
    {
        let mut question = self.prepare(task)?;
        answer(self.alloc, task, &mut self.basis, &mut question, turns)
    }

    /// The paths of the basis, as columns that a routing program may begin with. It copies each of them. It takes time and memory in their links.
    pub fn columns(&self) -> Result<List<RouteColumn>, NoMemory> {
        self.basis.carriers(self.alloc)
    }
}
