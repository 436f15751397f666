ghost use Rattle.std.specs.Prelude.{◌≡◌, ◌<◌, ◌+◌, IfOk, length};
ghost use Rattle.plan_terms.specs.Terms.{graph_in, case_of};
ghost use Rattle.route_law.specs.Terms.{AreJoined};
ghost use Rattle.separator.specs.Findings.{IsFinding};

use crate::known_state::KnownState;
use crate::question::StateQuestion;
use flow_router::RouteAnswer;
use net_core::{Caps, Instance, List, NoMemory, StateId};
use std::alloc::Global;

/// What is kept of the states, from state 0 on.
#[derive(Drop)]
pub struct KnownStates {
    alloc: Global,
    by_state: List<KnownState>,
    /// The state that was asked last.
    last: usize,
}

impl KnownStates {
    /// Nothing at all.
    pub fn new(alloc: Global) -> KnownStates {
        KnownStates {
            alloc,
            by_state: List::new(alloc),
            last: 0,
        }
    }

    /// Makes ready what is kept of a state: it takes over the basis of the state that was asked last where that is nearer to an answer.
    fn make_ready(
        &mut self,
        instance: &Instance,
        state: StateId,
        caps: &Caps,
    ) -> Result<(), NoMemory>
        requires state { state.0 < length instance.now.states.now.listed + 1 }
        requires caps { length caps.now.nums ≡ length instance.now.net.now.links }
    {
        let at = state.0 as usize;
        reach(self.alloc, &mut self.by_state, at)?;
        let known = self.by_state.items_mut();
        lend_basis(self.alloc, instance, state, caps, self.last, known)?;
        self.last = at;
        Ok(())
    }

    /// Answers a state as `separate_from` does, and begins with what is kept of it.
    pub fn separate_state(
        &mut self,
        instance: &Instance,
        state: StateId,
        caps: &Caps,
        question: StateQuestion,
    ) -> Result<RouteAnswer, NoMemory>
        requires state { state.0 < length instance.now.states.now.listed + 1 }
        requires scale { 0 < caps.now.scale }
        requires caps { length caps.now.nums ≡ length instance.now.net.now.links }
        requires joined { AreJoined (graph_in (case_of instance.now) state.0) instance.now.demands.now }
        ensures found { IfOk result (IsFinding (graph_in (case_of instance.now) state.0) instance.now.demands.now caps.now) }
    {
        self.make_ready(instance, state, caps)?;
        match self.by_state.items_mut().get_mut(state.0 as usize) {
            Some(known) => known.separate(self.alloc, instance, state, caps, question),
            None => {
                KnownState::new(self.alloc).separate(self.alloc, instance, state, caps, question)
            }
        }
    }
}

/// Reaches as far as a state, with nothing kept of those that are new.
fn reach(alloc: Global, by_state: &mut List<KnownState>, at: usize) -> Result<(), NoMemory> {
    for _ in by_state.len()..at.saturating_add(1) {
        by_state.push(KnownState::new(alloc))?;
    }
    Ok(())
}

/// Gives a state the basis of the one that was asked last, where less is short with it than with its own.
fn lend_basis(
    alloc: Global,
    instance: &Instance,
    state: StateId,
    caps: &Caps,
    last: usize,
    by_state: &mut [KnownState],
) -> Result<(), NoMemory>
    requires state { state.0 < length instance.now.states.now.listed + 1 }
    requires caps { length caps.now.nums ≡ length instance.now.net.now.links }
{
    let at = state.0 as usize;
    if last == at || last >= by_state.len() || at >= by_state.len() {
        return Ok(());
    }
    let other = by_state[last].begun(alloc)?;
    by_state[at].take_nearer(other, instance, state, caps)
}
