ghost use Rattle.std.specs.Prelude.{◌≡◌, ◌<◌, ◌+◌, IfOk, OnErr, length};
ghost use Rattle.plan_terms.specs.Terms.{graph_in, case_of};
ghost use Rattle.route_law.specs.Terms.{AreJoined};
ghost use Rattle.separator.specs.Findings.{IsFinding};

use crate::one_state::separate_from;
use crate::question::StateQuestion;
use flow_router::RouteAnswer;
use net_core::{Caps, Instance, List, NoMemory, RouteColumn, StateId};
use std::alloc::Global;
use warm_routing::WarmRouter;

/// What is kept of a state from one question to the next: the columns that its last routing program ended with, and the basis that its
/// last question ended with. It saves work and changes no answer's meaning, so that nothing need be known of it.
#[derive(Drop)]
pub struct KnownState {
    columns: List<RouteColumn>,
    pub(crate) warm: WarmRouter,
}

impl KnownState {
    /// Nothing yet. It asks for no memory.
    pub fn new(alloc: Global) -> KnownState {
        KnownState {
            columns: List::new(alloc),
            warm: WarmRouter::new(alloc),
        }
    }

    /// Goes on with another state's basis where less is short with it in this state, at these capacities, than with its own, and where it has
    /// none. It takes time in the square of the links, and in the links of the paths.
    pub fn take_nearer(
        &mut self,
        other: KnownState,
        instance: &Instance,
        state: StateId,
        caps: &Caps,
    ) -> Result<(), NoMemory>
        requires state { state.0 < length instance.now.states.now.listed + 1 }
        requires caps { length caps.now.nums ≡ length instance.now.net.now.links }
    {
        self.warm
            .take_nearer(other.warm, &instance.task(state, caps))
    }

    /// Whether there is a basis that a question has left. It takes constant time.
    pub fn has_basis(&self) -> bool {
        self.warm.has_basis()
    }

    /// A state of which nothing is known but this basis, from which an answer is fewer turns away than from none. It takes time and memory
    /// in the square of the links.
    pub fn begun(&self, alloc: Global) -> Result<KnownState, NoMemory> {
        Ok(KnownState {
            columns: List::new(alloc),
            warm: self.warm.copy()?,
        })
    }

    /// Answers the state as `separate_from` does. Where memory runs out, the columns are as they were.
    pub fn separate(
        &mut self,
        alloc: Global,
        instance: &Instance,
        state: StateId,
        caps: &Caps,
        question: StateQuestion,
    ) -> Result<RouteAnswer, NoMemory>
        requires state { state.0 < length instance.now.states.now.listed + 1 }
        requires scale { 0 < caps.now.scale }
        requires caps { length caps.now.nums ≡ length instance.now.net.now.links }
        requires joined { AreJoined (graph_in (case_of instance.now) state.0) instance.now.demands.now }
        ensures found { IfOk result (IsFinding (graph_in (case_of instance.now) state.0) instance.now.demands.now caps.now) }
        ensures same { OnErr result (self.new.columns ≡ self.old.columns) }
    {
        separate_from(
            alloc,
            instance,
            state,
            caps,
            question,
            &mut self.columns,
            &mut self.warm,
        )
    }
}
