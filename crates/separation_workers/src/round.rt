ghost use Rattle.std.specs.Prelude.{◌≡◌, ◌<◌, IfSome, length};
ghost use Rattle.plan_terms.specs.Terms.{case_of, IsSurvivable};
ghost use Rattle.hint_board.specs.Hints.{hint_links};

use crate::hold::Hold;
use flow_router::RouteAnswer;
use hint_board::HintBoard;
use net_core::{Caps, Instance, StateId};
use separator::{KnownState, StateQuestion};
use std::alloc::Global;
use std::sync::Mutex;
use std::sync::atomic::{AtomicU32, Ordering};

/// What is kept of a state from round to round, for the worker that asks it.
pub type KeptState = Mutex<KnownState>;

/// A round of separation: what all its workers share.
#[derive(Drop)]
pub struct Round<'i, 'c, 'h, 'k> {
    pub alloc: Global,
    pub instance: Instance<'i>,
    pub caps: &'c Caps,
    /// The caller's number.
    pub caller: u32,
    pub hints: &'h HintBoard,
    /// What hears of each state, on the thread that works on it.
    pub hold: &'h Hold,
    /// What is kept of each state, from state 0 on. A state beyond the end of the list is asked without.
    pub kept: &'k [KeptState],
    /// How states are asked. When they are asked by routing alone, the hint board isn't looked at either.
    pub question: StateQuestion,
    pub ghost survivable: { IsSurvivable (case_of instance) },
    pub ghost scale: { 0 < caps.now.scale },
    pub ghost count: { length caps.now.nums ≡ length instance.net.now.links },
    pub ghost links: { hint_links hints.now ≡ length instance.net.now.links },
}

/// What the caller's own thread leads a round with: the runtime by which it waits and starts other threads, and the gate that it tells of
/// each state.
#[derive(Drop)]
pub struct Lead<'r, R, G> {
    pub rt: &'r R,
    pub gate: &'r G,
}

/// A state of a round, with its answer.
#[derive(Drop)]
pub struct StateFound {
    pub state: StateId,
    pub answer: RouteAnswer,
}

/// The states in `next..end` of a round, which its workers take one after another.
#[derive(Drop)]
pub struct Work {
    /// The first state that nobody has taken.
    next: AtomicU32,
    end: u32,
}

impl Work {
    /// The states in `first..end`.
    pub fn of(first: u32, end: u32) -> Work
        ensures { result.end ≡ end }
    {
        Work {
            next: AtomicU32::new(first),
            end,
        }
    }

    /// Takes the next state that nobody has taken.
    pub fn take(&self) -> Option<StateId>
        ensures { IfSome result (λ s. s.0 < self.now.end) }
    {
        let next = self.next.fetch_add(1, Ordering::SeqCst);
        if next < self.end {
            Some(StateId(next))
        } else {
            None
        }
    }

    /// Leaves no state to take.
    pub fn stop(&self) {
        self.next.store(self.end, Ordering::SeqCst);
    }
}
