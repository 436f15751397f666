ghost use Rattle.std.specs.Prelude.{◌≡◌, ℕ, ◌≤◌, ◌<◌, ◌+◌, All, Contains, IfOk, IfSome, Some, length, slice_get};
ghost use Rattle.plan_terms.specs.Terms.{graph_in, case_of, IsSurvivable};
ghost use Rattle.separator.{specs.Terms.{IsFoundCutOf, IsAnswerOf, cut_answered, cuts_since}, specs.inner.Working.{AreAnswersBelow, AreCutsBelow, AreCutsOf}};
ghost use Rattle.board_desk.specs.Turns.{IsAtDesk, board_made, caller_seen};
ghost use Rattle.hint_board.specs.Hints.{hint_links};
ghost use Rattle.separation_workers.{specs.Callers.{HasSeenHistory, SeesOn, caller_frame}, specs.inner.Rounds.{AreFound, IsFoundOf, IsInRound, IsStateFound}};

use crate::hints::post;
use crate::hold::Hold;
use crate::parallel_search::{find_state, find_states};
use crate::round::{KeptState, Lead, Round, StateFound};
use crate::some_states::answer_some;
use crate::spot::spot_in_turn;
use board_desk::Caller;
use cut_pool::Board;
use flow_router::RouteAnswer;
use hint_board::HintBoard;
use metric_cut::Cut;
use net_core::{Caps, Instance, List, NoMemory, StateId, discard};
use outside_io::{Gate, RoundFigures};
use plan_types::Spot;
use separator::{KnownState, Separate, Separated, StateAnswer, StateQuestion};
use std::alloc::Global;
use std::sync::{Mutex, Wait};
use std::thread::Threads;
use turn_lock::Desk;

/// What no call of a separator at a desk changes. It is used in contracts only; no value of it is made.
pub struct DeskMark<'a> {
    pub desk: Desk<Board<'a>>,
    /// The caller's number.
    pub number: u32,
    /// The units of the caller's pass.
    pub units: u64,
}

/// A separator for a caller at a desk, with up to four workers. They separate the states of a round in parallel. Then the caller puts their
/// cuts into the pool, in the order of the states and each in a turn of its own, so that other callers edit and plan meanwhile. It waits
/// for these turns, and may never return.
///
/// The gate is told on the caller's own thread: of each state that is asked, before any worker of its batch begins, and again when all of
/// them are done and before a cut of the state goes into the pool. In a round that stops early it is told only of states that are asked,
/// and of those with a violated set of nodes, in both cases twice, before the cut goes into the pool. The hold is told of a state on the
/// thread that works on it.
#[derive(Drop)]
pub struct Workers<'r, 'd, 'a, R, G> {
    lead: Lead<'r, R, G>,
    hold: &'r Hold,
    alloc: Global,
    hints: &'r HintBoard,
    caller: Caller<'d, 'a>,
    kept: List<KeptState>,
    /// The level of room that a round that stops early begins with: 0, the most room, at first, and higher levels after rounds that found
    /// nothing with so much.
    level: u32,
    /// The state that gave the first cut when a ring of states was asked last. The next ring begins with it.
    first: u32,
    pub ghost own: { ∥ IsAtDesk caller ∥₁ },
    pub ghost seen: { HasSeenHistory caller },
    pub ghost links: { hint_links hints.now ≡ length (board_made caller).net.now.links },
}

impl<'r, 'd, 'a, R, G> Workers<'r, 'd, 'a, R, G> {
    /// A separator for the caller, with a hint board for as many links as the network has. What it has seen and committed goes on from the
    /// caller's. The hold may keep one of its workers waiting in a round. It takes constant time, and asks for no memory.
    pub fn new(
        rt: &'r R,
        alloc: Global,
        gate: &'r G,
        hold: &'r Hold,
        hints: &'r HintBoard,
        caller: Caller<'d, 'a>,
    ) -> Workers<'r, 'd, 'a, R, G>
        requires own { IsAtDesk caller }
        requires seen { HasSeenHistory caller }
        requires hints { hint_links hints.now ≡ length (board_made caller).net.now.links }
        ensures { result.caller ≡ caller.entry }
    {
        Workers {
            lead: Lead { rt, gate },
            hold,
            alloc,
            hints,
            caller,
            kept: List::new(alloc),
            level: 0,
            first: 0,
        }
    }

    /// The caller, as the separator leaves it. It takes constant time.
    pub fn into_caller(self) -> Caller<'d, 'a>
        ensures own { IsAtDesk result }
        ensures seen { HasSeenHistory result }
        ensures caller { result ≡ self.entry.caller }
    {
        self.caller
    }
}

/// Makes `kept` as long as the number of states, with nothing known of the new ones.
fn reach(alloc: Global, kept: &mut List<KeptState>, states: u32) -> Result<(), NoMemory> {
    for _ in kept.len()..states as usize {
        kept.push(Mutex::new(KnownState::new(alloc)))?;
    }
    Ok(())
}

/// The answer at the place of a state, taken out of it.
fn taken(round: &Round, places: &mut [Option<StateFound>], state: StateId) -> Option<StateFound>
    requires { AreFound round.now places.old }
    ensures found { IfSome result (IsStateFound round.now) }
    ensures left { AreFound round.now places.new }
{
    let at = state.0 as usize;
    if at < places.len() {
        places[at].take()
    } else {
        None
    }
}

/// The answer of a state. It is searched for here if no worker has left it at its place.
fn found_of(
    round: &Round,
    places: &mut [Option<StateFound>],
    state: StateId,
) -> Result<RouteAnswer, NoMemory>
    requires state { state.0 < length round.now.instance.states.now.listed + 1 }
    requires found { AreFound round.now places.old }
    ensures left { AreFound round.now places.new }
    ensures of { IfOk result (IsFoundOf round.now state.0) }
{
    let Some(found) = taken(round, places, state) else {
        return find_state(round, state);
    };
    if found.state == state {
        Ok(found.answer)
    } else {
        discard(found);
        find_state(round, state)
    }
}

/// Puts the cut of a state into the pool, posts its lengths on the hint board, and gives the state's answer.
pub fn answer_cut<R: Wait>(
    rt: &R,
    round: &Round,
    state: StateId,
    cut: Cut,
    caller: &mut Caller,
) -> Result<StateAnswer, NoMemory>
    requires caller { IsInRound round.now caller.old }
    requires found { IsFoundCutOf (graph_in (case_of round.now.instance) state.0) round.now.instance.demands.now round.now.caps.now cut }
    ensures goes { SeesOn caller.old caller.new }
    ensures cuts { AreCutsOf (case_of round.now.instance) round.now.caps.now state.0 (cuts_since (caller_seen caller.old) (caller_seen caller.new)) }
    ensures state { IfOk result (λ a. a.state ≡ state) }
    ensures answer { IfOk result (λ a. IsAnswerOf (case_of round.now.instance) round.now.caps.now (caller_seen caller.new).history state.0 a.answer) }
    ensures among { IfOk result (λ a. All (Contains (cut_answered a.answer)) (cuts_since (caller_seen caller.old) (caller_seen caller.new))) }
    ensures one { IfOk result (λ a. length (cut_answered a.answer) ≡ 1) }
{
    let line = cut.line(round.instance.demands)?;
    post(rt, round.hints, cut.lengths());
    let spot = spot_in_turn(rt, caller, cut)?;
    Ok(StateAnswer {
        state,
        answer: Separated::Violated(line, spot),
    })
}

/// The answer of a state. If it is a cut, that goes into the pool, and its lengths on the hint board.
fn answer_state<R: Wait, G: Gate>(
    lead: &Lead<R, G>,
    round: &Round,
    state: StateId,
    found: RouteAnswer,
    caller: &mut Caller,
) -> Result<StateAnswer, NoMemory>
    requires caller { IsInRound round.now caller.old }
    requires state { state.0 < length round.now.instance.states.now.listed + 1 }
    requires found { IsFoundOf round.now state.0 found }
    ensures goes { SeesOn caller.old caller.new }
    ensures cuts { AreCutsOf (case_of round.now.instance) round.now.caps.now state.0 (cuts_since (caller_seen caller.old) (caller_seen caller.new)) }
    ensures state { IfOk result (λ a. a.state ≡ state) }
    ensures answer { IfOk result (λ a. IsAnswerOf (case_of round.now.instance) round.now.caps.now (caller_seen caller.new).history state.0 a.answer) }
    ensures among { IfOk result (λ a. All (Contains (cut_answered a.answer)) (cuts_since (caller_seen caller.old) (caller_seen caller.new))) }
{
    lead.gate.after(round.caller, state.0);
    match found {
        RouteAnswer::Routed(routing) => Ok(StateAnswer {
            state,
            answer: Separated::Routed(routing),
        }),
        RouteAnswer::Violated(cut) => answer_cut(lead.rt, round, state, cut, caller),
        RouteAnswer::Wide(evidence) => Ok(StateAnswer {
            state,
            answer: Separated::Wide(evidence),
        }),
    }
}

/// The answer of a state, from what the workers left at its place. A cut goes into the pool, and its lengths on the hint board.
pub fn answer_at<R: Wait, G: Gate>(
    lead: &Lead<R, G>,
    round: &Round,
    state: StateId,
    places: &mut [Option<StateFound>],
    caller: &mut Caller,
) -> Result<StateAnswer, NoMemory>
    requires caller { IsInRound round.now caller.old }
    requires state { state.0 < length round.now.instance.states.now.listed + 1 }
    requires found { AreFound round.now places.old }
    ensures left { AreFound round.now places.new }
    ensures goes { SeesOn caller.old caller.new }
    ensures cuts { AreCutsOf (case_of round.now.instance) round.now.caps.now state.0 (cuts_since (caller_seen caller.old) (caller_seen caller.new)) }
    ensures state { IfOk result (λ a. a.state ≡ state) }
    ensures answer { IfOk result (λ a. IsAnswerOf (case_of round.now.instance) round.now.caps.now (caller_seen caller.new).history state.0 a.answer) }
    ensures among { IfOk result (λ a. All (Contains (cut_answered a.answer)) (cuts_since (caller_seen caller.old) (caller_seen caller.new))) }
{
    let found = found_of(round, places, state)?;
    answer_state(lead, round, state, found, caller)
}

/// The answer of each state. The cuts go into the pool in the order of the states.
fn answer_states<R: Wait, G: Gate>(
    lead: &Lead<R, G>,
    round: &Round,
    places: &mut [Option<StateFound>],
    caller: &mut Caller,
) -> Result<List<StateAnswer>, NoMemory>
    requires caller { IsInRound round.now caller.old }
    requires found { AreFound round.now places.old }
    ensures goes { SeesOn caller.old caller.new }
    ensures cuts { AreCutsBelow (case_of round.now.instance) round.now.caps.now (length round.now.instance.states.now.listed + 1)
        (cuts_since (caller_seen caller.old) (caller_seen caller.new)) }
    ensures answers { IfOk result (AreAnswersBelow (case_of round.now.instance) round.now.caps.now
        (length round.now.instance.states.now.listed + 1) (caller_seen caller.new).history
        (cuts_since (caller_seen caller.old) (caller_seen caller.new))) }
{
    let mut answers = List::new(round.alloc);
    for s in 0..round.instance.states.count() {
        let answer = answer_at(lead, round, StateId(s), places, caller)?;
        answers.push(answer)?;
    }
    Ok(answers)
}

/// Separates the states of a round in parallel, and puts their cuts into the pool.
fn answer_round<R: Threads + Wait, G: Gate>(
    lead: &Lead<R, G>,
    round: &Round,
    caller: &mut Caller,
) -> Result<List<StateAnswer>, NoMemory>
    requires caller { IsInRound round.now caller.old }
    ensures goes { SeesOn caller.old caller.new }
    ensures cuts { AreCutsBelow (case_of round.now.instance) round.now.caps.now (length round.now.instance.states.now.listed + 1)
        (cuts_since (caller_seen caller.old) (caller_seen caller.new)) }
    ensures answers { IfOk result (AreAnswersBelow (case_of round.now.instance) round.now.caps.now
        (length round.now.instance.states.now.listed + 1) (caller_seen caller.new).history
        (cuts_since (caller_seen caller.old) (caller_seen caller.new))) }
{
    let states = round.instance.states.count();
    for state in 0..states {
        lead.gate.before(round.caller, state);
    }
    let mut places = find_states(lead.rt, round, 0, states)?;
    answer_states(lead, round, places.items_mut(), caller)
}

impl<'r, 'd, 'a, R: Threads + Wait, G: Gate> Separate for Workers<'r, 'd, 'a, R, G> {
    type Mark = DeskMark<'a>;

    ghost frame = { λ s. caller_frame s.caller };

    ghost seen_of = { λ s. caller_seen s.caller };

    ghost seen = { λ s. s.seen };

    fn admit(&mut self, cut: Cut) -> Result<Spot, NoMemory> {
        spot_in_turn(self.lead.rt, &mut self.caller, cut)
    }

    fn separate(
        &mut self,
        instance: &Instance,
        caps: &Caps,
    ) -> Result<List<StateAnswer>, NoMemory> {
        reach(self.alloc, &mut self.kept, instance.states.count())?;
        self.level = 0;
        let round = Round {
            alloc: self.alloc,
            instance: *instance,
            caps,
            caller: self.caller.number(),
            hints: self.hints,
            hold: self.hold,
            kept: self.kept.items(),
            question: StateQuestion::SetsFirst,
        };
        answer_round(&self.lead, &round, &mut self.caller)
    }

    fn separate_until_cut(
        &mut self,
        instance: &Instance,
        caps: &Caps,
    ) -> Result<List<StateAnswer>, NoMemory> {
        reach(self.alloc, &mut self.kept, instance.states.count())?;
        let round = Round {
            alloc: self.alloc,
            instance: *instance,
            caps,
            caller: self.caller.number(),
            hints: self.hints,
            hold: self.hold,
            kept: self.kept.items(),
            question: StateQuestion::RoutingAlone,
        };
        answer_some(
            &self.lead,
            &round,
            &mut self.level,
            &mut self.first,
            &mut self.caller,
        )
    }

    fn note(&self, figures: RoundFigures) {
        self.lead.gate.rounded(self.caller.number(), figures);
    }
}
