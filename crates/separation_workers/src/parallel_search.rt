ghost use Rattle.std.specs.Prelude.{◌<◌, ◌≤◌, ◌+◌, All, IfOk, OnOk, length};
ghost use Rattle.separation_workers.{specs.inner.Rounds.{AreFound, IsFoundOf, IsStateFound}, specs.inner.Together.AreOfBoth};

use crate::hints::hinted_cut;
use crate::lent_columns::{is_begun, lend};
use crate::round::{Round, StateFound, Work};
use flow_router::RouteAnswer;
use net_core::{List, NoMemory, StateId, discard};
use outside_io::Gate;
use separator::{KnownState, StateQuestion, separate_state};
use std::thread;
use std::thread::Threads;

/// The most threads that work for a caller beside its own.
const HELPERS: u32 = 3;

/// Asks a state, beginning with what is kept of it.
fn ask(round: &Round, state: StateId, known: &mut KnownState) -> Result<RouteAnswer, NoMemory>
    requires { state.0 < length round.now.instance.states.now.listed + 1 }
    ensures { IfOk result (IsFoundOf round.now state.0) }
{
    known.separate(
        round.alloc,
        &round.instance,
        state,
        round.caps,
        round.question,
    )
}

/// Asks a state, beginning with what is kept of it, or with nothing where another worker has that in hand.
fn route(round: &Round, state: StateId) -> Result<RouteAnswer, NoMemory>
    requires { state.0 < length round.now.instance.states.now.listed + 1 }
    ensures { IfOk result (IsFoundOf round.now state.0) }
{
    if let Some(kept) = round.kept.get(state.0 as usize) {
        if let Some(mut known) = kept.try_lock() {
            return ask(round, state, &mut known);
        }
    }
    separate_state(
        round.alloc,
        &round.instance,
        state,
        round.caps,
        &mut List::new(round.alloc),
    )
}

/// The answer of a state. Unless the round asks by routing alone, the lengths of the hint board are tried first.
pub fn find_state(round: &Round, state: StateId) -> Result<RouteAnswer, NoMemory>
    requires { state.0 < length round.now.instance.states.now.listed + 1 }
    ensures { IfOk result (IsFoundOf round.now state.0) }
{
    match round.question {
        StateQuestion::SetsFirst => match hinted_cut(round, state)? {
            Some(cut) => Ok(RouteAnswer::Violated(cut)),
            None => route(round, state),
        },
        StateQuestion::RoutingAlone => route(round, state),
    }
}

/// The answer of a state. Where memory runs out, no worker takes a further state.
fn find_or_stop(round: &Round, work: &Work, state: StateId) -> Result<RouteAnswer, NoMemory>
    requires { state.0 < length round.now.instance.states.now.listed + 1 }
    ensures { IfOk result (IsFoundOf round.now state.0) }
{
    let found = find_state(round, state);
    if found.is_err() {
        work.stop();
    }
    found
}

/// Takes the next state that nobody has taken, and adds its answer to those found; `false` if no state is left. The hold hears of it.
fn find_next(round: &Round, work: &Work, found: &mut Vec<StateFound>) -> Result<bool, NoMemory>
    requires end { work.now.end ≤ length round.now.instance.states.now.listed + 1 }
    requires before { All (IsStateFound round.now) found.old.items }
    ensures { OnOk result (All (IsStateFound round.now) found.new.items) }
{
    let Some(state) = work.take() else {
        return Ok(false);
    };
    round.hold.before(round.caller, state.0);
    let answer = find_or_stop(round, work, state)?;
    round.hold.after(round.caller, state.0);
    found.push(StateFound { state, answer })?;
    Ok(true)
}

/// The answers of the states that one worker takes. The hold hears of each.
fn find_some(round: &Round, work: &Work) -> Result<Vec<StateFound>, NoMemory>
    requires { work.now.end ≤ length round.now.instance.states.now.listed + 1 }
    ensures { IfOk result (λ found. All (IsStateFound round.now) found.items) }
{
    let mut found = Vec::new(round.alloc);
    for _ in 0..round.instance.states.count() {
        if !find_next(round, work, &mut found)? {
            break;
        }
    }
    Ok(found)
}

/// The answers of two groups of workers, those of the first before those of the second.
fn both(
    one: Result<Vec<StateFound>, NoMemory>,
    two: Result<Vec<StateFound>, NoMemory>,
) -> Result<Vec<StateFound>, NoMemory>
    ensures { AreOfBoth one two result }
{
    let mut all = one?;
    let mut more = two?;
    all.append(&mut more)?;
    Ok(all)
}

/// The answers that this thread and a number of helpers find, each helper on a thread of its own. A worker takes the next state that nobody
/// has taken, so that one slow state holds nobody up. Where a thread can't be started, this one does its work. Threads are joined from the
/// last one inwards.
fn find_beside<R: Threads>(
    rt: &R,
    round: &Round,
    work: &Work,
    helpers: u32,
) -> Result<Vec<StateFound>, NoMemory>
    requires { work.now.end ≤ length round.now.instance.states.now.listed + 1 }
    ensures { IfOk result (λ found. All (IsStateFound round.now) found.items) }
{
    if helpers == 0 {
        return find_some(round, work);
    }
    let here = move || -> Result<Vec<StateFound>, NoMemory>
        requires { work.now.end ≤ length round.now.instance.states.now.listed + 1 }
        ensures { IfOk result (λ v. All (IsStateFound round.entry.now) v.items) }
    { find_some(round, work) };
    let beside = move || -> Result<Vec<StateFound>, NoMemory>
        requires some { 0 < helpers }
        requires end { work.now.end ≤ length round.now.instance.states.now.listed + 1 }
        ensures { IfOk result (λ v. All (IsStateFound round.entry.now) v.items) }
    { find_beside(rt, round, work, helpers - 1) };
    let (one, rest) = thread::join(rt, here, beside);
    both(one, rest)
}

/// Puts an answer at the place of its state.
fn place(round: &Round, places: &mut [Option<StateFound>], found: StateFound)
    requires found { IsStateFound round.now found }
    requires before { AreFound round.now places.old }
    ensures { AreFound round.now places.new }
{
    let at = found.state.0 as usize;
    if at < places.len() {
        discard(places[at].replace(found));
    } else {
        discard(found);
    }
}

/// An empty place for each state.
fn no_places(round: &Round) -> Result<List<Option<StateFound>>, NoMemory>
    ensures { IfOk result (AreFound round.now) }
{
    let count = round.instance.states.count() as usize;
    let mut places = List::from_vec(Vec::with_capacity(round.alloc, count)?);
    for _ in 0..count {
        places.push(None)?;
    }
    Ok(places)
}

/// Puts each answer at the place of its state.
fn place_all(round: &Round, places: &mut [Option<StateFound>], found: Vec<StateFound>)
    requires found { All (IsStateFound round.now) found.items }
    requires before { AreFound round.now places.old }
    ensures { AreFound round.now places.new }
{
    for one in found {
        place(round, places, one);
    }
}

/// The answers, each at the place of its state.
fn by_state(round: &Round, found: Vec<StateFound>) -> Result<List<Option<StateFound>>, NoMemory>
    requires { All (IsStateFound round.now) found.items }
    ensures { IfOk result (AreFound round.now) }
{
    let mut places = no_places(round)?;
    place_all(round, places.items_mut(), found);
    Ok(places)
}

/// The answer of the first state, found on this thread, if no state has a basis yet: the others begin with the basis that it leaves.
fn find_first(round: &Round, from: u32) -> Result<Vec<StateFound>, NoMemory>
    requires { from < length round.now.instance.states.now.listed + 1 }
    ensures { IfOk result (λ found. All (IsStateFound round.now) found.items) }
{
    if is_begun(round) {
        return Ok(Vec::new(round.alloc));
    }
    find_some(round, &Work::of(from, from + 1))
}

/// The answers of the states in `from..to`. They begin with the basis of the state before them where that is nearer to an answer than their
/// own.
fn find_others<R: Threads>(
    rt: &R,
    round: &Round,
    from: u32,
    to: u32,
) -> Result<Vec<StateFound>, NoMemory>
    requires from { from < to }
    requires to { to ≤ length round.now.instance.states.now.listed + 1 }
    ensures { IfOk result (λ found. All (IsStateFound round.now) found.items) }
{
    lend(round, from, to)?;
    let helpers = HELPERS.min(to - from - 1);
    find_beside(rt, round, &Work::of(from, to), helpers)
}

/// The answers of the states in `from..to`, each at the place of its state. They begin with the basis of the state before them where that
/// is nearer to an answer than their own. As long as no state has a basis, the first one is asked alone, and the others begin with its
/// basis.
///
/// The hold hears of a state on the thread that works on it. The caller's own gate isn't told here.
pub fn find_states<R: Threads>(
    rt: &R,
    round: &Round,
    from: u32,
    to: u32,
) -> Result<List<Option<StateFound>>, NoMemory>
    requires from { from < to }
    requires to { to ≤ length round.now.instance.states.now.listed + 1 }
    ensures { IfOk result (AreFound round.now) }
{
    let first = find_first(round, from)?;
    let next = if first.is_empty() { from } else { from + 1 };
    if next == to {
        return by_state(round, first);
    }
    let others = find_others(rt, round, next, to);
    let found = both(Ok(first), others)?;
    by_state(round, found)
}
