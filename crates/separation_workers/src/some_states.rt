ghost use Rattle.std.specs.Prelude.{◌≡◌, ◌≤◌, ◌<◌, ◌+◌, [], All, Contains, IfOk, OnOk, length};
ghost use Rattle.plan_terms.specs.Terms.{case_of};
ghost use Rattle.board_desk.specs.Turns.{caller_seen};
ghost use Rattle.separator.{specs.Terms.{AreAnswersUntilCut, cuts_answered, cuts_since, HasRoomOver}, specs.inner.Working.{AddsCut, AreCutsAnswered, AreCutsBelow, AreCutsOf, AreOtherAnswers, ContinueTo}};
ghost use Rattle.separation_workers.{specs.Callers.SeesOn, specs.inner.Rounds.{AreFound, IsInRound, IsPutApart}};

use crate::parallel_search::find_states;
use crate::round::{Lead, Round, StateFound};
use crate::workers::{answer_at, answer_cut};
use board_desk::Caller;
use net_core::{List, NoMemory, StateId};
use outside_io::Gate;
use separator::{
    NO_ROOM, RoomySets, StateAnswer, answers_of_both, is_cut, set_in_state, sets_of_round,
};
use std::sync::Wait;
use std::thread::Threads;

/// How many states of a ring are asked in parallel. It doesn't depend on the number of processors, so that the answers don't either.
const BATCH: u32 = 4;

/// Looks for a violated set of nodes in a state. If there is one, its cut goes into the pool and to the answers.
fn answer_set<R: Wait, G: Gate>(
    lead: &Lead<R, G>,
    round: &Round,
    state: StateId,
    sets: &RoomySets,
    caller: &mut Caller,
    answers: &mut List<StateAnswer>,
) -> Result<(), NoMemory>
    requires caller { IsInRound round.now caller.old }
    requires state { state.0 < length round.now.instance.states.now.listed + 1 }
    requires room { HasRoomOver round.now.caps.now sets.now }
    ensures goes { SeesOn caller.old caller.new }
    ensures cuts { AreCutsOf (case_of round.now.instance) round.now.caps.now state.0 (cuts_since (caller_seen caller.old) (caller_seen caller.new)) }
    ensures adds { OnOk result (AddsCut (case_of round.now.instance) round.now.caps.now state.0 (caller_seen caller.new).history
        (cuts_since (caller_seen caller.old) (caller_seen caller.new)) answers.old answers.new) }
{
    match set_in_state(round.alloc, &round.instance, state, round.caps, sets)? {
        Some(cut) => {
            lead.gate.before(round.caller, state.0);
            lead.gate.after(round.caller, state.0);
            let answer = answer_cut(lead.rt, round, state, cut, caller)?;
            answers.push(answer)?;
            Ok(())
        }
        None => Ok(()),
    }
}

/// Cuts of violated sets of nodes, one for each state in which one is found, all put into the pool.
fn answer_all_sets<R: Wait, G: Gate>(
    lead: &Lead<R, G>,
    round: &Round,
    sets: &RoomySets,
    caller: &mut Caller,
) -> Result<List<StateAnswer>, NoMemory>
    requires caller { IsInRound round.now caller.old }
    requires room { HasRoomOver round.now.caps.now sets.now }
    ensures goes { SeesOn caller.old caller.new }
    ensures below { AreCutsBelow (case_of round.now.instance) round.now.caps.now (length round.now.instance.states.now.listed + 1)
        (cuts_since (caller_seen caller.old) (caller_seen caller.new)) }
    ensures cuts { IfOk result (AreCutsAnswered (case_of round.now.instance) round.now.caps.now (length round.now.instance.states.now.listed + 1)
        (caller_seen caller.new).history (cuts_since (caller_seen caller.old) (caller_seen caller.new))) }
{
    let mut answers = List::new(round.alloc);
    for s in 0..round.instance.states.count() {
        answer_set(lead, round, StateId(s), sets, caller, &mut answers)?;
    }
    Ok(answers)
}

/// Cuts of sets of nodes that are violated with the room of a level, one for each state in which one is found, all put into the pool.
fn answer_sets<R: Wait, G: Gate>(
    lead: &Lead<R, G>,
    round: &Round,
    level: u32,
    caller: &mut Caller,
) -> Result<List<StateAnswer>, NoMemory>
    requires caller { IsInRound round.now caller.old }
    ensures goes { SeesOn caller.old caller.new }
    ensures below { AreCutsBelow (case_of round.now.instance) round.now.caps.now (length round.now.instance.states.now.listed + 1)
        (cuts_since (caller_seen caller.old) (caller_seen caller.new)) }
    ensures cuts { IfOk result (AreCutsAnswered (case_of round.now.instance) round.now.caps.now (length round.now.instance.states.now.listed + 1)
        (caller_seen caller.new).history (cuts_since (caller_seen caller.old) (caller_seen caller.new))) }
{
    let sets = sets_of_round(round.alloc, &round.instance, round.caps, level)?;
    answer_all_sets(lead, round, &sets, caller)
}

/// Cuts of sets of nodes that are violated with the most room, from the room of `level` down, with which some are found; `level` becomes
/// the one of that room.
fn answer_roomy_sets<R: Wait, G: Gate>(
    lead: &Lead<R, G>,
    round: &Round,
    level: &mut u32,
    caller: &mut Caller,
) -> Result<List<StateAnswer>, NoMemory>
    requires caller { IsInRound round.now caller.old }
    ensures goes { SeesOn caller.old caller.new }
    ensures below { AreCutsBelow (case_of round.now.instance) round.now.caps.now (length round.now.instance.states.now.listed + 1)
        (cuts_since (caller_seen caller.old) (caller_seen caller.new)) }
    ensures cuts { IfOk result (AreCutsAnswered (case_of round.now.instance) round.now.caps.now (length round.now.instance.states.now.listed + 1)
        (caller_seen caller.new).history (cuts_since (caller_seen caller.old) (caller_seen caller.new))) }
{
    let cuts = answer_sets(lead, round, *level, caller)?;
    if cuts.len() == 0 && *level < NO_ROOM {
        *level += 1;
        return answer_roomy_sets(lead, round, level, caller);
    }
    Ok(cuts)
}

/// Adds an answer to the cuts if it is one, else to the others.
fn put_answer(
    answer: StateAnswer,
    cuts: &mut List<StateAnswer>,
    others: &mut List<StateAnswer>,
) -> Result<(), NoMemory>
    ensures { OnOk result (IsPutApart answer cuts.old cuts.new others.old others.new) }
{
    if is_cut(&answer.answer) {
        cuts.push(answer)?;
    } else {
        others.push(answer)?;
    }
    Ok(())
}

/// The answers of the states in `from..to` that are cuts, all put into the pool. The other answers are added to `others`.
fn answer_places<R: Wait, G: Gate>(
    lead: &Lead<R, G>,
    round: &Round,
    from: u32,
    to: u32,
    places: &mut [Option<StateFound>],
    caller: &mut Caller,
    others: &mut List<StateAnswer>,
) -> Result<List<StateAnswer>, NoMemory>
    requires caller { IsInRound round.now caller.old }
    requires from { from ≤ to }
    requires to { to ≤ length round.now.instance.states.now.listed + 1 }
    requires found { AreFound round.now places.old }
    ensures goes { SeesOn caller.old caller.new }
    ensures below { AreCutsBelow (case_of round.now.instance) round.now.caps.now to (cuts_since (caller_seen caller.old) (caller_seen caller.new)) }
    ensures cuts { IfOk result (AreCutsAnswered (case_of round.now.instance) round.now.caps.now to
        (caller_seen caller.new).history (cuts_since (caller_seen caller.old) (caller_seen caller.new))) }
    ensures others { IfOk result (λ cuts. cuts ≡ [] → ContinueTo (case_of round.now.instance) round.now.caps.now from to others.old others.new) }
{
    let mut cuts = List::new(round.alloc);
    for s in from..to {
        let answer = answer_at(lead, round, StateId(s), places, caller)?;
        put_answer(answer, &mut cuts, others)?;
    }
    Ok(cuts)
}

/// Asks the states in `from..to` in parallel. The cuts are returned, and the other answers are added to `others`.
fn answer_batch<R: Threads + Wait, G: Gate>(
    lead: &Lead<R, G>,
    round: &Round,
    from: u32,
    to: u32,
    caller: &mut Caller,
    others: &mut List<StateAnswer>,
) -> Result<List<StateAnswer>, NoMemory>
    requires caller { IsInRound round.now caller.old }
    requires from { from < to }
    requires to { to ≤ length round.now.instance.states.now.listed + 1 }
    ensures goes { SeesOn caller.old caller.new }
    ensures below { AreCutsBelow (case_of round.now.instance) round.now.caps.now to (cuts_since (caller_seen caller.old) (caller_seen caller.new)) }
    ensures cuts { IfOk result (AreCutsAnswered (case_of round.now.instance) round.now.caps.now to
        (caller_seen caller.new).history (cuts_since (caller_seen caller.old) (caller_seen caller.new))) }
    ensures others { IfOk result (λ cuts. cuts ≡ [] → ContinueTo (case_of round.now.instance) round.now.caps.now from to others.old others.new) }
{
    for state in from..to {
        lead.gate.before(round.caller, state);
    }
    let mut places = find_states(lead.rt, round, from, to)?;
    answer_places(lead, round, from, to, places.items_mut(), caller, others)
}

/// Asks the states in `from..to`, batch after batch, until one gives cuts, and returns these. The other answers are added to `others`.
fn ask_until_cuts<R: Threads + Wait, G: Gate>(
    lead: &Lead<R, G>,
    round: &Round,
    from: u32,
    to: u32,
    caller: &mut Caller,
    others: &mut List<StateAnswer>,
) -> Result<List<StateAnswer>, NoMemory>
    requires caller { IsInRound round.now caller.old }
    requires from { from ≤ to }
    requires to { to ≤ length round.now.instance.states.now.listed + 1 }
    ensures goes { SeesOn caller.old caller.new }
    ensures below { AreCutsBelow (case_of round.now.instance) round.now.caps.now to (cuts_since (caller_seen caller.old) (caller_seen caller.new)) }
    ensures cuts { IfOk result (AreCutsAnswered (case_of round.now.instance) round.now.caps.now to
        (caller_seen caller.new).history (cuts_since (caller_seen caller.old) (caller_seen caller.new))) }
    ensures others { IfOk result (λ cuts. cuts ≡ [] → ContinueTo (case_of round.now.instance) round.now.caps.now from to others.old others.new) }
{
    let mut at = from;
    while at < to {
        let end = at + BATCH.min(to - at);
        let cuts = answer_batch(lead, round, at, end, caller, others)?;
        if cuts.len() > 0 {
            return Ok(cuts);
        }
        at = end;
    }
    Ok(List::new(round.alloc))
}

/// The state of the first answer; 0 if there is none.
fn first_state(answers: &[StateAnswer]) -> u32 {
    match answers {
        [answer, ..] => answer.state.0,
        [] => 0,
    }
}

/// Asks the states in `0..start` until cuts are found. `later` has the answers of the states from `start` on, none of which is a cut.
fn ask_before<R: Threads + Wait, G: Gate>(
    lead: &Lead<R, G>,
    round: &Round,
    start: u32,
    later: List<StateAnswer>,
    first: &mut u32,
    caller: &mut Caller,
) -> Result<List<StateAnswer>, NoMemory>
    requires caller { IsInRound round.now caller.old }
    requires start { start ≤ length round.now.instance.states.now.listed + 1 }
    requires later { AreOtherAnswers (case_of round.now.instance) round.now.caps.now start (length round.now.instance.states.now.listed + 1) later }
    ensures goes { SeesOn caller.old caller.new }
    ensures below { AreCutsBelow (case_of round.now.instance) round.now.caps.now (length round.now.instance.states.now.listed + 1)
        (cuts_since (caller_seen caller.old) (caller_seen caller.new)) }
    ensures answers { IfOk result (AreAnswersUntilCut (case_of round.now.instance) round.now.caps.now (caller_seen caller.new).history) }
    ensures among { IfOk result (λ answers. All (Contains (cuts_answered answers)) (cuts_since (caller_seen caller.old) (caller_seen caller.new))) }
{
    let mut answers = List::new(round.alloc);
    let cuts = ask_until_cuts(lead, round, 0, start, caller, &mut answers)?;
    if cuts.len() == 0 {
        return answers_of_both(answers, later);
    }
    *first = first_state(cuts.items());
    Ok(cuts)
}

/// Asks the states from `first` on, and then those before it, until cuts are found.
fn ask_ring<R: Threads + Wait, G: Gate>(
    lead: &Lead<R, G>,
    round: &Round,
    first: &mut u32,
    caller: &mut Caller,
) -> Result<List<StateAnswer>, NoMemory>
    requires caller { IsInRound round.now caller.old }
    ensures goes { SeesOn caller.old caller.new }
    ensures below { AreCutsBelow (case_of round.now.instance) round.now.caps.now (length round.now.instance.states.now.listed + 1)
        (cuts_since (caller_seen caller.old) (caller_seen caller.new)) }
    ensures answers { IfOk result (AreAnswersUntilCut (case_of round.now.instance) round.now.caps.now (caller_seen caller.new).history) }
    ensures among { IfOk result (λ answers. All (Contains (cuts_answered answers)) (cuts_since (caller_seen caller.old) (caller_seen caller.new))) }
{
    let count = round.instance.states.count();
    let start = (*first).min(count);
    let mut later = List::new(round.alloc);
    let cuts = ask_until_cuts(lead, round, start, count, caller, &mut later)?;
    if cuts.len() == 0 {
        return ask_before(lead, round, start, later, first, caller);
    }
    *first = first_state(cuts.items());
    Ok(cuts)
}

/// A round that stops early. It looks for violated sets of nodes, with the room of `level` and then with less, until some are found, and
/// answers their cuts, one for each state that has one. Where no set is violated even without room, the states are asked in a ring, four in
/// parallel, beginning with `first`, the one that was violated last when states were asked. The first batch with cuts ends it, and all of
/// them are the answer, though a number of another state may be too wide; where there are none, the answers of all states are. On fewer
/// than four processors up to three states are asked after one that has a cut, so that the answers don't depend on processors.
pub fn answer_some<R: Threads + Wait, G: Gate>(
    lead: &Lead<R, G>,
    round: &Round,
    level: &mut u32,
    first: &mut u32,
    caller: &mut Caller,
) -> Result<List<StateAnswer>, NoMemory>
    requires caller { IsInRound round.now caller.old }
    ensures goes { SeesOn caller.old caller.new }
    ensures below { AreCutsBelow (case_of round.now.instance) round.now.caps.now (length round.now.instance.states.now.listed + 1)
        (cuts_since (caller_seen caller.old) (caller_seen caller.new)) }
    ensures answers { IfOk result (AreAnswersUntilCut (case_of round.now.instance) round.now.caps.now (caller_seen caller.new).history) }
    ensures among { IfOk result (λ answers. All (Contains (cuts_answered answers)) (cuts_since (caller_seen caller.old) (caller_seen caller.new))) }
{
    let cuts = answer_roomy_sets(lead, round, level, caller)?;
    if cuts.len() == 0 {
        return ask_ring(lead, round, first, caller);
    }
    Ok(cuts)
}
