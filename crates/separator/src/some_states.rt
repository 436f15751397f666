ghost use Rattle.std.specs.Prelude.{◌≡◌, ◌≤◌, ◌<◌, ◌+◌, ◌++◌, [], ◌∷◌, All, Contains, IfOk, IfSome, IsTrue, None, OnOk, false, length};
ghost use Rattle.plan_terms.specs.Terms.{case_of, IsSurvivable};
ghost use Rattle.separator.{specs.Separators.{AreAnswersUntilCut, IsAnswerOf, cut_answered, cuts_after, cuts_answered}, specs.inner.Working.{AddsCut, AreCutsAnswered, AreOtherAnswers, ContinueTo, PoolsBelow, PoolsMore, PoolsOf}, specs.Rooms.HasRoomOver};

use crate::answers::{Separated, StateAnswer};
use crate::found_answer::{answer_cut, answer_found};
use crate::question::StateQuestion;
use crate::roomy_sets::{NO_ROOM, RoomySets, set_in_state, sets_of_round};
use crate::warm_start::KnownStates;
use cut_pool::Board;
use net_core::{Caps, Instance, List, NoMemory, StateId};
use std::alloc::Global;

/// Puts the cut of a violated set of nodes of a state to the answers, if one is found, and admits it to the board's pool.
fn answer_set(
    alloc: Global,
    instance: &Instance,
    state: StateId,
    caps: &Caps,
    sets: &RoomySets,
    board: &mut Board,
    answers: &mut List<StateAnswer>,
) -> Result<(), NoMemory>
    requires net { board.old.net.now ≡ instance.now.net.now }
    requires listed { board.old.states.now ≡ instance.now.states.now }
    requires state { state.0 < length instance.now.states.now.listed + 1 }
    requires scale { 0 < caps.now.scale }
    requires caps { length caps.now.nums ≡ length instance.now.net.now.links }
    requires room { HasRoomOver caps.now sets.now }
    ensures pools { PoolsOf (case_of instance.now) caps.now state.0 board.old board.new (cuts_after board.old.entries board.new.entries) }
    ensures adds { OnOk result (AddsCut (case_of instance.now) caps.now state.0 board.new.entries
        (cuts_after board.old.entries board.new.entries) answers.old answers.new) }
{
    match set_in_state(alloc, instance, state, caps, sets)? {
        Some(cut) => {
            let answer = answer_cut(instance, state, cut, board)?;
            answers.push(answer)?;
            Ok(())
        }
        None => Ok(()),
    }
}

/// The cuts of sets of nodes that are violated with the room of a level, one of each state of which one is found, admitted to the board's
/// pool.
fn answer_sets(
    alloc: Global,
    instance: &Instance,
    caps: &Caps,
    level: u32,
    board: &mut Board,
) -> Result<List<StateAnswer>, NoMemory>
    requires net { board.old.net.now ≡ instance.now.net.now }
    requires listed { board.old.states.now ≡ instance.now.states.now }
    requires scale { 0 < caps.now.scale }
    requires caps { length caps.now.nums ≡ length instance.now.net.now.links }
    ensures pools { PoolsBelow (case_of instance.now) caps.now (length instance.now.states.now.listed + 1) board.old board.new
        (cuts_after board.old.entries board.new.entries) }
    ensures cuts { IfOk result (AreCutsAnswered (case_of instance.now) caps.now (length instance.now.states.now.listed + 1)
        board.new.entries (cuts_after board.old.entries board.new.entries)) }
{
    let sets = sets_of_round(alloc, instance, caps, level)?;
    let mut answers = List::new(alloc);
    for s in 0..instance.states.count() {
        answer_set(
            alloc,
            instance,
            StateId(s),
            caps,
            &sets,
            board,
            &mut answers,
        )?;
    }
    Ok(answers)
}

/// The cuts of violated sets of nodes, with the most room from a level on with which some are found.
fn answer_roomy_sets(
    alloc: Global,
    instance: &Instance,
    caps: &Caps,
    level: &mut u32,
    board: &mut Board,
) -> Result<List<StateAnswer>, NoMemory>
    requires net { board.old.net.now ≡ instance.now.net.now }
    requires listed { board.old.states.now ≡ instance.now.states.now }
    requires scale { 0 < caps.now.scale }
    requires caps { length caps.now.nums ≡ length instance.now.net.now.links }
    ensures pools { PoolsBelow (case_of instance.now) caps.now (length instance.now.states.now.listed + 1) board.old board.new
        (cuts_after board.old.entries board.new.entries) }
    ensures cuts { IfOk result (AreCutsAnswered (case_of instance.now) caps.now (length instance.now.states.now.listed + 1)
        board.new.entries (cuts_after board.old.entries board.new.entries)) }
{
    let cuts = answer_sets(alloc, instance, caps, *level, board)?;
    if cuts.len() == 0 && *level < NO_ROOM {
        *level += 1;
        return answer_roomy_sets(alloc, instance, caps, level, board);
    }
    Ok(cuts)
}

/// What is found of a state, its cut admitted to the board's pool where one is found.
pub(crate) fn answer_state(
    instance: &Instance,
    state: StateId,
    caps: &Caps,
    question: StateQuestion,
    board: &mut Board,
    known: &mut KnownStates,
) -> Result<StateAnswer, NoMemory>
    requires net { board.old.net.now ≡ instance.now.net.now }
    requires listed { board.old.states.now ≡ instance.now.states.now }
    requires state { state.0 < length instance.now.states.now.listed + 1 }
    requires survivable { IsSurvivable (case_of instance.now) }
    requires scale { 0 < caps.now.scale }
    requires caps { length caps.now.nums ≡ length instance.now.net.now.links }
    ensures pools { PoolsOf (case_of instance.now) caps.now state.0 board.old board.new (cuts_after board.old.entries board.new.entries) }
    ensures state { IfOk result (λ a. a.state ≡ state) }
    ensures answer { IfOk result (λ a. IsAnswerOf (case_of instance.now) caps.now board.new.entries state.0 a.answer) }
    ensures among { IfOk result (λ a. All (Contains (cut_answered a.answer)) (cuts_after board.old.entries board.new.entries)) }
{
    let found = known.separate_state(instance, state, caps, question)?;
    answer_found(instance, state, caps, found, board)
}

/// Whether an answer is a cut. It takes constant time.
pub fn is_cut(answer: &Separated) -> bool
    ensures one { IsTrue result → length (cut_answered answer.now) ≡ 1 }
    ensures none { result ≡ false → cut_answered answer.now ≡ [] }
{
    match answer {
        Separated::Violated(_, _) => true,
        Separated::Routed(_) | Separated::Wide(_) => false,
    }
}

/// Asks states one after another, until a cut is found of one: its answer. The answers before it go to `others`.
fn ask_until_cut(
    instance: &Instance,
    caps: &Caps,
    from: u32,
    to: u32,
    board: &mut Board,
    known: &mut KnownStates,
    others: &mut List<StateAnswer>,
) -> Result<Option<StateAnswer>, NoMemory>
    requires net { board.old.net.now ≡ instance.now.net.now }
    requires listed { board.old.states.now ≡ instance.now.states.now }
    requires from { from ≤ to }
    requires to { to ≤ length instance.now.states.now.listed + 1 }
    requires survivable { IsSurvivable (case_of instance.now) }
    requires scale { 0 < caps.now.scale }
    requires caps { length caps.now.nums ≡ length instance.now.net.now.links }
    ensures pools { PoolsBelow (case_of instance.now) caps.now to board.old board.new (cuts_after board.old.entries board.new.entries) }
    ensures cut { IfOk result (λ o. IfSome o (λ a. AreCutsAnswered (case_of instance.now) caps.now to board.new.entries
        (cuts_after board.old.entries board.new.entries) (a ∷ []))) }
    ensures others { IfOk result (λ o. o ≡ None → PoolsMore board.old board.new [] × ContinueTo (case_of instance.now) caps.now from to others.old others.new) }
{
    for s in from..to {
        let question = StateQuestion::RoutingAlone;
        let answer = answer_state(instance, StateId(s), caps, question, board, known)?;
        if is_cut(&answer.answer) {
            return Ok(Some(answer));
        }
        others.push(answer)?;
    }
    Ok(None)
}

/// The one answer, whose state is asked first the next time.
fn only_cut(
    alloc: Global,
    answer: StateAnswer,
    first: &mut u32,
) -> Result<List<StateAnswer>, NoMemory>
    ensures { IfOk result (λ answers. answers ≡ answer ∷ []) }
{
    *first = answer.state.0;
    let mut answers = List::new(alloc);
    answers.push(answer)?;
    Ok(answers)
}

/// The answers of both lists, one list after the other. It takes time and memory in the number of answers, and copies none.
pub fn answers_of_both(
    answers: List<StateAnswer>,
    others: List<StateAnswer>,
) -> Result<List<StateAnswer>, NoMemory>
    ensures { IfOk result (λ all. all ≡ answers ++ others) }
{
    let mut all = answers.into_vec();
    let mut rest = others.into_vec();
    all.append(&mut rest)?;
    Ok(List::from_vec(all))
}

/// Asks the states before one, until a cut is found; `later` are the answers of the states from that one on.
fn ask_before(
    alloc: Global,
    instance: &Instance,
    caps: &Caps,
    start: u32,
    later: List<StateAnswer>,
    first: &mut u32,
    board: &mut Board,
    known: &mut KnownStates,
) -> Result<List<StateAnswer>, NoMemory>
    requires net { board.old.net.now ≡ instance.now.net.now }
    requires listed { board.old.states.now ≡ instance.now.states.now }
    requires start { start ≤ length instance.now.states.now.listed + 1 }
    requires later { AreOtherAnswers (case_of instance.now) caps.now start (length instance.now.states.now.listed + 1) later }
    requires survivable { IsSurvivable (case_of instance.now) }
    requires scale { 0 < caps.now.scale }
    requires caps { length caps.now.nums ≡ length instance.now.net.now.links }
    ensures pools { PoolsBelow (case_of instance.now) caps.now (length instance.now.states.now.listed + 1) board.old board.new
        (cuts_after board.old.entries board.new.entries) }
    ensures answers { IfOk result (AreAnswersUntilCut (case_of instance.now) caps.now board.new.entries) }
    ensures among { IfOk result (λ answers. All (Contains (cuts_answered answers)) (cuts_after board.old.entries board.new.entries)) }
{
    let mut answers = List::new(alloc);
    match ask_until_cut(instance, caps, 0, start, board, known, &mut answers)? {
        Some(cut) => only_cut(alloc, cut, first),
        None => answers_of_both(answers, later),
    }
}

/// Asks the states from the first one on, and then those before it, until a cut is found.
fn ask_ring(
    alloc: Global,
    instance: &Instance,
    caps: &Caps,
    first: &mut u32,
    board: &mut Board,
    known: &mut KnownStates,
) -> Result<List<StateAnswer>, NoMemory>
    requires net { board.old.net.now ≡ instance.now.net.now }
    requires listed { board.old.states.now ≡ instance.now.states.now }
    requires survivable { IsSurvivable (case_of instance.now) }
    requires scale { 0 < caps.now.scale }
    requires caps { length caps.now.nums ≡ length instance.now.net.now.links }
    ensures pools { PoolsBelow (case_of instance.now) caps.now (length instance.now.states.now.listed + 1) board.old board.new
        (cuts_after board.old.entries board.new.entries) }
    ensures answers { IfOk result (AreAnswersUntilCut (case_of instance.now) caps.now board.new.entries) }
    ensures among { IfOk result (λ answers. All (Contains (cuts_answered answers)) (cuts_after board.old.entries board.new.entries)) }
{
    let count = instance.states.count();
    let start = (*first).min(count);
    let mut later = List::new(alloc);
    match ask_until_cut(instance, caps, start, count, board, known, &mut later)? {
        Some(cut) => only_cut(alloc, cut, first),
        None => ask_before(alloc, instance, caps, start, later, first, board, known),
    }
}

/// The cuts of those violated sets of nodes that growing finds, one of each state that has one. They grow with the room of a level, and with
/// less where none is violated. Where there is none without room either, the states are asked in a ring, from the one that was violated last
/// when states were asked: the first cut that is found then, and where none is, the answers of all states.
pub fn answer_some(
    alloc: Global,
    instance: &Instance,
    caps: &Caps,
    level: &mut u32,
    first: &mut u32,
    board: &mut Board,
    known: &mut KnownStates,
) -> Result<List<StateAnswer>, NoMemory>
    requires net { board.old.net.now ≡ instance.now.net.now }
    requires listed { board.old.states.now ≡ instance.now.states.now }
    requires survivable { IsSurvivable (case_of instance.now) }
    requires scale { 0 < caps.now.scale }
    requires caps { length caps.now.nums ≡ length instance.now.net.now.links }
    ensures pools { PoolsBelow (case_of instance.now) caps.now (length instance.now.states.now.listed + 1) board.old board.new
        (cuts_after board.old.entries board.new.entries) }
    ensures answers { IfOk result (AreAnswersUntilCut (case_of instance.now) caps.now board.new.entries) }
    ensures among { IfOk result (λ answers. All (Contains (cuts_answered answers)) (cuts_after board.old.entries board.new.entries)) }
{
    let cuts = answer_roomy_sets(alloc, instance, caps, level, board)?;
    if cuts.len() == 0 {
        return ask_ring(alloc, instance, caps, first, board, known);
    }
    Ok(cuts)
}
