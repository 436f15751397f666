ghost use Rattle.std.{specs.Prelude.{◌≡◌, ◌+◌, ◌-◌, ◌/◌, ◌<◌, ◌≤◌, ◌^◌, ◌++◌, [], None, Some, length}, specs.List.range_with_len};
ghost use Rattle.plan_terms.specs.Terms.{graph, edit_need};
ghost use Rattle.metric_cut.specs.Cuts.{IsCutOf};
ghost use Rattle.turn_lock.specs.Terms.{IsPrefix, longer, merged, AreOfOneDesk, IsPassOf, own_units, seen_by, turn_history, turn_origin, turn_places, turn_units, own_places};
ghost use Rattle.cut_pool.specs.Terms.{origin_of};
ghost use Rattle.board_desk.specs.inner.Endings.{IsGrown, cut_enters, edit_enters};

use cut_pool::{AdmitAnswer, Board, EditAnswer, Snapshot};
use metric_cut::Cut;
use net_core::{Edit, NoMemory};
use std::sync::Wait;
use turn_lock::{Desk, Pass, Turn};

/// A caller at a desk with a board: its number, and its pass, which is there between turns. It goes into a thread of its own as one
/// value.
///
/// ```text
/// let answer = caller.edit(&rt, Edit::Set { name, need: 24000 });
/// let (first, second) = caller.split(2);                                // for two threads
/// let caller = first.meet(second);
/// ```
#[derive(Drop)]
pub struct Caller<'d, 'a> {
    number: u32,
    desk: &'d Desk<Board<'a>>,
    pass: Option<Pass<Board<'a>>>,
}

/// Whether a board that answers an edit so has one entry more.
fn edit_enters(answer: &EditAnswer) -> bool
    ensures { result ≡ edit_enters answer.now }
{
    matches!(answer, EditAnswer::At { .. })
}

/// Whether a board that answers a cut so has one entry more.
fn cut_enters(answer: &AdmitAnswer) -> bool
    ensures { result ≡ cut_enters answer.now }
{
    matches!(answer, AdmitAnswer::Admitted { .. })
}

/// Ends a turn with its board, which has one entry more or is as it was.
fn end_turn<'d, 'a>(turn: Turn<'d, Board<'a>>, board: Board<'a>, grown: bool) -> Pass<Board<'a>>
    requires origin { turn_origin turn ≡ Some (origin_of board) }
    requires grown { IsGrown grown (turn_history turn) board.entries }
    ensures own { AreOfOneDesk result turn.entry }
    ensures seen { seen_by result ≡ board.entry.entries }
    ensures places { own_places result ≡ turn_places turn.entry
        ++ range_with_len (length (turn_history turn.entry))
        (length board.entry.entries - length (turn_history turn.entry)) }
    ensures units { own_units result ≡ turn_units turn.entry }
{
    if grown {
        turn.leave_with(board)
    } else {
        turn.leave(board)
    }
}

impl<'d, 'a> Caller<'d, 'a> {
    ghost use Rattle.board_desk.specs.Turns.{AdmitsInTurn, AreAtOneDesk, EditsInTurn, IsAtDesk, IsSameCaller, LooksInTurn, board_made, caller_places, caller_seen, caller_units};

    /// The caller of this number, with a pass of the desk. It takes constant time and no memory.
    pub fn new(number: u32, desk: &'d Desk<Board<'a>>, pass: Pass<Board<'a>>) -> Caller<'d, 'a>
        requires { IsPassOf desk.now pass }
        ensures own { IsAtDesk result }
        ensures number { result.number ≡ number }
        ensures desk { result.desk.now ≡ desk.now }
        ensures pass { result.pass ≡ Some pass.entry }
    {
        Caller {
            number,
            desk,
            pass: Some(pass),
        }
    }

    /// The caller's number. It takes constant time.
    pub fn number(&self) -> u32
        ensures { result ≡ self.now.number }
    {
        self.number
    }

    /// Gives the caller another number. It takes constant time.
    pub fn set_number(&mut self, number: u32)
        ensures number { self.new.number ≡ number }
        ensures desk { self.new.desk.now ≡ self.old.desk.now }
        ensures pass { self.new.pass ≡ self.old.pass }
    {
        self.number = number;
    }

    /// The caller, moved out, so that it may be handed on by value and put back, as where a separator holds it: a struct with a field behind
    /// `&mut` can't have facts of its own. What is left keeps its number and its desk, and has no pass. It takes constant time and no memory.
    pub fn take(&mut self) -> Caller<'d, 'a>
        ensures moved { result ≡ self.old }
        ensures number { self.new.number ≡ self.old.number }
        ensures desk { self.new.desk.now ≡ self.old.desk.now }
        ensures gone { self.new.pass ≡ None }
    {
        Caller {
            number: self.number,
            desk: self.desk,
            pass: self.pass.take(),
        }
    }

    /// Waits for a turn, makes an edit in it, whose need is in units, and commits it with its reply. It may never return. In its turn it takes the
    /// time and the memory of `Board::edit`.
    pub fn edit<R: Wait>(&mut self, rt: &R, edit: Edit) -> EditAnswer
        requires own { IsAtDesk self.old }
        requires need { edit_need edit < 2 ^ 40 }
        ensures same { IsSameCaller self.old self.new }
        ensures turn { EditsInTurn self.old edit result self.new }
    {
        let Some(pass) = self.pass.take() else {
            unreachable!()
        };
        let (mut board, turn) = self.desk.enter(rt, pass);
        let answer = board.edit(self.number, edit);
        self.pass = Some(end_turn(turn, board, edit_enters(&answer)));
        answer
    }

    /// Waits for a turn, and puts a cut of the desk's network and states into the pool in it, as `Board::admit` does. It may never return. In its
    /// turn it takes the time and the memory of that call.
    pub fn admit<R: Wait>(&mut self, rt: &R, cut: Cut) -> AdmitAnswer
        requires own { IsAtDesk self.old }
        requires cut { IsCutOf (graph (board_made self.old).net.now (board_made self.old).states.now cut.state.0) cut }
        ensures same { IsSameCaller self.old self.new }
        ensures turn { AdmitsInTurn self.old cut result self.new }
    {
        let Some(pass) = self.pass.take() else {
            unreachable!()
        };
        let (mut board, turn) = self.desk.enter(rt, pass);
        let answer = board.admit(cut);
        self.pass = Some(end_turn(turn, board, cut_enters(&answer)));
        answer
    }

    /// Waits for a turn, and takes a snapshot in it, which commits nothing. It may never return. In its turn it takes the time and the memory of
    /// `Board::snapshot`.
    pub fn snapshot<R: Wait>(&mut self, rt: &R) -> Result<Snapshot, NoMemory>
        requires { IsAtDesk self.old }
        ensures same { IsSameCaller self.old self.new }
        ensures turn { LooksInTurn self.old result self.new }
    {
        let Some(pass) = self.pass.take() else {
            unreachable!()
        };
        let (board, turn) = self.desk.enter(rt, pass);
        let snapshot = board.snapshot();
        self.pass = Some(turn.leave(board));
        snapshot
    }

    /// Two callers for one. The second has this number, half of the units, rounded down, and no entries of its own. It takes constant time and no
    /// memory.
    pub fn split(self, number: u32) -> (Caller<'d, 'a>, Caller<'d, 'a>)
        requires own { IsAtDesk self }
        requires units { 2 ≤ caller_units self }
        ensures own { AreAtOneDesk self.entry result.0 × AreAtOneDesk self.entry result.1 }
        ensures numbers { (result.0.number ≡ self.entry.number) × (result.1.number ≡ number) }
        ensures seen { ((caller_seen result.0).history ≡ (caller_seen self.entry).history)
            × ((caller_seen result.1).history ≡ (caller_seen self.entry).history) }
        ensures places { (caller_places result.0 ≡ caller_places self.entry) × (caller_places result.1 ≡ []) }
        ensures units { (caller_units result.0 + caller_units result.1 ≡ caller_units self.entry) × (caller_units result.1 ≡ caller_units self.entry / 2) }
    {
        let Caller {
            number: mine,
            desk,
            pass,
        } = self;
        let Some(pass) = pass else { unreachable!() };
        let (first, second) = desk.split(pass);
        (
            Caller {
                number: mine,
                desk,
                pass: Some(first),
            },
            Caller {
                number,
                desk,
                pass: Some(second),
            },
        )
    }

    /// One caller for two. It keeps its number, and has seen the longer of the two histories. It takes constant time and no memory.
    pub fn meet(self, other: Caller<'d, 'a>) -> Caller<'d, 'a>
        requires { AreAtOneDesk self other }
        ensures own { AreAtOneDesk self.entry result }
        ensures number { result.number ≡ self.entry.number }
        ensures seen { (caller_seen result).history ≡ longer (caller_seen self.entry).history (caller_seen other.entry).history }
        ensures first { IsPrefix (caller_seen self.entry).history (caller_seen result).history }
        ensures second { IsPrefix (caller_seen other.entry).history (caller_seen result).history }
        ensures places { caller_places result ≡ merged (caller_places self.entry) (caller_places other.entry) }
        ensures units { caller_units result ≡ caller_units self.entry + caller_units other.entry }
    {
        let Caller { number, desk, pass } = self;
        let Some(pass) = pass else { unreachable!() };
        let Some(more) = other.pass else {
            unreachable!()
        };
        let pass = desk.meet(pass, more);
        Caller {
            number,
            desk,
            pass: Some(pass),
        }
    }

    /// The caller's pass, with which the desk may be closed. It takes constant time and no memory.
    pub fn into_pass(self) -> Pass<Board<'a>>
        requires { IsAtDesk self }
        ensures { self.entry.pass ≡ Some result }
    {
        let Some(pass) = self.pass else {
            unreachable!()
        };
        pass
    }
}
