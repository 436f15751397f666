//! A worked caller: threads that note numbers on one sheet. The tests run it.
ghost use Rattle.std.specs.Prelude.{◌≡◌, ◌<◌, ◌≤◌, ◌^◌, ◌++◌, ◌∷◌, [], length, IsTrue, IsFalse};

use crate::{Chronicle, Desk, Pass};
use net_core::List;
use std::sync::Wait;
use std::thread;
use std::thread::Threads;

/// A sheet of numbers, and the number of its owner.
#[derive(Drop)]
pub struct Sheet {
    pub owner: u64,
    pub notes: List<u64>,
    pub ghost few: { length notes < 2 ^ 32 },
}

impl Chronicle for Sheet {
    type Item = u64;

    type Origin = u64;

    ghost history = { λ s. s.notes };

    ghost origin = { λ s. s.owner };

    fn count(&self) -> u64 {
        self.notes.len() as u64
    }
}

impl Sheet {
    /// Notes a number, or answers false where there is no room.
    fn add(&mut self, number: u64) -> bool
        ensures added { IsTrue result → self.new.notes ≡ self.old.notes ++ number ∷ [] }
        ensures same { IsFalse result → self.new.notes ≡ self.old.notes }
        ensures owner { self.new.owner ≡ self.old.owner }
    {
        self.count() < 0xffff_ffff && self.notes.push(number).is_ok()
    }
}

ghost use Rattle.turn_lock.specs.Passes.{IsPassOf, opening_of, seen_by, own_units};

/// One turn, which notes a number where there is room. It may wait for its turn; beside that it takes constant time on average, and asks
/// for memory only where the sheet has no room left.
pub fn note<R: Wait>(rt: &R, desk: &Desk<Sheet>, pass: Pass<Sheet>, number: u64) -> Pass<Sheet>
    requires { IsPassOf desk.now pass }
    ensures own { IsPassOf desk.now result }
    ensures units { own_units result ≡ own_units pass }
{
    let (sheet, turn) = desk.enter(rt, pass);
    let mut sheet = sheet;
    if sheet.add(number) {
        turn.leave_with(sheet)
    } else {
        turn.leave(sheet)
    }
}

/// Many turns, each of which notes the number. It takes time in the number of turns, beside waiting for them, and memory for the notes.
pub fn note_often<R: Wait>(
    rt: &R,
    desk: &Desk<Sheet>,
    pass: Pass<Sheet>,
    number: u64,
    turns: u32,
) -> Pass<Sheet>
    requires { IsPassOf desk.now pass }
    ensures own { IsPassOf desk.now result }
    ensures units { own_units result ≡ own_units pass }
{
    let mut pass = pass;
    for _ in 0..turns {
        pass = note(rt, desk, pass, number);
    }
    pass
}

/// Two threads note 1 and 2 in turns of their own. The sheet comes back with the notes of both. It takes time in the number
/// of turns, and memory for the notes and the threads.
pub fn note_by_two<R: Threads + Wait + Sync>(
    rt: &R,
    desk: Desk<Sheet>,
    pass: Pass<Sheet>,
    turns: u32,
) -> Sheet
    requires own { IsPassOf desk pass }
    requires all { own_units pass ≡ 2 ^ 32 }
    ensures { result.owner ≡ (opening_of desk).owner }
{
    let shared = &desk;
    let (one, two) = shared.split(pass);
    let (one, two) = thread::join(
        rt,
        || -> Pass<Sheet>
            requires { IsPassOf shared.now one }
            ensures own { IsPassOf shared.entry.now result }
            ensures units { own_units result ≡ own_units one }
        { note_often(rt, shared, one, 1, turns) },
        || -> Pass<Sheet>
            requires { IsPassOf shared.now two }
            ensures own { IsPassOf shared.entry.now result }
            ensures units { own_units result ≡ own_units two }
        { note_often(rt, shared, two, 2, turns) },
    );
    let pass = shared.meet(one, two);
    desk.close(pass)
}
