ghost use Rattle.std.{specs.Prelude.{◌≡◌, ◌+◌, ◌/◌, ◌^◌, ◌≤◌, ◌++◌, ◌∷◌, [], Some, IfOk, IfErr, length, true}, specs.List.range_with_len, specs.Coded.Coded-set};
ghost use Rattle.atomic_table.specs.Seated.{table_id_coded};
ghost use Rattle.turn_lock.{specs.Histories.{IsPrefix, longer, merged, are_places}, specs.inner.Tests.{IsDeskTable, has_vacant_slot, stage_number}};

use crate::chronicle::Chronicle;
use crate::rule::{TurnSeat, TurnTable};
use crate::steps::{commit, draw, halve, join, put_back, serve, sleep, try_take};
use atomic_table::Table;
use net_core::NoMemory;
use std::alloc::Global;
use std::snapshot::Snapshot;
use std::sync::Wait;

/// A value that one caller has at a time, in the order of the callers' tickets. A pass enters, its caller changes the
/// value, and the turn ends with one item more, or with the history as it was:
///
/// ```text
/// let (value, turn) = desk.enter(&rt, pass);
/// let pass = turn.leave_with(with_one_item_more(value));
/// ```
#[derive(Drop)]
pub struct Desk<T: Chronicle> {
    table: TurnTable<T>,
    ghost sizes: { IsDeskTable table.shared.table_id },
}

/// The right to take turns at a desk. It knows the history that it has seen, the places in it of its own items, and
/// how many of the desk's 2^32 units it has. A pass that is dropped takes its units with it, and the desk can't be
/// closed then.
#[derive(Drop)]
pub struct Pass<T: Chronicle> {
    seat: TurnSeat<T>,
    ghost idle: { stage_number seat.me.0.stage ≡ 0 },
    ghost hand: { length seat.me.1 ≡ 0 },
    ghost some_units: { 1 ≤ seat.me.0.units },
    ghost placed: { are_places 0 (length seat.me.0.seen) seat.me.0.places ≡ true },
}

/// A turn at a desk: the value is with its caller. It is spent by leaving.
pub struct Turn<'a, T: Chronicle> {
    desk: &'a Desk<T>,
    seat: TurnSeat<T>,
    ghost own: { seat.table_id ≡ desk.now.table.shared.table_id } by { Coded-set table_id_coded _ _ },
    ghost holds: { stage_number seat.me.0.stage ≡ 2 },
    ghost hand: { has_vacant_slot seat.me.1 ≡ true },
    ghost some_units: { 1 ≤ seat.me.0.units },
    ghost placed: { are_places 0 (length seat.me.0.seen) seat.me.0.places ≡ true },
}

impl<T: Chronicle> Desk<T> {
    ghost use Rattle.turn_lock.specs.Passes.{AreOfOneDesk, IsPassOf, opening_of, own_places, seen_by, turn_history, turn_origin, turn_places, turn_units, own_units};

    /// A desk for the value, and the pass with all units. It takes the memory of a table of three words and the value,
    /// once; no other call takes any.
    pub fn new(alloc: Global, value: T) -> Result<(Desk<T>, Pass<T>), (T, NoMemory)>
        requires { T.history value ≡ [] }
        ensures own { IfOk result (λ d. IsPassOf d.0 d.1) }
        ensures opening { IfOk result (λ d. opening_of d.0 ≡ value) }
        ensures pass { IfOk result (λ d. (seen_by d.1 ≡ []) × (own_places d.1 ≡ []) × (own_units d.1 ≡ 2 ^ 32)) }
        ensures back { IfErr result (λ e. e.0 ≡ value) }
    {
        let opening = Snapshot::of(&value);
        let mut slots = Vec::new(alloc);
        if let Err(refused) = slots.push(Some(value)) {
            let Some(value) = refused.value else {
                unreachable!()
            };
            slots.destroy_empty();
            return Err((value, NoMemory));
        }
        match Table::new(alloc, &[0, 0, 0], slots, &opening) {
            Ok((table, seat)) => Ok((Desk { table }, Pass { seat })),
            Err(refused) => {
                let mut slots = refused.slots;
                let Some(Some(value)) = slots.pop() else {
                    unreachable!()
                };
                slots.destroy_empty();
                Err((value, NoMemory))
            }
        }
    }

    /// Waits for the pass's turn, and gives the value. It may never return. It sleeps until another turn ends, and looks
    /// again then. It asks for no memory.
    pub fn enter<R: Wait>(&self, rt: &R, pass: Pass<T>) -> (T, Turn<'_, T>)
        requires { IsPassOf self.now pass }
        ensures own { AreOfOneDesk pass result.1 }
        ensures origin { T.origin result.0 ≡ T.origin (opening_of self.now) }
        ensures turn { turn_origin result.1 ≡ Some (T.origin result.0) }
        ensures stands { T.history result.0 ≡ turn_history result.1 }
        ensures begins { IsPrefix (seen_by pass) (turn_history result.1) }
        ensures places { turn_places result.1 ≡ own_places pass }
        ensures units { turn_units result.1 ≡ own_units pass }
    {
        let Pass { seat } = pass;
        let mut seat = seat;
        let ticket = draw(&self.table, &mut seat);
        for _ in rt.forever() {
            if let Some(value) = try_take(&self.table, &mut seat, ticket) {
                return (value, Turn { desk: self, seat });
            }
            sleep(rt, &self.table, ticket);
        }
        unreachable!()
    }

    /// Two passes for one. Half of the units, rounded down, go to the second, which has no items of its own.
    /// It takes constant time and no memory.
    pub fn split(&self, pass: Pass<T>) -> (Pass<T>, Pass<T>)
        requires own { IsPassOf self.now pass }
        requires units { 2 ≤ own_units pass }
        ensures own { IsPassOf self.now result.0 × IsPassOf self.now result.1 }
        ensures seen { (seen_by result.0 ≡ seen_by pass) × (seen_by result.1 ≡ seen_by pass) }
        ensures places { (own_places result.0 ≡ own_places pass) × (own_places result.1 ≡ []) }
        ensures units { (own_units result.0 + own_units result.1 ≡ own_units pass) × (own_units result.1 ≡ own_units pass / 2) }
    {
        let Pass { seat } = pass;
        let mut seat = seat;
        let other = halve(&self.table, &mut seat);
        (Pass { seat }, Pass { seat: other })
    }

    /// One pass for two. It has seen the longer of their lists, of which the other is a prefix, and has the items and
    /// units of both.
    /// It takes constant time and no memory.
    pub fn meet(&self, into: Pass<T>, other: Pass<T>) -> Pass<T>
        requires own { IsPassOf self.now into }
        requires same { IsPassOf self.now other }
        ensures own { IsPassOf self.now result }
        ensures seen { seen_by result ≡ longer (seen_by into) (seen_by other) }
        ensures first { IsPrefix (seen_by into) (seen_by result) }
        ensures second { IsPrefix (seen_by other) (seen_by result) }
        ensures places { own_places result ≡ merged (own_places into) (own_places other) }
        ensures units { own_units result ≡ own_units into + own_units other }
    {
        let Pass { seat } = into;
        let Pass { seat: second } = other;
        let mut seat = seat;
        join(&self.table, &mut seat, second);
        Pass { seat }
    }

    /// The value, back from the desk. Its history has the pass's own items and no others.
    /// It takes constant time and no memory.
    pub fn close(self, pass: Pass<T>) -> T
        requires own { IsPassOf self pass }
        requires all { own_units pass ≡ 2 ^ 32 }
        ensures origin { T.origin result ≡ T.origin (opening_of self) }
        ensures stands { T.history result ≡ seen_by pass }
        ensures places { own_places pass ≡ range_with_len 0 (length (T.history result)) }
    {
        let Desk { table } = self;
        let Pass { seat } = pass;
        let mut closed = table.close_with(seat);
        let slot = closed.take(0);
        closed.free();
        let Some(value) = slot else { unreachable!() };
        value
    }
}

impl<'a, T: Chronicle> Turn<'a, T> {
    ghost use Rattle.turn_lock.specs.Passes.{AreOfOneDesk, own_places, seen_by, turn_history, turn_origin, turn_places, turn_units, own_units};

    /// Ends the turn with the history as it was. It takes constant time and no memory.
    ///
    /// ```text
    /// let (sheet, turn) = desk.enter(&rt, pass);    // a sheet with the notes 5 and 7
    /// let pass = turn.leave(sheet);                 // the pass has seen 5 and 7, and has the items that it had
    /// ```
    pub fn leave(self, value: T) -> Pass<T>
        requires origin { turn_origin self ≡ Some (T.origin value) }
        requires stands { T.history value ≡ turn_history self }
        ensures own { AreOfOneDesk result self.entry }
        ensures seen { seen_by result ≡ turn_history self.entry }
        ensures places { own_places result ≡ turn_places self.entry }
        ensures units { own_units result ≡ turn_units self.entry }
    {
        let Turn { desk, seat } = self;
        let mut seat = seat;
        put_back(&desk.table, &mut seat, value);
        serve(&desk.table, &mut seat);
        Pass { seat }
    }

    /// Ends the turn with one item more, which becomes the pass's own. It takes constant time and no memory.
    ///
    /// ```text
    /// let (mut sheet, turn) = desk.enter(&rt, pass);    // a sheet with the notes 5 and 7, to which 9 is added
    /// let pass = turn.leave_with(sheet);                // the pass has seen 5, 7 and 9, and the item at place 2 is its own, too
    /// ```
    pub fn leave_with(self, value: T) -> Pass<T>
        requires origin { turn_origin self ≡ Some (T.origin value) }
        requires more { (item : T.Item) × (T.history value ≡ turn_history self ++ item ∷ []) }
        ensures own { AreOfOneDesk result self.entry }
        ensures seen { seen_by result ≡ T.history value }
        ensures places { own_places result ≡ turn_places self.entry ++ length (turn_history self.entry) ∷ [] }
        ensures units { own_units result ≡ turn_units self.entry }
    {
        let Turn { desk, seat } = self;
        let mut seat = seat;
        put_back(&desk.table, &mut seat, value);
        commit(&desk.table, &mut seat);
        serve(&desk.table, &mut seat);
        Pass { seat }
    }
}
