//! The steps at the table, each in a function of its own.
ghost use Rattle.std.specs.Prelude.{◌≡◌, ◌≤◌, ◌++◌, ◌∷◌, [], Some, None, length, IfSome, IfNone};
ghost use Rattle.turn_lock.{specs.inner.Plays.{Awaits, Commits, Draws, Serves, Settles, Took, first_half, joined_view, second_half}, specs.inner.Tests.{IsDeskTable, stage_number}};

use crate::chronicle::Chronicle;
use crate::rule::{Commit, Draw, Halves, Look, Merge, Serve, Settle, TurnSeat, TurnTable};
use std::sync::Wait;

/// Draws a ticket.
pub(crate) fn draw<T: Chronicle>(table: &TurnTable<T>, seat: &mut TurnSeat<T>) -> u64
    requires own { seat.old.table_id ≡ table.now.shared.table_id }
    requires sizes { IsDeskTable table.now.shared.table_id }
    requires idle { stage_number seat.old.me.0.stage ≡ 0 }
    requires units { 1 ≤ seat.old.me.0.units }
    ensures own { seat.new.table_id ≡ seat.old.table_id }
    ensures drawn { Draws seat.old.me result seat.new.me }
{
    table.shared.fetch_add::<Draw>(seat, 0, 1)
}

/// Looks which ticket is served, and takes the value if it is this one.
pub(crate) fn try_take<T: Chronicle>(
    table: &TurnTable<T>,
    seat: &mut TurnSeat<T>,
    ticket: u64,
) -> Option<T>
    requires own { seat.old.table_id ≡ table.now.shared.table_id }
    requires sizes { IsDeskTable table.now.shared.table_id }
    requires waits { Awaits ticket seat.old.me.0 }
    requires hand { seat.old.me.1 ≡ [] }
    ensures own { seat.new.table_id ≡ seat.old.table_id }
    ensures took { IfSome result (λ x. Took T.history T.origin x seat.old.me.0 seat.new.me.0) }
    ensures hand { IfSome result (λ x. seat.new.me.1 ≡ (0, None) ∷ []) }
    ensures none { IfNone result (seat.new.me ≡ seat.old.me) }
{
    if table.shared.load::<Look>(seat, 1) != ticket {
        return None;
    }
    table.shared.exchange(seat, 0, None)
}

/// Sleeps while another ticket is served. It may wake for no reason.
pub(crate) fn sleep<T: Chronicle, R: Wait>(rt: &R, table: &TurnTable<T>, ticket: u64)
    requires { IsDeskTable table.now.shared.table_id }
{
    let served = table.shared.peek(1);
    if served != ticket {
        table.shared.park(rt, 1, (served % 0x1_0000_0000) as u32);
    }
}

/// Puts the value into the slot again, which stays with the seat. This comes before its item is counted, since a step at the shared words
/// sees only the list in the slot.
pub(crate) fn put_back<T: Chronicle>(table: &TurnTable<T>, seat: &mut TurnSeat<T>, value: T)
    requires own { seat.old.table_id ≡ table.now.shared.table_id }
    requires hand { seat.old.me.1 ≡ (0, None) ∷ [] }
    ensures own { seat.new.table_id ≡ seat.old.table_id }
    ensures hand { seat.new.me ≡ (seat.old.me.0, (0, Some value) ∷ []) }
{
    let old = table.shared.exchange(seat, 0, Some(value));
    let None = old else { unreachable!() };
}

/// Counts one item more, which is the pass's own.
pub(crate) fn commit<T: Chronicle>(table: &TurnTable<T>, seat: &mut TurnSeat<T>)
    requires own { seat.old.table_id ≡ table.now.shared.table_id }
    requires sizes { IsDeskTable table.now.shared.table_id }
    requires holds { stage_number seat.old.me.0.stage ≡ 2 }
    requires hand { (x : T) × (item : T.Item) × (seat.old.me.1 ≡ (0, Some x) ∷ []) × (T.history x ≡ seat.old.me.0.seen ++ item ∷ []) }
    ensures own { seat.new.table_id ≡ seat.old.table_id }
    ensures committed { Commits T.history seat.old.me seat.new.me }
{
    table.shared.fetch_add::<Commit>(seat, 2, 1);
}

/// Gives the slot back and serves the next ticket.
pub(crate) fn serve<T: Chronicle>(table: &TurnTable<T>, seat: &mut TurnSeat<T>)
    requires own { seat.old.table_id ≡ table.now.shared.table_id }
    requires sizes { IsDeskTable table.now.shared.table_id }
    requires holds { stage_number seat.old.me.0.stage ≡ 2 }
    requires hand { (x : T) × (seat.old.me.1 ≡ (0, Some x) ∷ []) × (T.history x ≡ seat.old.me.0.seen) × (seat.old.me.0.origin ≡ Some (T.origin x)) }
    ensures own { seat.new.table_id ≡ seat.old.table_id }
    ensures served { Serves seat.old.me seat.new.me }
{
    table.shared.fetch_add::<Serve>(seat, 1, 1);
    table.shared.wake_all(1);
}

/// Splits a seat in two. Half of the units, rounded down, go to the new one.
pub(crate) fn halve<T: Chronicle>(table: &TurnTable<T>, seat: &mut TurnSeat<T>) -> TurnSeat<T>
    requires own { seat.old.table_id ≡ table.now.shared.table_id }
    requires sizes { IsDeskTable table.now.shared.table_id }
    requires idle { stage_number seat.old.me.0.stage ≡ 0 }
    requires units { 2 ≤ seat.old.me.0.units }
    ensures own { (seat.new.table_id ≡ seat.old.table_id) × (result.table_id ≡ seat.old.table_id) }
    ensures first { seat.new.me ≡ (first_half seat.old.me.0, seat.old.me.1) }
    ensures second { result.me ≡ (second_half seat.old.me.0, []) }
{
    table.shared.split_seat::<Halves>(seat)
}

/// Takes another seat in, and looks at the count. The longer of the two lists that were seen is kept.
pub(crate) fn join<T: Chronicle>(table: &TurnTable<T>, seat: &mut TurnSeat<T>, other: TurnSeat<T>)
    requires own { seat.old.table_id ≡ table.now.shared.table_id }
    requires same { other.table_id ≡ table.now.shared.table_id }
    requires sizes { IsDeskTable table.now.shared.table_id }
    requires idle { (stage_number seat.old.me.0.stage ≡ 0) × (stage_number other.me.0.stage ≡ 0) }
    requires units { 1 ≤ seat.old.me.0.units }
    requires hand { length other.me.1 ≡ 0 }
    ensures own { seat.new.table_id ≡ seat.old.table_id }
    ensures joined { Settles (joined_view seat.old.me.0 other.me.0, seat.old.me.1) seat.new.me }
{
    table.shared.join_seat::<Merge>(seat, other);
    table.shared.load::<Settle>(seat, 2);
}
