//! The table under a desk: what each pass knows, and what each step at the table tells the pass.
//! Word 0 is the next ticket, word 1 the ticket that is served, and word 2 the number of items, each modulo 2^64.
//! Slot 0 has the value while no turn is out, and None in a turn.
use crate::chronicle::Chronicle;
use atomic_table::{Join, Play, Seat, Split, Table, TableRule};
use std::alloc::Global;
use std::collections::LinkedList;
use std::marker::PhantomData;
use std::snapshot::Snapshot;

/// How far a pass is in its turn. A ticket is a number without limit here.
pub enum Stage<I> {
    /// It has no ticket.
    Idle,
    /// It has drawn this ticket.
    Waiting(u64),
    /// This ticket is served, and the value is in its hand.
    Holding(u64),
    /// It took in a pass that had seen this list, and hasn't looked at the count since.
    Joined(LinkedList<I>),
}

/// What a pass knows. No value of it is made.
pub struct View<I, O> {
    pub stage: Stage<I>,
    /// The history that it has seen.
    pub seen: LinkedList<I>,
    /// The places of its own items, in order.
    pub places: LinkedList<u64>,
    /// Its share of the 2^32 units of the desk.
    pub units: u64,
    /// The origin of the desk's values; None after another pass took it in.
    pub origin: Option<O>,
}

/// The rule of the table under a desk.
pub struct TurnRule<T> {
    of: PhantomData<T>,
}

impl<T: Chronicle> TableRule<Option<T>, View<T::Item, T::Origin>, Snapshot<T>> for TurnRule<T> {
    ghost use Rattle.turn_lock.specs.inner.Rule.{Kept, first_view};

    ghost holds = { λ opening. Kept T.history T.origin (T.origin opening.value) };

    ghost first = { λ opening. first_view (T.origin opening.value) };
}

pub(crate) type TurnTable<T> = Table<
    Option<T>,
    View<<T as Chronicle>::Item, <T as Chronicle>::Origin>,
    Snapshot<T>,
    TurnRule<T>,
    Global,
>;

pub(crate) type TurnSeat<T> = Seat<
    Option<T>,
    View<<T as Chronicle>::Item, <T as Chronicle>::Origin>,
>;

/// A ticket is drawn.
pub struct Draw;

impl<T: Chronicle> Play<Option<T>, View<T::Item, T::Origin>> for Draw {
    ghost use Rattle.turn_lock.specs.inner.Plays.{Draws};

    ghost then = { λ s. Draws };
}

/// A look at the ticket that is served.
pub struct Look;

impl<T: Chronicle> Play<Option<T>, View<T::Item, T::Origin>> for Look {
    ghost use Rattle.turn_lock.specs.inner.Plays.{Looks};

    ghost then = { λ s. Looks T.history T.origin };
}

/// An item is committed.
pub struct Commit;

impl<T: Chronicle> Play<Option<T>, View<T::Item, T::Origin>> for Commit {
    ghost use Rattle.turn_lock.specs.inner.Plays.{Commits};

    ghost then = { λ s m found. Commits T.history m };
}

/// The next ticket is served.
pub struct Serve;

impl<T: Chronicle> Play<Option<T>, View<T::Item, T::Origin>> for Serve {
    ghost use Rattle.turn_lock.specs.inner.Plays.{Serves};

    ghost then = { λ s m found. Serves m };
}

/// A pass is split.
pub struct Halves;

impl<I, O> Split<View<I, O>> for Halves {
    ghost use Rattle.turn_lock.specs.inner.Plays.{first_half, second_half};

    ghost left = { first_half };

    ghost right = { second_half };
}

/// A pass takes in another.
pub struct Merge;

impl<I, O> Join<View<I, O>> for Merge {
    ghost use Rattle.turn_lock.specs.inner.Plays.{joined_view, spent_view};

    ghost both = { joined_view };

    ghost spent = { spent_view };
}

/// The look at the count after a join.
pub struct Settle;

impl<T: Chronicle> Play<Option<T>, View<T::Item, T::Origin>> for Settle {
    ghost use Rattle.turn_lock.specs.inner.Plays.{Settles};

    ghost then = { λ s m found. Settles m };
}
