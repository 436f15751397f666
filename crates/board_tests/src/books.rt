//! Tests of the book of demands.
ghost use Rattle.std.specs.Prelude.{◌<◌, ◌^◌, IfSome};
ghost use Rattle.plan_terms.specs.Terms.{edit_need};

use crate::changes::{Change, added, edit_of};
use demand_book::Book;
use net_core::{Edit, Name, Reply};
use std::alloc::Global;
use worked_networks::{DemandRow, demands, triangle};

/// The demands A from A to C, B from A to B and C from B to C.
const THREE: [DemandRow; 3] = [(0, 2, 12000), (0, 1, 5000), (1, 2, 7000)];

/// A demand of the greatest need.
const MOST: DemandRow = (0, 2, 1099511627775);

/// Sixteen demands of the greatest need, which leave 15 thousandths up to the greatest total, and the same with a demand that takes these.
const GREAT: [DemandRow; 16] = [MOST; 16];

const FULL: [DemandRow; 17] = [
    MOST,
    MOST,
    MOST,
    MOST,
    MOST,
    MOST,
    MOST,
    MOST,
    MOST,
    MOST,
    MOST,
    MOST,
    MOST,
    MOST,
    MOST,
    MOST,
    (0, 1, 15),
];

/// The demands that a book opens with.
#[derive(Clone, Copy)]
enum Opening {
    Three,
    Great,
    Full,
}

/// The demands with which a book opens, as rows.
fn rows_of(opening: Opening) -> &'static [DemandRow] {
    match opening {
        Opening::Three => &THREE,
        Opening::Great => &GREAT,
        Opening::Full => &FULL,
    }
}

/// The demands with which a book opens, an edit, its reply, and what the book is after it: the version, the total in thousandths, and the
/// names in their order. The names are consecutive letters, given by the first one and their number.
type Row = (Opening, Change, Reply, u64, u64, (u8, u8));

/// Set keeps the place of a demand, drop closes the gap, and add goes last. Of several faults the first one in this order is told: a known
/// name, an unknown node, equal ends, a total of 2^44 or more.
const ROWS: [Row; 13] = [
    (
        Opening::Three,
        Change::Set(b'A', 24000),
        Reply::Accepted(1),
        1,
        36000,
        (b'A', 3),
    ),
    (
        Opening::Three,
        Change::Drop(b'A'),
        Reply::Accepted(1),
        1,
        12000,
        (b'B', 2),
    ),
    (
        Opening::Three,
        Change::Set(b'Z', 1),
        Reply::UnknownDemand,
        0,
        24000,
        (b'A', 3),
    ),
    (
        Opening::Three,
        Change::Drop(b'Z'),
        Reply::UnknownDemand,
        0,
        24000,
        (b'A', 3),
    ),
    (
        Opening::Three,
        Change::Add(b'D', b'A', b'B', 5),
        Reply::Accepted(1),
        1,
        24005,
        (b'A', 4),
    ),
    (
        Opening::Three,
        Change::Add(b'A', b'X', b'X', 5),
        Reply::KnownDemand,
        0,
        24000,
        (b'A', 3),
    ),
    (
        Opening::Three,
        Change::Add(b'D', b'X', b'X', 5),
        Reply::UnknownNode,
        0,
        24000,
        (b'A', 3),
    ),
    (
        Opening::Three,
        Change::Add(b'D', b'A', b'X', 1),
        Reply::UnknownNode,
        0,
        24000,
        (b'A', 3),
    ),
    (
        Opening::Three,
        Change::Add(b'D', b'A', b'A', 1),
        Reply::SelfDemand,
        0,
        24000,
        (b'A', 3),
    ),
    (
        Opening::Great,
        Change::Add(b'Q', b'A', b'B', 16),
        Reply::TooMuch(17592186044416),
        0,
        17592186044400,
        (b'A', 16),
    ),
    (
        Opening::Great,
        Change::Add(b'Q', b'A', b'B', 15),
        Reply::Accepted(1),
        1,
        17592186044415,
        (b'A', 17),
    ),
    (
        Opening::Full,
        Change::Set(b'Q', 16),
        Reply::TooMuch(17592186044416),
        0,
        17592186044415,
        (b'A', 17),
    ),
    (
        Opening::Great,
        Change::Add(b'Q', b'A', b'A', 16),
        Reply::SelfDemand,
        0,
        17592186044400,
        (b'A', 16),
    ),
];

/// A book of the triangle with these demands.
fn open_book(alloc: Global, rows: &[DemandRow]) -> Option<Book> {
    let net = triangle(alloc, 0).ok()?;
    let opening = demands(alloc, net.nodes().len(), rows).ok()?;
    Book::new(&net, opening).ok()
}

/// Whether the book's demand at a place has this letter, and is found there by its name.
fn is_at(book: &Book, k: usize, letter: u8) -> bool {
    let Some(demand) = book.demands().items().get(k) else {
        return false;
    };
    let place = book.find(&demand.name).map(|at| at as usize);
    demand.name.bytes() == [letter].as_slice() && place == Some(k)
}

/// Whether the names of the book's demands are consecutive letters, given by the first one and their number, and each demand is found at
/// its place.
fn are_in_order(book: &Book, order: (u8, u8)) -> bool {
    for k in 0..order.1 {
        if !is_at(book, k as usize, order.0.wrapping_add(k)) {
            return false;
        }
    }
    book.demands().len() == order.1 as usize
}

/// The book's reply to an edit, if there is one.
fn reply_of(book: &mut Book, edit: Option<Edit>) -> Option<Reply>
    requires { IfSome edit (λ e. edit_need e < 2 ^ 40) }
{
    match edit {
        Some(edit) => book.apply(&edit).ok(),
        None => None,
    }
}

/// The book's reply to an edit.
fn reply_to(alloc: Global, book: &mut Book, change: &Change) -> Option<Reply> {
    reply_of(book, edit_of(alloc, change))
}

/// Whether the book gives the row's reply to its edit, and is then as the row says.
fn has_reply(alloc: Global, book: &mut Book, row: &Row) -> bool {
    reply_to(alloc, book, &row.1) == Some(row.2)
        && book.version() == row.3
        && book.total() == row.4
        && are_in_order(book, row.5)
}

/// Whether a row's edit has its reply, and leaves the book as the row says.
fn is_replied(alloc: Global, row: &Row) -> bool {
    match open_book(alloc, rows_of(row.0)) {
        Some(mut book) => has_reply(alloc, &mut book, row),
        None => false,
    }
}

/// Whether each row's edit has its reply, and leaves the book as the row says.
fn are_replied(alloc: Global, rows: &[Row]) -> bool {
    for row in rows {
        if !is_replied(alloc, row) {
            return false;
        }
    }
    true
}

#[test]
fn each_edit_has_its_reply(rt: HostRuntime) {
    assert!(rt; are_replied(rt.alloc(), &ROWS));
}

/// The bytes of one of 2,048 names: A0, and so on.
fn bytes_of(k: usize) -> [u8; 2] {
    [b'A' + (k / 64 % 32) as u8, b'0' + (k % 64) as u8]
}

/// One of these names.
fn numbered(alloc: Global, k: usize) -> Option<Name> {
    Name::new(alloc, &bytes_of(k)).ok()
}

/// The reply to a new demand from A to B that needs nearly 2^33 thousandths.
fn reply_to_new(alloc: Global, book: &mut Book, k: usize) -> Option<Reply> {
    let name = bytes_of(k);
    reply_of(book, added(alloc, &name, b'A', b'B', (1 << 33) - 1))
}

/// Whether 2,048 new demands are accepted.
fn accepts_all(alloc: Global, book: &mut Book) -> bool {
    for k in 0..2048 {
        if reply_to_new(alloc, book, k) != Some(Reply::Accepted(k as u64 + 1)) {
            return false;
        }
    }
    true
}

/// A book of 2,048 demands, whose needs add up to 2^44 - 2048 thousandths.
fn full_book(alloc: Global) -> Option<Book> {
    let mut book = open_book(alloc, &[])?;
    if accepts_all(alloc, &mut book) {
        Some(book)
    } else {
        None
    }
}

/// The reply to one more demand.
fn reply_to_more(alloc: Global, book: &mut Book) -> Option<Reply> {
    reply_of(book, added(alloc, b"more", b'A', b'B', 2048))
}

/// The reply to one demand less.
fn reply_to_less(alloc: Global, book: &mut Book, k: usize) -> Option<Reply> {
    match numbered(alloc, k) {
        Some(name) => reply_of(book, Some(Edit::Drop { name })),
        None => None,
    }
}

/// Whether a full book has no place for one more demand, which would also be too much, and has one after it drops A0.
fn has_place_after_drop(alloc: Global, book: &mut Book) -> bool {
    reply_to_more(alloc, book) == Some(Reply::TooMany)
        && reply_to_less(alloc, book, 0) == Some(Reply::Accepted(2049))
        && reply_to_more(alloc, book) == Some(Reply::Accepted(2050))
}

/// Whether a new full book has no place for one more demand, which would also be too much, and has one after it drops A0.
fn has_place_on_new(alloc: Global) -> bool {
    match full_book(alloc) {
        Some(mut book) => has_place_after_drop(alloc, &mut book),
        None => false,
    }
}

#[test]
fn a_full_book_has_no_place_even_where_the_total_is_too_much(rt: HostRuntime) {
    assert!(rt; has_place_on_new(rt.alloc()));
}

/// The reply to a new need of a demand.
fn reply_to_set(alloc: Global, book: &mut Book, k: usize, need: u32) -> Option<Reply> {
    match numbered(alloc, k) {
        Some(name) => {
            let need = need as u64;
            reply_of(book, Some(Edit::Set { name, need }))
        }
        None => None,
    }
}

/// Whether a thousand edits of a full book are accepted, one after another.
fn accepts_a_thousand(alloc: Global, book: &mut Book) -> bool {
    for k in 0..1000 {
        let reply = reply_to_set(alloc, book, 2 * k as usize, k);
        if reply != Some(Reply::Accepted(2049 + k as u64)) {
            return false;
        }
    }
    true
}

/// Whether a thousand edits of a new full book are accepted, one after another.
fn accepts_on_new(alloc: Global) -> bool {
    match full_book(alloc) {
        Some(mut book) => accepts_a_thousand(alloc, &mut book),
        None => false,
    }
}

#[test]
fn a_thousand_edits_of_2048_demands_are_accepted(rt: HostRuntime) {
    assert!(rt; accepts_on_new(rt.alloc()));
}
