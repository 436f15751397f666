use net_core::LinkId;
use plan_view::{LinkRow, LoadRow, StateRow};

/// The capacity of a link, its load without failures, its greatest load, the state of that, the use there in per cent, and its cost.
pub(crate) type LinkWant = (u128, u128, u128, u32, u32, u128);

/// The links that a state fails, what it reroutes, its fullest link, the use of that in per cent, and the state's part of the bound in
/// tenths of a per cent.
pub(crate) type StateWant = (&'static [LinkId], u128, Option<LinkId>, u32, u32);

/// What a link carries in a state, and the use there in per cent.
pub(crate) type LoadWant = (u128, u32);

/// Whether the row at a place is the expected one.
fn is_link_row(at: usize, row: &LinkRow, want: &LinkWant) -> bool {
    row.link.0 as usize == at
        && row.capacity == want.0
        && row.normal == want.1
        && row.worst == want.2
        && row.state.0 == want.3
        && row.used == want.4
        && row.cost == want.5
}

/// Whether the row at a place is the expected one.
fn is_state_row(at: usize, row: &StateRow, want: &StateWant) -> bool {
    row.state.0 as usize == at
        && row.failed.items() == want.0
        && row.rerouted == want.1
        && row.fullest == want.2
        && row.used == want.3
        && row.part == want.4
}

/// Whether the row is that of the link at this place, with the load and the use that are wanted.
fn is_load_row(at: usize, row: &LoadRow, want: &LoadWant) -> bool {
    row.link.0 as usize == at && row.load == want.0 && row.used == want.1
}

/// Whether all rows are the expected ones.
pub(crate) fn are_link_rows(rows: &[LinkRow], wants: &[LinkWant]) -> bool {
    for at in 0..wants.len() {
        match rows.get(at) {
            Some(row) if is_link_row(at, row, &wants[at]) => {}
            _ => return false,
        }
    }
    rows.len() == wants.len()
}

/// Whether all rows are the expected ones.
pub(crate) fn are_state_rows(rows: &[StateRow], wants: &[StateWant]) -> bool {
    for at in 0..wants.len() {
        match rows.get(at) {
            Some(row) if is_state_row(at, row, &wants[at]) => {}
            _ => return false,
        }
    }
    rows.len() == wants.len()
}

/// Whether all rows are the expected ones.
pub(crate) fn are_load_rows(rows: &[LoadRow], wants: &[LoadWant]) -> bool {
    for at in 0..wants.len() {
        match rows.get(at) {
            Some(row) if is_load_row(at, row, &wants[at]) => {}
            _ => return false,
        }
    }
    rows.len() == wants.len()
}
