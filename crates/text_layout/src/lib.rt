//! Where a byte of a text is, as people count: its line and its column, and the part of its line around it.
#![tactic(auto)]

mod cell;
mod column;
mod place;
mod row;
mod window;

pub use cell::{put_left, put_right, put_spaces};
pub use column::{Column, Row, widened};
pub use place::{Place, begins_character, byte_at, characters, place_of};
pub use row::{put_row, put_rows};
pub use window::{Window, window_of};
