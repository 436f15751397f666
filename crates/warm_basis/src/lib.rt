//! A basis of paths that is kept from one question to the next: what its columns carry at some capacities, what they are short of, and its turns.
//!
//! All that it says is a hint. Nothing is claimed of it, and what it leads to is counted anew and tested where it is used.
//!
//! ```text
//! basis.set_values(alloc, bounds, needs)?;
//! let shares = shares_of(alloc, basis.rows.items_mut(), needs, places)?;    // what the keys carry
//! if is_short(basis.rows.items(), shares) {
//!     set_weights(alloc, basis, shares, alone)?;                            // what counts in what is short
//!     let shortage = shortage_of(alloc, basis.rows.items(), links)?;        // how that depends on the capacities
//!     enter(alloc, basis, shares, needs, entrant, shortage.den, alone)?;    // a column that makes it less
//! }
//! ```
#![tactic(auto)]

mod basis;
mod basis_turn;
mod column;
mod entrant;
mod leaving_role;
mod numbers;
mod one_row;
mod routing;
mod row;
mod share;
mod shortage;
mod whole_numbers;

pub use basis::Basis;
pub use column::{Column, along, beyond_key};
pub use entrant::{Entrant, enter};
pub use one_row::{Aim, aimed, clear, set_weights};
pub use routing::routing_of;
pub use row::BasisRow;
pub use share::{Share, is_counted, need_of, no_places, shares_of};
pub use shortage::{Shortage, is_short, short_in_all, shortage_of};
pub use whole_numbers::{bits_of, divide, mix, worth};
