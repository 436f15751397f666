//! The rows of a basis that has a key for each demand, of which only those of the links are kept: sums along paths, what the keys
//! leave, values, the row of a key from those of its demand's other columns, and the ratio test.
#![tactic(auto)]

mod entrant;
pub mod key_row;
pub mod keyed;
pub mod keys;
mod order;
pub mod ratio_test;
pub mod rest;
pub mod sums;
mod tie;
pub mod values;
pub mod weights;

pub use key_row::{WideKey, spread_key};
pub use keyed::{Keyed, Room};
pub use keys::{key_of, key_path, next_dual, renew_dual_list, write_product_list};
pub use ratio_test::{WideTest, leaving};
pub use rest::{shift_back_list, shift_list};
pub use sums::{column_product, demand_of, path_of, path_sum, widen};
pub use values::{lower_value_list, renew_value_list, worth};
pub use weights::joined_common;
