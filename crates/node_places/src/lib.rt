//! Where the nodes of a network are, as its file says: the coordinates that the planner skips, read once more by themselves.
//!
//! ```text
//! let places = node_places(alloc, b"?SNDlib native format; type: network; version: 1.0\nNODES ( A ( -0.5 51.25 ) B )")?;
//! // Some(Place { x: -500, y: 51250 }) and None
//! ```
#![tactic(auto)]

mod decimal;
mod places;

pub use decimal::thousandths;
pub use places::{Place, node_places};
