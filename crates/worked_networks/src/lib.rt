//! Small networks with their failure states and demands, for the tests of other crates.
//!
//! ```text
//! let net = network(alloc, 3, &[(0, 1, 0, &TEN), (1, 2, 0, &TEN), (0, 2, 0, &TEN)])?;   // nodes A, B and C, links a, b and c
//! let p = problem(alloc, net, &[(0, 2, 12000)])?;                                      // each link fails alone; A to C needs 12.00
//! let found = first_separated(alloc, p.instance())?;
//! ```
#![tactic(auto)]

mod belonging;
mod chain;
mod demand_rows;
mod fault;
mod link_rows;
mod names;
mod shapes;
mod shelves;
mod state_rows;

pub use chain::{CHAIN_DEMANDS, STAGES, chain_links, numbered, numbered_nodes};
pub use demand_rows::{DemandRow, demands};
pub use fault::WorkedFault;
pub use link_rows::{CHAIN, LinkRow, ONE, PARALLEL, RING, TEN, network};
pub use shapes::{problem, triangle};
pub use shelves::{File, put_files, shelf_with, sink_of, words_of};
pub use state_rows::{failing, single_failures};
