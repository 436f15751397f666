//! Takes modules off a plan until none can be spared, and says of each module that is left what keeps it.
//!
//! ```text
//! let Trimmed { plan, blocks } = trim(alloc, &net, &states, plan)?;
//! for block in blocks.items() {                       // one for each module of positive count, in link and module order
//!     match &block.why {
//!         Stop::Cut(line) => ..,                      // with one module less the capacities violate this cut
//!         Stop::Wide(evidence) => ..,                 // with one module less a number of a state's routing program is too wide
//!     }
//! }
//! ```
#![tactic(auto)]

mod blocks;
mod dearest;
pub mod law;
mod lowered_counts;
mod spared_modules;
mod trimmed_plan;

pub use able_counts::Stop;
pub use dearest::{Priced, dearest_first};
pub use lowered_counts::{Place, module_count, one_less};
pub use trimmed_plan::{Block, Trimmed, trim};
