//! The modules that cover a share, the routings within them, and the choice between them and the fallback plan.
//!
//! ```text
//! let installed = cover_share(alloc, &net, &share)?;                  // the cheapest modules for each link's need in the share
//! match route_installed(alloc, &instance, &installed.counts)? {
//!     InstalledRoutes::Routed(routings) => ..,                        // one for each state
//!     InstalledRoutes::Wide(evidence) => ..,                          // a number of a state is too wide
//!     InstalledRoutes::Short(state) => ..,                            // no routing carries the demands there
//! }
//! ```
#![tactic(auto)]

mod choice;
mod covers;
pub mod law;
mod needs;
mod routes;
mod shared_routes;

pub use choice::{Chosen, choose};
pub use covers::{Installed, cover_share};
pub use needs::share_needs;
pub use routes::{InstalledRoutes, route_installed};
