//! Least lengths over all paths of surviving links, and the least of the shortest paths.
#![tactic(auto)]

mod cheapest_paths;
mod dijkstra;
mod distance_table;
mod forward_star;
mod least_paths;
mod pairs;
mod path_finder;
mod priced_paths;
mod single_source;
mod tight_links;
mod walk;

pub use cheapest_paths::CheapestPaths;
pub use distance_table::DistanceTable;
pub use least_paths::{LeastPaths, least_path};
pub use pairs::{all_pairs, all_pairs_in};
pub use path_finder::PathFinder;
pub use priced_paths::{PricedPath, priced_path, priced_path_in, total_of};
pub use single_source::{distances, distances_in};
pub use tight_links::PathFault;
pub use walk::{are_links, is_path};
