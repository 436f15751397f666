//! Sample networks of 4 to 40 nodes, drawn from a seed, on which planning methods can be tried and compared, and the text of a network
//! as a file.
#![tactic(auto)]

mod demands;
mod draws;
mod ends;
mod generator;
mod links;
mod names;
mod texts;

pub use generator::sample;
pub use texts::{has_writable_notes, network_text};
