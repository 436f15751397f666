//! Reads networks in SNDlib's native format.
#![tactic(auto)]

mod costs;
mod demand;
pub mod fault;
mod link;
mod names;
mod node;
mod paths;
mod reader;
mod skip;
mod words;

pub use fault::{Limited, ReadKind, ReadRefusal};
pub use reader::read_network;
