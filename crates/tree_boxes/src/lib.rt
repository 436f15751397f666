//! What a search for a branch tree finds at a box of module counts: that it is empty or closed, cheaper counts, or that it stays open, with
//! its best certificate of the cuts and lines that the search knows.
//!
//! ```text
//! make_first_lines(alloc, &aim, &mut search, &whole, &mut root)?;
//! match look(alloc, &aim, &mut search, whole, &root, 0)? {
//!     Found::Twig(twig) => ..,              // a leaf, or a box that may be split
//!     Found::Cheaper(counts) => ..,         // they carry the demands for less than aim.plan costs
//! }
//! ```
#![tactic(auto)]

mod aim;
mod asks;
mod certs;
mod evaluation;
mod found;
mod known;
mod large;
mod lines;
mod lowered_counts;
mod search;
mod twigs;
mod whole;

pub use aim::Aim;
pub use certs::{Valued, copied, empty_cert};
pub use evaluation::look;
pub use found::{Cheaper, Found};
pub use known::{Known, first_items, index_of};
pub use lines::make_first_lines;
pub use search::{MOST_FURTHER, MOST_SET_CUTS, Search};
pub use twigs::{OpenBox, Twig};
