//! Names and evidence for comments below a report, in the report's own words, and that such comments don't change the report.
#![tactic(auto)]

pub mod comment_law;
mod evidence;
pub mod law;
mod names;
pub mod puts;

pub use evidence::put_evidence;
pub use names::{put_demand, put_link, put_link_name};
