//! A picture of a checked plan, as SVG without scripts: nodes where they are, links by what they have and carry.
#![tactic(auto)]

mod changes;
mod escape;
mod legend;
mod links;
mod nodes;
mod paths;
mod picture;
mod report;
mod spots;

pub use picture::put_picture;
pub use report::put_report_picture;
