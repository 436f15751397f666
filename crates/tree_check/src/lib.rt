//! Branch trees that show a plan to be cheapest, read by a walk that trusts nothing of whoever made them.
#![tactic(auto)]

pub mod boxes;
pub mod check;
mod empty_box;
mod evidence;
pub mod fixed_counts;
mod gains;
pub mod law;
pub mod nodes;
pub mod proof;
mod stop;
mod sums;
pub mod tests;
mod total;
mod value;
mod walk;
mod weighing;

pub use boxes::{Boxed, Span};
pub use check::check_tree;
pub use line_check::{Inequality, Line, Multiplier, TableKind};
pub use proof::{BoxCert, Node, Proof, TreeAnswer, Verdict};
