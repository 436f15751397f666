//! Reads the comment lines of a branch tree below a report.
//!
//! Such a line is a `#` and words, and it ends with the line. A reading of a line takes the words one after another; where a word is due and
//! there is a parenthesis, or the other way round, the fault is `token`, and where the line ends, it is `ended`.
#![tactic(auto)]

mod cuts;
mod ends;
pub mod law;
mod lines;
mod nodes;
mod numbers;
mod reader;
mod run;
mod sofar;
pub mod tree;
mod tree_words;

pub use ends::report_end;
pub use reader::read_tree;
pub use tree::ReadTree;
pub use tree_words::has_tree_line;
