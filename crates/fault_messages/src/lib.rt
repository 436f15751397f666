//! What is wrong with a file or a report, in sentences: one for each kind of fault, and what is known besides.
#![tactic(auto)]

mod failures_kinds;
mod finding_kinds;
mod foreign;
mod header;
mod law;
mod model_kinds;
mod names;
mod near;
mod network_kinds;
mod notes;
mod report_kinds;

pub use failures_kinds::failures_sentence;
pub use finding_kinds::finding_sentence;
pub use header::{Beginning, FileFormat, header_guess, put_header_note};
pub use law::limits_are_the_readers;
pub use model_kinds::model_sentence;
pub use near::{nearest_name, put_near_note, put_nearest_note, put_word_note};
pub use network_kinds::network_sentence;
pub use notes::{failures_notes, model_notes, network_notes, report_notes};
pub use report_kinds::{proof_sentence, report_sentence};
