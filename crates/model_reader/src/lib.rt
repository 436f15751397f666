//! Reads planning models and failure lists.
#![tactic(auto)]

mod failure_file;
mod failure_list;
mod failure_singles;
pub mod failures;
pub mod model;
mod model_file;

pub use failure_file::read_failures;
pub use failure_singles::{only_none, single_failure, single_links};
pub use failures::{FailureList, FailuresKind, FailuresRefusal};
pub use model::{Model, ModelKey, ModelKind, ModelRefusal};
pub use model_file::{key_word, read_model};
