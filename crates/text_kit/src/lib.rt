//! Reading and writing of texts in the style of SNDlib's native format, put together from steps
//! that all formats share.
#![tactic(auto)]

pub mod fault_word;
pub mod law;
pub mod names;
pub mod puts;
pub mod refusal;
pub mod steps;
pub mod write;

pub use fault_word::FaultWord;
pub use refusal::Refusal;
