//! The outside: where files come from, where output goes, and where a test may hold callers and a program
//! may show how far they are.
//!
//! `MemShelf` and `MemSink` tell what they hold, so that clauses can speak of it. `FileShelf` and
//! `StreamSink` are the two trusted edges to the machine: what a real file holds, and that a real
//! stream took the bytes, is outside what is proved.
#![tactic(auto)]

mod answer;
pub mod figures;
pub mod files;
pub mod gate;
pub mod memory;
pub mod shelf;
pub mod sink;
mod status;
pub mod stream;

pub use answer::Answer;
pub use figures::{RoundFigures, TreeFigures};
pub use files::FileShelf;
pub use gate::{Gate, OpenGate};
pub use memory::{MemFile, MemShelf, MemSink, have_different_names};
pub use shelf::{Fetch, ReadFault, Shelf};
pub use sink::{Failed, Sink};
pub use status::Status;
pub use stream::StreamSink;
