//! Reads scripts: what callers ask of a session, command by command.
#![tactic(auto)]

mod command;
pub mod fault;
mod reader;
pub mod script;
mod words;

pub use fault::{ScriptKind, ScriptRefusal};
pub use reader::read_script;
pub use script::{Act, Command, Script};
