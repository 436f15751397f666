//! The words of the program for people: names in their order, options in any place between them, and which command they are.
//!
//! ```text
//! let command = command_of(alloc, &words)?;   // the words are view t.txt --survive links r.txt
//! // PeopleWords::View of t.txt and r.txt, where each single link's failure is survived; None for words that are no command
//! ```
#![tactic(auto)]

mod command;
mod given;
mod kinds;
mod options;
mod words;

pub use command::command_of;
pub use words::{FormWords, HelpTopic, PeopleWords, PlanRequest, ViewWords};
