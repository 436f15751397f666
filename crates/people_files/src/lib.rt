//! The files of a command for people: the first that isn't read ends the run with its status and a message, which ends in the planner's own
//! line of it.
//!
//! ```text
//! let words = CaseFiles { files: PlanFiles { network: "t.txt", model: DEFAULT, failures: DEFAULT }, survive: true };
//! let problem = load_case(alloc, &words, &mut shelf)?;   // of the triangle's network: three failures, and no setup is charged
//! // Halt::Told with NoFile and two lines, `t.txt: there is no such file` and `no file t.txt`, where there is none
//! ```
#![tactic(auto)]

mod inputs;
mod loaded_files;
mod refusal;
mod stop;
mod words;

pub use inputs::{load_case, load_placed_case};
pub use loaded_files::{fetch_report, load_network};
pub use refusal::{FaultyFile, place_in, refused, told};
pub use stop::{Halt, Told};
pub use words::CaseFiles;
