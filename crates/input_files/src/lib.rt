//! The files that a command names: they are read one after another, and the first that isn't read ends the run with its status and a line.
//!
//! ```text
//! let files = PlanFiles { network: "t.txt", model: DEFAULT, failures: DEFAULT };
//! let problem = load_problem(alloc, &files, &mut shelf)?;   // of the triangle's network: no failures, and no setup is charged
//! // Stop::Told with NoFile and the line `no file t.txt` where there is none
//! ```
#![tactic(auto)]

mod inputs;
mod last_file;
mod refusal;
mod stop;
mod words;

pub use inputs::{INPUT_LIMIT, default_states, load_problem};
pub use last_file::{REPORT_LIMIT, load_flows, load_report, load_script};
pub use refusal::UnusedFailures;
pub use stop::Stop;
pub use words::{DEFAULT, PlanFiles};
