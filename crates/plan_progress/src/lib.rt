//! What a planning tells while it runs: a line for each round, and one for each tenth of the splits of a branch tree.
//!
//! ```text
//! let gate = TellingGate::new(alloc, net.places(), false, &teller);
//! let answer = plan_for_people(&rt, alloc, b"net.txt", &problem, None, false, &gate)?;
//! // `teller` is told lines such as: round 3: 12 cuts, worth 18.000, 2 states carried
//! ```
#![tactic(auto)]

mod gate;
mod lines;
mod teller;

pub use gate::TellingGate;
pub use lines::{put_round, put_split};
pub use teller::{NoTeller, Teller};
