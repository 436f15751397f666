//! The best certificate of cuts from round to round: the master program over lengths alone, begun with the basis of the round before.
//!
//! ```text
//! let mut kept = KeptMaster::new();
//! let best = kept.best(alloc, &net, &cuts)?;    // what `master` may answer; the next call begins where this one ended
//! ```
//!
//! A row of the program is divided by its unit pair's capacity, so that a cut's entries are its lengths. Turns are guesses in numbers
//! that may be wrong; the basis that they end with is tested, and where it fails the test, `master` answers.
#![tactic(auto)]

mod amounts;
mod basis;
mod entrant;
mod guess;
pub mod kept_master;
mod leaving_row;
mod line;
mod priced_lengths;
mod row;
mod slot;
mod tested_basis;
mod wide_share;

pub use kept_master::KeptMaster;
