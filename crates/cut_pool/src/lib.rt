//! The board: one history of demand edits and pooled cuts, and what it leaves.
#![tactic(auto)]

mod answers;
mod audit;
mod board;
mod entries;
mod follow;
mod history;
mod pooled_cut;
mod shares;
mod snapshot;

pub use answers::{AdmitAnswer, EditAnswer};
pub use board::Board;
pub use net_core::CutLine;
pub use snapshot::Snapshot;
