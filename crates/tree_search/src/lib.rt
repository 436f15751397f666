//! Searches for a branch tree that shows a plan to be cheapest, or how far from cheapest it may be.
//!
//! ```text
//! let proof = prove(alloc, &net, &states, plan, cuts, 9999, &gate)?;
//! match proof.verdict {
//!     Verdict::Cheapest => ..,              // no counts that carry the demands cost less than proof.plan
//!     Verdict::Above(least) => ..,          // none cost less than this
//! }
//! ```
#![tactic(auto)]

mod choice;
mod growth;
pub mod law;
mod own_cert;
mod proof_search;
mod tree;

pub use proof_search::{prove, prove_instance};
pub use tree_boxes::index_of;
pub use tree_check::{BoxCert, Node, Proof, Verdict};
