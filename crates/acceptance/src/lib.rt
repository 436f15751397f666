//! What the checker accepts: a plan whose parts are sound has no finding.
#![tactic(auto)]

pub mod law;
