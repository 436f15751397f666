//! What a plan and a report hold: module counts, routings, certificates of lower bounds, how tight a plan is, and the
//! journal, the pool and the outcomes of a report.
#![tactic(auto)]

pub mod certificate;
pub mod plan;
pub mod quality;
pub mod report;

pub use certificate::{CertLine, Certificate, Spot};
pub use plan::Plan;
pub use quality::{Cause, Fractional, Quality, Share};
pub use report::{Outcome, Report};
