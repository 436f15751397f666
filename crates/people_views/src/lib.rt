//! What people are told of the bytes of a report: its view once it is checked, or a message of what is wrong with it.
//!
//! ```text
//! // of a report that was made for the problem
//! let text = view_report(alloc, "data/triangle.txt", "report.txt", &problem, bytes, ViewForm::Tables)?;
//! // the tables of its plan; Halt::Told with Rejected where it has a finding, and with BadReport where the bytes spell no report
//! ```
#![tactic(auto)]

mod accepted_form;
pub mod form;
mod plan_proof;
mod report_check;
mod spelled_report;
mod states;
mod trees;
mod views;

pub use accepted_form::put_accepted;
pub use form::{ViewForm, put_form};
pub use states::{picture_form, state_form};
pub use views::view_report;
