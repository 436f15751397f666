//! What spreadsheets read of a checked report: a row of comma-separated values for each link, each state or each flow of its plans.
//!
//! ```text
//! put_sheet(&mut text, alloc, &problem, report.outcomes.items(), Sheet::Links)?;   // of the triangle's report
//! // a line of the columns' names, and 1,1,AB,A,B,2 x 10.000,20.000,0.000,12.000,60,AC,10.000 and two more lines
//! ```
#![tactic(auto)]

mod flows;
mod links;
mod names;
mod outcomes;
mod rows;
mod sheet;
mod states;

pub use outcomes::put_sheet;
pub use rows::put_csv;
