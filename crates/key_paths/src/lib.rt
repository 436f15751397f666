//! The greatest flow of a state's demands over all their paths, by a simplex method that keeps rows of links alone.
//!
//! A basis has a key for each demand: one of its paths, or its slack. Each other column is kept as its difference
//! from the key of its demand, so that the rows of demands need not be kept.
#![tactic(auto)]

mod carrier;
mod change_key;
mod entering;
mod exchange;
mod finish;
mod known_carriers;
mod move_rest;
mod numbers;
mod path_offers;
mod pricing;
mod solver;
mod start;
mod turn_at_key;
mod turn_key;
mod turn_rows;
mod turns;

pub use numbers::{bound_of, rows_of, slack_names, slack_of};
pub use solver::{solve_routes, solve_task};
