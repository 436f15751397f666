//! Tests of planning: separators over a board and at a desk, plans, sessions, and plannings that end loose.
#![tactic(auto)]

#[cfg(test)]
mod checked;
#[cfg(test)]
mod gates;
#[cfg(test)]
mod loose;
#[cfg(test)]
mod plans;
#[cfg(test)]
mod problems;
#[cfg(test)]
mod sessions;
#[cfg(test)]
mod state_answers;
#[cfg(test)]
mod workers;
