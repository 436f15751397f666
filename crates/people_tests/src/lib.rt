//! Tests of the commands for people, over files in memory, and of what is told while a plan is made.
#![tactic(auto)]

#[cfg(test)]
mod columns;
#[cfg(test)]
mod files;
#[cfg(test)]
mod lists;
#[cfg(test)]
mod plans;
#[cfg(test)]
mod progress;
#[cfg(test)]
mod runs;
