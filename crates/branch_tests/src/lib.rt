//! Tests of plans from which modules are taken off or exchanged for cheaper ones, and of the search for branch trees.
#![tactic(auto)]

#[cfg(test)]
mod blocked;
#[cfg(test)]
mod lines;
#[cfg(test)]
mod planned;
#[cfg(test)]
mod searches;
#[cfg(test)]
mod swaps;
#[cfg(test)]
mod trims;
#[cfg(test)]
mod wide;
