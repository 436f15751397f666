//! Tests of paths, failure states, greedy routings, splits of flows, prices, cuts and modules, by tables that were worked out by hand.
#![tactic(auto)]

#[cfg(test)]
mod all_separations;
#[cfg(test)]
mod cuts;
#[cfg(test)]
mod fixtures;
#[cfg(test)]
mod greedy;
#[cfg(test)]
mod modules;
#[cfg(test)]
mod paths;
#[cfg(test)]
mod prices;
#[cfg(test)]
mod separations;
#[cfg(test)]
mod splits;
