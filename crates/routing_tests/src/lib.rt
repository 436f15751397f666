//! Tests of cuts round sets of nodes, routings in one state, mended and imported routings, best certificates, and plans that cover shares.
#![tactic(auto)]

#[cfg(test)]
mod certificates;
#[cfg(test)]
mod fixtures;
#[cfg(test)]
mod imports;
#[cfg(test)]
mod mendings;
#[cfg(test)]
mod routings;
#[cfg(test)]
mod sets;
#[cfg(test)]
mod shares;
