//! Tests of exact fractions, of the simplex over packing programs, of rows of bases as cuts, and of the greatest flows over paths.
#![tactic(auto)]

#[cfg(test)]
mod flows;
#[cfg(test)]
mod numbers;
#[cfg(test)]
mod optima;
#[cfg(test)]
mod packing;
#[cfg(test)]
mod priced_rows;
#[cfg(test)]
mod rows;
#[cfg(test)]
mod wide_flows;
