//! Tests of networks and their parts, of the small networks for tests, of the words and numbers of texts, and of files and output.
#![tactic(auto)]

#[cfg(test)]
mod networks;
#[cfg(test)]
mod shelves;
#[cfg(test)]
mod sinks;
#[cfg(test)]
mod small_networks;
#[cfg(test)]
mod texts;
#[cfg(test)]
mod words;
