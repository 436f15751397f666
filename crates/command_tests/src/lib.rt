//! Tests of the commands for programs, over files in memory.
#![tactic(auto)]

#[cfg(test)]
mod checks;
#[cfg(test)]
mod damages;
#[cfg(test)]
mod faults;
#[cfg(test)]
mod files;
#[cfg(test)]
mod imports;
#[cfg(test)]
mod long_files;
#[cfg(test)]
mod measured;
#[cfg(test)]
mod plans;
#[cfg(test)]
mod proofs;
#[cfg(test)]
mod runs;
#[cfg(test)]
mod samples;
#[cfg(test)]
mod sessions;
#[cfg(test)]
mod trims;
