//! Tests of the readers of networks, models, failure lists, scripts and flows, and of the networks that are made as samples.
#![tactic(auto)]

#[cfg(test)]
mod files;
#[cfg(test)]
mod flow_files;
#[cfg(test)]
mod model_files;
#[cfg(test)]
mod network_files;
#[cfg(test)]
mod sample_texts;
#[cfg(test)]
mod samples;
#[cfg(test)]
mod script_files;
