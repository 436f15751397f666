//! Tests of what people see of the bytes of files: views and messages, with their lines and columns, tables, quoted words and near names.
#![tactic(auto)]

#[cfg(test)]
mod failure_lists;
#[cfg(test)]
mod failures;
#[cfg(test)]
mod faults;
#[cfg(test)]
mod files;
#[cfg(test)]
mod forms;
#[cfg(test)]
mod headers;
#[cfg(test)]
mod models;
#[cfg(test)]
mod near_names;
#[cfg(test)]
mod networks;
#[cfg(test)]
mod pictures;
#[cfg(test)]
mod places;
#[cfg(test)]
mod printable;
#[cfg(test)]
mod quotes;
#[cfg(test)]
mod runs;
#[cfg(test)]
mod sizes;
#[cfg(test)]
mod tables;
#[cfg(test)]
mod texts;
#[cfg(test)]
mod views;
#[cfg(test)]
mod windows;
