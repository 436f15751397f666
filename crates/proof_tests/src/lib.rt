//! Tests of lines over cuts, which all able counts meet, of the reading and the check of branch trees, and of the programs of boxes.
#![tactic(auto)]

#[cfg(test)]
mod able;
#[cfg(test)]
mod damages;
#[cfg(test)]
mod ends;
#[cfg(test)]
mod faults;
#[cfg(test)]
mod limits;
#[cfg(test)]
mod made;
#[cfg(test)]
mod numbers;
#[cfg(test)]
mod programs;
#[cfg(test)]
mod rows;
#[cfg(test)]
mod tables;
#[cfg(test)]
mod texts;
#[cfg(test)]
mod tree_answers;
#[cfg(test)]
mod tree_rows;
#[cfg(test)]
mod trees;
