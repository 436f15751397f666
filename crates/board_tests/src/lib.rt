//! Tests of the board of demands and cuts: the book, the turns at a desk, the pool, the callers, and the hints of their workers.
#![tactic(auto)]

#[cfg(test)]
mod books;
#[cfg(test)]
mod callers;
#[cfg(test)]
mod changes;
#[cfg(test)]
mod cuts;
#[cfg(test)]
#[cfg(test)]
mod hints;
#[cfg(test)]
mod pools;
#[cfg(test)]
mod turns;
