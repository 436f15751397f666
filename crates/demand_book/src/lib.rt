//! The book of demands: edits one after another, each with its reply.
#![tactic(auto)]

pub mod book;
mod find;

pub use book::Book;
