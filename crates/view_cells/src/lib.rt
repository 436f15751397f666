//! Cells of the tables that people read: numbers as they are printed there, modules, and tables of cells.
#![tactic(auto)]

pub mod cells;
pub mod modules;
pub mod names;
pub mod tables;
