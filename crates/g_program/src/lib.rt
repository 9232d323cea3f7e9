//! A program as the firing machine looks things up in it: its VIs, data spaces, shared objects and kept
//! registers, by name and number. Nothing is searched through.
#![tactic(auto)]

pub mod build;
mod cells;
mod count;
mod kept;
mod numbers;
mod pools;
mod queues;
mod table;

pub use table::ProgramTables;
