//! Whole runs: a run until nothing can fire, and the replay of a trace.
#![tactic(auto)]

mod agenda;
mod readers;
mod replayed;
mod scan;
mod spot;
mod uses;
mod waiting;
mod whole;

pub use replayed::{Replayed, replay};
pub use whole::{Ran, run};
