//! What is broken in a hierarchy: the rules on the names of wires and on cycles, and the list of all breaks.
#![tactic(auto)]

mod check;
mod coded;
mod cycles;
mod edges;
mod marks;
mod missing_sources;
mod named;
mod second_sources;
mod unused_sources;
mod unwired;

pub use check::{BreakList, wiring};
