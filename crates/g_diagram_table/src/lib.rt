//! The nodes of a VI as one list, each with its line and the line of its diagram, with what stands on
//! its lines borrowed from the hierarchy. Layers that go over the nodes of a VI go over this list.
#![tactic(auto)]

mod count;
mod entry;
pub mod table;

pub use entry::{Arm, Entry, Kind, Part};
