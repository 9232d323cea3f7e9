//! One VI as the firing machine looks things up in it: its nodes and sources by diagram, line and name, and
//! the types of its wires. Nothing is searched through.
#![tactic(auto)]

pub mod build;
mod names;
mod nodes;
pub mod numbers;
mod panel;
mod places;
mod sources;
mod table;
mod types;

pub use numbers::NameNumbers;
pub use table::ViTable;
pub use types::{Scope, WireTypes};
