//! The rules on the types of wires: where each is broken, by types that are given.
#![tactic(auto)]

pub mod assigned;
mod gaps;
pub mod kinds;
mod literals;
pub mod panels;
pub mod passes;
pub mod places;
pub mod rows;
mod selected;
pub mod types;
