//! One firing of a node: its plan, by its kind and where it stands, and the state after it.
#![tactic(auto)]

mod able;
mod entering;
mod kinds;
mod nodes;
mod simple;
mod standing;

pub use nodes::{can_fire, fire, fire_node};
