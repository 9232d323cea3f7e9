//! What the next firing of a structure in place does: its body's values follow its wires, and what its lines
//! give outside is made of them, at once.
#![tactic(auto)]

mod body;
mod plan;

pub use plan::place_plan;
