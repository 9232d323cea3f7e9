//! The state of the firing machine and its changes: what a firing does to its node, to the values on wires, to
//! frames and to kept registers, and operations on shared objects. A change costs no more than it says: nothing
//! is searched but the node and the sources of its own diagram, and values are moved.
#![tactic(auto)]

mod changes;
mod frames;
mod state;

pub use frames::open;
pub use state::FireState;
