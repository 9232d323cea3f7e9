//! The look-ups of a whole program from a hierarchy, the types of its wires and its links.
#![tactic(auto)]

mod branches;
pub mod build;
mod cases;
mod scopes;
mod sources;
mod types;
