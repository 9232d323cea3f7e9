//! Directed graphs: what a node leads to, and which nodes lead to themselves. A graph is a list of
//! rows; the row of a node has the nodes to which its edges lead.
#![tactic(auto)]

pub mod cycles;
pub mod edges;
mod find;
mod hint;
pub mod reach;
