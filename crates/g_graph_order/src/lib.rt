//! Orders of a directed graph's nodes in which each edge leads from an earlier to a later node.
#![tactic(auto)]

mod removal;

pub use removal::order;
