//! Breaks of rules in their order, and lists of them.
#![tactic(auto)]

mod order;

pub use order::listed;
