//! All rules of a hierarchy together.
#![tactic(auto)]

pub mod check;
