//! The selectors of a case: whether a `when` line names what stands in the case before.
#![tactic(auto)]

mod intervals;
mod taken;

pub use taken::{Taken, nothing_taken, take};
