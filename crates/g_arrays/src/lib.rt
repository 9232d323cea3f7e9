//! Operations in the buffer of an input that they take: arithmetic by lanes, the others by the shared
//! steps.
#![tactic(auto)]

mod act;
mod bits;
mod elements;
mod lanes;
mod numbers;
mod words;

pub use act::act_on;
