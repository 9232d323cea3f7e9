//! The values of the body of a structure in place. A body is a flat list of steps, and in each turn the first
//! step is taken whose wires all have values.
#![tactic(auto)]

mod known;
mod reads;
mod steps;
mod turns;
mod work;

pub use turns::body_values;
