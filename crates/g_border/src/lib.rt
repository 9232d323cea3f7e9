//! What crosses the border of a structure: the values that its lines give inside, and those that they
//! give outside. Definitions alone.
#![tactic(auto)]

mod place;

pub use place::WireSource;
