//! Values that references name.
#![tactic(auto)]

mod cell;

pub use cell::Cell;
