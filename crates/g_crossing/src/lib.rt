//! What crosses the border of structures: what their lines give inside a frame that opens, and outside once
//! frames are complete. Values are read by the names of wires, through the look-ups of a VI.
#![tactic(auto)]

mod cases;
mod gather;
mod inside;
mod loops;
mod outside;
mod places;
mod values;

pub use cases::{arm_at, chosen, results_outside};
pub use inside::{Entering, Given, iteration_inside, lines_inside};
pub use loops::has_ended;
pub use outside::{Leaving, kept_values, lines_outside, other_values, parts_outside};
pub use places::{Reference, other_places, reference_in};
