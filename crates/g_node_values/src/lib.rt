//! The values that nodes take and give at their operands, and what panels are set to.
#![tactic(auto)]

mod given;
mod inputs;
mod outputs;
mod panel;
mod places;

pub use given::paired;
pub use inputs::has_inputs;
pub use outputs::outputs_given;
pub use panel::{arguments, control_defaults, controls_given, default_of, indicator_defaults};
