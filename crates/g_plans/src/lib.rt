//! Plans are done in a state: an operation on a shared object first, if there is one, then the effect that
//! follows it. What can't be done leaves the state as it is.
#![tactic(auto)]

mod effects;
mod plans;

pub use plans::{carry_out, enter_any};
