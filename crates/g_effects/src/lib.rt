//! What firings do: steps of nodes, effects, and plans of effects and of operations on shared objects. The
//! definitions of plans stand kind by kind beside those of effects, with what firings need.
#![tactic(auto)]

mod advance;
mod effect;
mod laws;
mod plan;

pub use advance::{Advance, take_step};
pub use effect::{Effect, Given, Opening, gives, opens};
pub use laws::plan_laws;
pub use plan::{Placement, Plan, Request, Then, Turn};
