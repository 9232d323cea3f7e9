//! The operands of a VI's lines as one list of ports, each with its place, its diagram and its name,
//! borrowed from the hierarchy.
#![tactic(auto)]

mod border;
mod branches;
mod callee;
mod operand;
mod port;
pub mod ports;
mod push;
mod tunnels;

pub use callee::{Callees, callees};
pub use operand::{Operand, Side};
pub use port::Port;
