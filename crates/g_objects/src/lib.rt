//! Shared objects of any kind, by number: panels, queues, values that references name, and pools of clones; and the
//! operations on them.
#![tactic(auto)]

mod object;
mod operation;

pub use object::Object;
pub use operation::Operation;
