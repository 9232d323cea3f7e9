//! Where a node stands when it fires, and what its firing looks at in the state: the values around it, and
//! the frames inside it.
#![tactic(auto)]

mod complete;
mod here;

pub use complete::{is_complete, is_done};
pub use here::Here;
