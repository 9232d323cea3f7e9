//! The clones of a VI.
#![tactic(auto)]

mod pool;

pub use pool::Pool;
