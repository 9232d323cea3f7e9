//! Owners of values that contracts see as plain data: a growable list and a box.
#![tactic(auto)]

mod boxed;
mod list;

pub use boxed::Boxed;
pub use list::List;
