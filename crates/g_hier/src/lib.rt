//! Linking: whether a VI calls itself, how many nodes there are after cloning, and which data spaces there
//! are, in which order and of which execution system.
#![tactic(auto)]

mod counts;
mod graph;
mod linked;
mod linking;
mod outlines;
mod recursions;
mod spaces;

pub use linked::{CallLine, Caller, Linked, Outline, Placed, Space};
pub use linking::{LinkRefused, can_link, link};
