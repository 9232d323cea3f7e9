//! The states that runs of accepted programs reach are typed, and their firings have what they need.
//! What an accepted program is stands in specs/Accepted, and what a typed state is in specs/Typed.
#![tactic(auto)]

mod laws;

pub use laws::typed_laws;
