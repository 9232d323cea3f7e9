//! Firings of typed states, and the start of a run, have what the code of a firing needs.
#![tactic(auto)]

mod laws;

pub use laws::needs_laws;
