//! The panels of data spaces.
#![tactic(auto)]

mod panel;

pub use panel::Panel;
