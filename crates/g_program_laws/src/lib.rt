//! A hierarchy in which no rule on names and lines is broken is one program to the firing machine: a law.
#![tactic(auto)]

mod laws;

pub use laws::program_laws;
