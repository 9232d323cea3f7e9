//! The types of wires, and what is broken by them.
#![tactic(auto)]

mod feeds;
mod gives;
mod giving;
pub mod infer;
mod reads;
mod steps;
mod typed;
mod walk;

pub use typed::{BranchCases, CaseTypes, InferRefused, NamedType, SourceType, Typed, ViTypes};
