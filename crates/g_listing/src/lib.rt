//! Reads a listing: its hierarchy, or the first token that no listing has there.
#![tactic(auto)]

mod diagrams;
mod listing;
mod node_words;
mod vis;

pub use listing::{ListingRefused, read_listing};
