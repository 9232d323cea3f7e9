//! The tests of the public calls on listings and hierarchies: one happy path each, with its answer by hand.
#![tactic(auto)]

#[cfg(test)]
mod diagrams;
#[cfg(test)]
mod graphs;
#[cfg(test)]
mod linked;
#[cfg(test)]
mod listings;
#[cfg(test)]
mod literals;
#[cfg(test)]
mod rules;
