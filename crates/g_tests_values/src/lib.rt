//! The tests of the public calls on types, values, shared objects, text and devices: one happy path
//! each, with its answer by hand.
#![tactic(auto)]

#[cfg(test)]
mod devices;
#[cfg(test)]
mod objects;
#[cfg(test)]
mod text;
#[cfg(test)]
mod types;
#[cfg(test)]
mod values;
