//! The rules on the lines of a VI: how many inputs and outputs operations have, names of VIs, panels and
//! queues, the values of a case, the results of its branches, bodies in place, and counts of loops.
#![tactic(auto)]

mod arity;
pub mod callees;
mod case_results;
mod case_values;
mod diagrams;
mod in_place_bodies;
mod lines;
mod loop_counts;
mod names;
mod panel_objects;
mod place;
pub mod queues;
mod repeated_names;
mod unknown_vis;

pub use lines::push_lined;
pub use place::next;
pub use repeated_names::push_vi_repeats;
pub use unknown_vis::push_absent;
