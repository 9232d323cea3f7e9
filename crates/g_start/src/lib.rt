//! The state in which a run begins: frame 0 is open with the controls set, no queue and no value that references
//! name is live, and panels and kept registers have their defaults.
#![tactic(auto)]

mod begin;
mod cells;
mod count;
mod frame;
mod kept;
mod objects;
mod panels;
mod pools;
mod queues;
mod sources;

pub use begin::start;
