//! Queues: values of one type, first in, first out.
#![tactic(auto)]

mod items;
mod queue;

pub use queue::Queue;
