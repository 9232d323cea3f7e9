//! What loops, cases and sequences do next: a frame opens inside, or the outputs are given once the frames
//! inside are complete.
#![tactic(auto)]

mod cases;
mod kept;
mod line;
mod loops;
mod sequences;

pub use cases::case_plan;
pub use loops::loop_plan;
pub use sequences::sequence_plan;
