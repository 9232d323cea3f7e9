//! The firing machine: a hierarchy as the machine sees it, the state of a run, what one firing needs
//! and does, and whole runs. Types and definitions; the calls over them stand in the crates above.
#![tactic(auto)]

mod firing;
mod laws;
mod program;
mod state;

pub use firing::{Firing, FrameNode, Trace};
pub use laws::run_laws;
pub use program::{CellPlace, KeptPlace, QueueName};
pub use state::{DiagramSources, End, Frame, Progress, Stage};
