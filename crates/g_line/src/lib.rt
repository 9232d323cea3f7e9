//! The command line: what a list of words asks for, or the first word that no line has there.
#![tactic(auto)]

mod forms;
mod reading;

pub use forms::{Line, LineRefused, Setting};
pub use reading::line;
