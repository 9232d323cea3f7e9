//! The values on the wires of a frame, as the code of the firing machine reads them: by the names of
//! wires, through the numbers of their sources.
#![tactic(auto)]

mod names;
mod wires;

pub use names::SourceNames;
pub use wires::Wires;
