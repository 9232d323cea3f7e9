//! What nodes ask of shared objects: cells of panels, queues, what references name, and the panels and clones
//! of called VIs.
#![tactic(auto)]

mod calls;
mod cells;
mod request;
mod shared;

pub use calls::call_plan;
pub use cells::{obtains, reads, shows, writes};
pub use shared::shared_plan;
