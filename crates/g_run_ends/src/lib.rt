//! How a run ended, and the text of its state.
#![tactic(auto)]

mod choices;
mod end;
mod print;
mod scan;
mod verdict;
mod waits;

pub use end::end_of;
pub use print::print_state;
