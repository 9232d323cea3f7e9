//! The values of literals.
#![tactic(auto)]

mod laws;
mod values;

pub use laws::literal_laws;
pub use values::literal_value;
