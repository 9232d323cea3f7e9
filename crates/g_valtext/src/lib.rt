//! The text of values, both ways.
#![tactic(auto)]

mod numbers;
mod plain;
mod print;
mod read;
mod take;
mod text;

pub use print::print_value;
pub use text::{ValueRefused, read_value};
