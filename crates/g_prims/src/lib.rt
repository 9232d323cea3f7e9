//! The primitives: the types that each gives for the types of its inputs, and the values.
#![tactic(auto)]

mod array_rows;
mod cluster_rows;
pub mod kinds;
mod number_rows;
mod outs;
mod refusal;
mod rows;
mod string_rows;
mod values;

pub use refusal::RowRefused;
pub use rows::type_row;
pub use values::apply;
