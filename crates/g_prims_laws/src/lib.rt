//! What each primitive gives is of the types of its row.
#![tactic(auto)]

mod laws;

pub use laws::{coercion_laws, count_laws, equality_laws, refusal_laws, row_laws, sort_laws};
