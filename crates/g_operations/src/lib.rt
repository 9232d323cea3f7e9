//! The operations of the language, one row for each: its word, the first version of listings that has
//! it, how many inputs and outputs it has, and which inputs it takes. All that reads, prints, counts or
//! runs operations looks here.
#![tactic(auto)]

mod primitives;
mod row;
mod shared;

pub use primitives::primitive_row;
pub use row::{Count, Row, Taken};
pub use shared::{SharedOp, shared_row};
