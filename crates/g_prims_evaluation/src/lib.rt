//! The values of the primitives by a plain program, which copies what an operation takes.
#![tactic(auto)]

mod bits;
mod comparisons;
mod numbers;
mod operands;
mod outputs;
mod reads;
mod shifts;
mod texts;
mod values;

pub use bits::{bitwise, inverted};
pub use comparisons::{all_true, any_true, equal, less, same};
pub use numbers::{bool_int, folded, max_min, quotrem};
pub use operands::{absolute, arithmetic, converted, number_with, with_number};
pub use reads::{array_size, index_array, initialize, num_str, search, str_len};
pub use shifts::shift;
pub use texts::str_num;
pub use values::evaluate;
