//! Values: what a wire carries, with their types, defaults, copies and coercions, and the names of the primitives.
#![tactic(auto)]

mod coercion;
mod elements;
mod num;
mod nums;
mod primitive;
mod value;
mod values;

pub use coercion::coerce;
pub use num::Num;
pub use nums::NumArr;
pub use primitive::Primitive;
pub use value::{
    ArrOf, Copies, Live, RefValue, Value, ValueArr, ValueItems, copy, default_of, is_buffered,
    type_of, types_of,
};
pub use values::ValueList;
