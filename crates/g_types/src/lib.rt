//! Representations of numbers, types of values, and the small lists that every layer speaks of.
#![tactic(auto)]

mod lists;
mod names;
mod rep;
mod ty;

pub use lists::{Bytes, CallList, Name};
pub use names::{LONGEST_NAME, is_digit, is_letter, is_name, is_word_byte};
pub use rep::{Rep, wider, wrap};
pub use ty::{Ty, TyList, assignable, copy, copy_all, fits, same, type_text};
