//! Operations that change what they take, in its buffer and without lanes: parts of arrays and
//! strings, elements of clusters, sorting; and the words of numbers, on which kernels go.
#![tactic(auto)]

mod arrays;
mod choice;
mod clusters;
mod copies;
mod counts;
mod items;
mod limits;
mod numbers;
mod sorting;
mod strings;
mod vectors;
mod words;

pub use arrays::{array_subset, build, concat, delete, nothing, replace, reversed};
pub use choice::{combined_truth, is_true, select};
pub use clusters::{get, parts, put};
pub use copies::copy;
pub use counts::{count, index};
pub use limits::MOST;
pub use sorting::{sort, sorted_numbers};
pub use strings::{bytes_str, str_bytes, str_concat, str_subset, text};
pub use words::{
    Operator, absolute_number, absolute_word, combined_number, combined_word, number_of_word,
    on_two_words, word_of, wrapped_word,
};
