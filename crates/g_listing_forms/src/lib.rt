//! Reads the forms of a listing that hold no diagram: types, literals, panel lines, the lines at the
//! border of a structure, selectors, and the nodes on one line.
//!
//! Each reader takes the tokens from where its form begins and gives the form's value with the tokens
//! after it, or stops: at the first token that its form refuses, or for want of memory.
#![tactic(auto)]

mod borders;
mod choices;
mod header;
mod literals;
mod marks;
mod nodes;
mod operands;
mod panel;
mod read;
mod types;
mod words;

pub use borders::lines;
pub use choices::{selector_first, selector_item, selectors};
pub use header::kind;
pub use marks::eol;
pub use nodes::plain_rest;
pub use operands::{across, last_wire};
pub use panel::{panel_named, panel_rest};
pub use read::{Passed, Read, push};
pub use words::{keyword, name, version, wire};
