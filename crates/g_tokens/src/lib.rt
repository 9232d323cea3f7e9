//! The tokens of a listing and of a text of a value: the longest token at each place, where it
//! stands, and nothing of what may follow what.
#![tactic(auto)]

mod front;
mod lines;
mod numbers;
mod texts;
mod token;
mod words;

pub use lines::{listing_tokens, text_tokens};
pub use token::{Lexeme, Mark, Spot, TextTokens, Token, Tokens};
