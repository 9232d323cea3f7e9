//! Names, words of the language and numbers within bounds.

ghost use Rattle.g_grammar.specs.Grammar.{read, take};
ghost use Rattle.g_grammar.specs.Reads.{Gives, Passes};
ghost use Rattle.g_listing_grammar.specs.Words.{word, name, text, wire, number, pool_size, field_number, queue_size, version};

use crate::read::{Passed, Read};
use g_diagram::Wire;
use g_grammar::Stop;
use g_lists::List;
use g_tokens::{Mark, Token};
use g_types::{Bytes, Name};
use std::alloc::Global;

/// A word of the language.
pub fn keyword<'a>(tokens: &'a [Token], text: &[u8]) -> Passed<'a>
    ensures { Passes result (read (take (word text.now)) tokens.now) }
{
    match tokens {
        [Token::Word(name), rest @ ..] => {
            if name.as_slice() == text {
                Ok(rest)
            } else {
                Err(Stop::At(tokens))
            }
        }
        _ => Err(Stop::At(tokens)),
    }
}

/// A name.
pub fn name<'a>(alloc: Global, tokens: &'a [Token]) -> Read<'a, Name>
    ensures { Gives result (read (take name) tokens.now) }
{
    match tokens {
        [Token::Word(name), rest @ ..] => {
            let name = List::from_slice(alloc, name.as_slice())?;
            Ok((name, rest))
        }
        _ => Err(Stop::At(tokens)),
    }
}

/// A text.
pub(crate) fn text<'a>(alloc: Global, tokens: &'a [Token]) -> Read<'a, Bytes>
    ensures { Gives result (read (take text) tokens.now) }
{
    match tokens {
        [Token::Text(bytes), rest @ ..] => {
            let bytes = List::from_slice(alloc, bytes.as_slice())?;
            Ok((bytes, rest))
        }
        _ => Err(Stop::At(tokens)),
    }
}

/// A wire's name, or that an operand is unwired.
pub fn wire<'a>(alloc: Global, tokens: &'a [Token]) -> Read<'a, Wire>
    ensures { Gives result (read (take wire) tokens.now) }
{
    match tokens {
        [Token::Word(name), rest @ ..] => {
            let name = List::from_slice(alloc, name.as_slice())?;
            Ok((Some(name), rest))
        }
        [Token::Mark(Mark::Unwired), rest @ ..] => Ok((None, rest)),
        _ => Err(Stop::At(tokens)),
    }
}

/// A number.
pub(crate) fn number(tokens: &[Token]) -> Read<'_, i128>
    ensures { Gives result (read (take number) tokens.now) }
{
    match tokens {
        [Token::Number(n), rest @ ..] => Ok((*n, rest)),
        _ => Err(Stop::At(tokens)),
    }
}

/// A number from 1 to 64: the clones of a pool.
pub(crate) fn pool_size(tokens: &[Token]) -> Read<'_, u8>
    ensures { Gives result (read (take pool_size) tokens.now) }
{
    match tokens {
        [Token::Number(n), rest @ ..] => {
            if *n < 1 {
                return Err(Stop::At(tokens));
            }
            if *n > 64 {
                return Err(Stop::At(tokens));
            }
            Ok((*n as u8, rest))
        }
        _ => Err(Stop::At(tokens)),
    }
}

/// A number from 0 to 63: an element of a cluster.
pub(crate) fn field_number(tokens: &[Token]) -> Read<'_, u8>
    ensures { Gives result (read (take field_number) tokens.now) }
{
    match tokens {
        [Token::Number(n), rest @ ..] => {
            if *n < 0 {
                return Err(Stop::At(tokens));
            }
            if *n > 63 {
                return Err(Stop::At(tokens));
            }
            Ok((*n as u8, rest))
        }
        _ => Err(Stop::At(tokens)),
    }
}

/// A queue's size: -1 for none, or a number from 1 to 1,000,000.
pub(crate) fn queue_size(tokens: &[Token]) -> Read<'_, i32>
    ensures { Gives result (read (take queue_size) tokens.now) }
{
    match tokens {
        [Token::Number(n), rest @ ..] => {
            if *n == -1 {
                return Ok((-1, rest));
            }
            if *n < 1 {
                return Err(Stop::At(tokens));
            }
            if *n > 1_000_000 {
                return Err(Stop::At(tokens));
            }
            Ok((*n as i32, rest))
        }
        _ => Err(Stop::At(tokens)),
    }
}

/// The version of a listing.
pub fn version(tokens: &[Token]) -> Read<'_, u32>
    ensures { Gives result (read (take version) tokens.now) }
{
    match tokens {
        [Token::Number(n), rest @ ..] => {
            if *n == 1 {
                Ok((1, rest))
            } else {
                Err(Stop::At(tokens))
            }
        }
        _ => Err(Stop::At(tokens)),
    }
}
