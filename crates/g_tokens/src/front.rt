//! The token at the front of some bytes.

ghost use Rattle.std.specs.Prelude.{◌≡◌, ◌<◌, ◌∷◌, length, IfOk};
ghost use Rattle.g_tokens.specs.Tokens.{IsFront};
ghost use Rattle.g_tokens.specs.Scan.{mark_alone};

use crate::numbers::number_at;
use crate::texts::text_at;
use crate::token::{Mark, Token};
use crate::words::word_at;
use g_types::{is_digit, is_letter};
use std::alloc::{AllocError, Global};

/// The mark that a byte is which begins no longer one.
fn mark_alone(b: u8) -> Option<Mark>
    ensures { result ≡ mark_alone b }
{
    match b {
        b'|' => Some(Mark::Bar),
        b'=' => Some(Mark::Equals),
        b',' => Some(Mark::Comma),
        b'[' => Some(Mark::OpenBracket),
        b']' => Some(Mark::CloseBracket),
        b'{' => Some(Mark::OpenBrace),
        b'}' => Some(Mark::CloseBrace),
        b'(' => Some(Mark::OpenParen),
        b')' => Some(Mark::CloseParen),
        b'_' => Some(Mark::Unwired),
        _ => None,
    }
}

/// The token that `-` begins before these bytes, and its length with the `-`.
fn after_minus(rest: &[u8]) -> (Token, usize)
    ensures { IsFront (45 ∷ rest.now) result.0 result.1 }
{
    let Some((first, _)) = rest.split_first() else {
        return (Token::Bad, 1);
    };
    if *first == b'>' {
        return (Token::Mark(Mark::Arrow), 2);
    }
    if is_digit(*first) {
        let (token, length) = number_at(rest, true);
        return (token, length + 1);
    }
    (Token::Bad, rest.len() + 1)
}

/// The token that `<` begins before these bytes, and its length with the `<`.
fn after_less(rest: &[u8]) -> (Token, usize)
    ensures { IsFront (60 ∷ rest.now) result.0 result.1 }
{
    let Some((first, _)) = rest.split_first() else {
        return (Token::Bad, 1);
    };
    if *first == b'-' {
        return (Token::Mark(Mark::Feeds), 2);
    }
    (Token::Bad, rest.len() + 1)
}

/// The token that `.` begins before these bytes, and its length with the `.`.
fn after_dot(rest: &[u8]) -> (Token, usize)
    ensures { IsFront (46 ∷ rest.now) result.0 result.1 }
{
    let Some((first, _)) = rest.split_first() else {
        return (Token::Bad, 1);
    };
    if *first == b'.' {
        return (Token::Mark(Mark::Dots), 2);
    }
    (Token::Bad, rest.len() + 1)
}

/// The token that a quote begins before these bytes, and its length with the quote.
fn after_quote(alloc: Global, rest: &[u8]) -> Result<(Token, usize), AllocError>
    ensures { IfOk result (λ x. IsFront (34 ∷ rest.now) x.0 x.1) }
{
    match text_at(alloc, rest)? {
        Some((bytes, length)) => Ok((Token::Text(bytes), length + 1)),
        None => Ok((Token::Bad, rest.len() + 1)),
    }
}

/// The token at the front and its length. Where none is, the bytes are one bad token.
pub(crate) fn token_at(alloc: Global, bytes: &[u8]) -> Result<(Token, usize), AllocError>
    requires { 0 < length bytes.now }
    ensures { IfOk result (λ x. IsFront bytes.now x.0 x.1) }
{
    let Some((first, rest)) = bytes.split_first() else {
        return Ok((Token::Bad, 0));
    };
    let first = *first;
    if is_letter(first) {
        return word_at(alloc, bytes);
    }
    if is_digit(first) {
        return Ok(number_at(bytes, false));
    }
    match first {
        b'-' => Ok(after_minus(rest)),
        b'<' => Ok(after_less(rest)),
        b'.' => Ok(after_dot(rest)),
        b'"' => after_quote(alloc, rest),
        _ => match mark_alone(first) {
            Some(mark) => Ok((Token::Mark(mark), 1)),
            None => Ok((Token::Bad, bytes.len())),
        },
    }
}
