//! Texts between quotes.

ghost use Rattle.std.specs.Prelude.{◌≡◌, ◌<◌, IfOk};
ghost use Rattle.std.specs.Option.{IfSome};
ghost use Rattle.g_tokens.specs.Tokens.{hex, two_digits, in_text};
ghost use Rattle.g_tokens.specs.Scan.{text_end};
ghost use Rattle.g_tokens.specs.declared.texts.Escape.TheVariants.{Plain};

use g_lists::List;
use g_types::Bytes;
use std::alloc::{AllocError, Global};

/// What stands begun inside a text.
#[derive(Clone, Copy, Debug, PartialEq, Eq)]
pub enum Escape {
    /// Nothing: a character may begin.
    Plain,
    /// A backslash.
    Backslash,
    /// `\x`
    Hex,
    /// `\x` and its first digit, by its byte.
    HexDigit(u8),
}

/// What one more byte does inside a text.
#[derive(Clone, Copy, Debug, PartialEq, Eq)]
pub enum Step {
    /// It ends the text.
    Close,
    /// It ends a character, which means this byte.
    Means(u8),
    Begins(Escape),
    /// No text has it there.
    Refused,
}

/// The value of a hexadecimal digit.
fn hex(b: u8) -> Option<u8>
    ensures value { result ≡ hex b }
    ensures small { IfSome result (λ digit. digit < 16) }
{
    match b {
        b'0'..=b'9' => Some(b - b'0'),
        b'a'..=b'f' => Some(b - b'a' + 10),
        b'A'..=b'F' => Some(b - b'A' + 10),
        _ => None,
    }
}

/// The byte of two digits, if both are.
fn two_digits(first: Option<u8>, second: Option<u8>) -> Step
    requires first { IfSome first (λ digit. digit < 16) }
    requires second { IfSome second (λ digit. digit < 16) }
    ensures { result ≡ two_digits first second }
{
    let Some(first) = first else {
        return Step::Refused;
    };
    match second {
        Some(second) => Step::Means(16 * first + second),
        None => Step::Refused,
    }
}

fn in_text(escape: Escape, b: u8) -> Step
    ensures { result ≡ in_text escape b }
{
    match escape {
        Escape::Plain => match b {
            b'"' => Step::Close,
            b'\\' => Step::Begins(Escape::Backslash),
            32.. => Step::Means(b),
            _ => Step::Refused,
        },
        Escape::Backslash => match b {
            b'"' | b'\\' => Step::Means(b),
            b'n' => Step::Means(b'\n'),
            b'x' => Step::Begins(Escape::Hex),
            _ => Step::Refused,
        },
        Escape::Hex => match hex(b) {
            Some(_) => Step::Begins(Escape::HexDigit(b)),
            None => Step::Refused,
        },
        Escape::HexDigit(first) => two_digits(hex(first), hex(b)),
    }
}

/// What a text means whose quote stands before these bytes, and how many of them belong to it; none
/// where no text begins so.
pub(crate) fn text_at(alloc: Global, bytes: &[u8]) -> Result<Option<(Bytes, usize)>, AllocError>
    ensures { IfOk result (λ found. found ≡ text_end Plain bytes.now) }
{
    let mut meaning = List::new(alloc);
    let mut escape = Escape::Plain;
    for (i, b) in bytes.iter().enumerate() {
        match in_text(escape, *b) {
            Step::Close => return Ok(Some((meaning, i + 1))),
            Step::Means(byte) => {
                meaning.push(byte)?;
                escape = Escape::Plain;
            }
            Step::Begins(next) => escape = next,
            Step::Refused => return Ok(None),
        }
    }
    Ok(None)
}
