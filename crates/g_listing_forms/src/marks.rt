//! Marks and the ends of lines.

ghost use Rattle.g_grammar.specs.Grammar.{read, take};
ghost use Rattle.g_grammar.specs.Reads.{Gives, Passes};
ghost use Rattle.g_listing_grammar.specs.Words.{eol, arrow, feeds, bar, open_paren, close_paren, close_bracket, close_brace, comma_or_brace, comma_or_bracket, comma_or_eol, equals_or_arrow};

use crate::read::{Passed, Read};
use g_grammar::Stop;
use g_tokens::{Mark, Token};

/// The end of a line.
pub fn eol(tokens: &[Token]) -> Passed<'_>
    ensures { Passes result (read (take eol) tokens.now) }
{
    match tokens {
        [Token::Eol, rest @ ..] => Ok(rest),
        _ => Err(Stop::At(tokens)),
    }
}

/// `->`
pub(crate) fn arrow(tokens: &[Token]) -> Passed<'_>
    ensures { Passes result (read (take arrow) tokens.now) }
{
    match tokens {
        [Token::Mark(Mark::Arrow), rest @ ..] => Ok(rest),
        _ => Err(Stop::At(tokens)),
    }
}

/// `<-`
pub(crate) fn feeds(tokens: &[Token]) -> Passed<'_>
    ensures { Passes result (read (take feeds) tokens.now) }
{
    match tokens {
        [Token::Mark(Mark::Feeds), rest @ ..] => Ok(rest),
        _ => Err(Stop::At(tokens)),
    }
}

/// `|`
pub(crate) fn bar(tokens: &[Token]) -> Passed<'_>
    ensures { Passes result (read (take bar) tokens.now) }
{
    match tokens {
        [Token::Mark(Mark::Bar), rest @ ..] => Ok(rest),
        _ => Err(Stop::At(tokens)),
    }
}

/// `(`
pub(crate) fn open_paren(tokens: &[Token]) -> Passed<'_>
    ensures { Passes result (read (take open_paren) tokens.now) }
{
    match tokens {
        [Token::Mark(Mark::OpenParen), rest @ ..] => Ok(rest),
        _ => Err(Stop::At(tokens)),
    }
}

/// `)`
pub(crate) fn close_paren(tokens: &[Token]) -> Passed<'_>
    ensures { Passes result (read (take close_paren) tokens.now) }
{
    match tokens {
        [Token::Mark(Mark::CloseParen), rest @ ..] => Ok(rest),
        _ => Err(Stop::At(tokens)),
    }
}

/// `]`
pub(crate) fn close_bracket(tokens: &[Token]) -> Passed<'_>
    ensures { Passes result (read (take close_bracket) tokens.now) }
{
    match tokens {
        [Token::Mark(Mark::CloseBracket), rest @ ..] => Ok(rest),
        _ => Err(Stop::At(tokens)),
    }
}

/// `}`
pub(crate) fn close_brace(tokens: &[Token]) -> Passed<'_>
    ensures { Passes result (read (take close_brace) tokens.now) }
{
    match tokens {
        [Token::Mark(Mark::CloseBrace), rest @ ..] => Ok(rest),
        _ => Err(Stop::At(tokens)),
    }
}

/// A comma, after which there is more, or `}`.
pub(crate) fn comma_or_brace(tokens: &[Token]) -> Read<'_, bool>
    ensures { Gives result (read (take comma_or_brace) tokens.now) }
{
    match tokens {
        [Token::Mark(Mark::Comma), rest @ ..] => Ok((true, rest)),
        [Token::Mark(Mark::CloseBrace), rest @ ..] => Ok((false, rest)),
        _ => Err(Stop::At(tokens)),
    }
}

/// A comma, after which there is more, or `]`.
pub(crate) fn comma_or_bracket(tokens: &[Token]) -> Read<'_, bool>
    ensures { Gives result (read (take comma_or_bracket) tokens.now) }
{
    match tokens {
        [Token::Mark(Mark::Comma), rest @ ..] => Ok((true, rest)),
        [Token::Mark(Mark::CloseBracket), rest @ ..] => Ok((false, rest)),
        _ => Err(Stop::At(tokens)),
    }
}

/// A comma, after which there is more, or the end of the line.
pub(crate) fn comma_or_eol(tokens: &[Token]) -> Read<'_, bool>
    ensures { Gives result (read (take comma_or_eol) tokens.now) }
{
    match tokens {
        [Token::Mark(Mark::Comma), rest @ ..] => Ok((true, rest)),
        [Token::Eol, rest @ ..] => Ok((false, rest)),
        _ => Err(Stop::At(tokens)),
    }
}

/// `=`, after which a literal stands, or `->`.
pub(crate) fn equals_or_arrow(tokens: &[Token]) -> Read<'_, bool>
    ensures { Gives result (read (take equals_or_arrow) tokens.now) }
{
    match tokens {
        [Token::Mark(Mark::Equals), rest @ ..] => Ok((true, rest)),
        [Token::Mark(Mark::Arrow), rest @ ..] => Ok((false, rest)),
        _ => Err(Stop::At(tokens)),
    }
}
