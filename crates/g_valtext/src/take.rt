//! Taking one token.

ghost use Rattle.std.specs.Prelude.{◌≡◌, None, Ok, MatchOption};
ghost use Rattle.g_grammar.specs.Grammar.{first, read, take};
ghost use Rattle.g_grammar.specs.Reads.{Gives, Passes};
ghost use Rattle.g_valtext.specs.Reads.{GivesNumber};
ghost use Rattle.g_valtext.specs.Spellings as spec;

use g_grammar::Stop;
use g_tokens::{Mark, Token};
use g_types::{Bytes, Rep};
use g_values::Num;
use std::alloc::Global;

/// How many elements an array has at most beside its first.
pub(crate) const MOST_FURTHER: u32 = 4_194_303;

/// A bracket that opens an array.
pub(crate) fn open_bracket(tokens: &[Token]) -> Result<&[Token], Stop<'_, Token>>
    ensures { Passes result (read (take spec.open_bracket) tokens.now) }
{
    match tokens {
        [Token::Mark(Mark::OpenBracket), rest @ ..] => Ok(rest),
        _ => Err(Stop::At(tokens)),
    }
}

/// The bracket that closes an array.
pub(crate) fn close_bracket(tokens: &[Token]) -> Result<&[Token], Stop<'_, Token>>
    ensures { Passes result (read (take spec.close_bracket) tokens.now) }
{
    match tokens {
        [Token::Mark(Mark::CloseBracket), rest @ ..] => Ok(rest),
        _ => Err(Stop::At(tokens)),
    }
}

/// The tokens after a bracket that closes at the front.
pub(crate) fn closed(tokens: &[Token]) -> Option<&[Token]>
    ensures { MatchOption result (first spec.close_bracket tokens.now ≡ None) (λ rest. read (take spec.close_bracket) tokens.now ≡ Ok (tt, rest.now)) }
{
    match tokens {
        [Token::Mark(Mark::CloseBracket), rest @ ..] => Some(rest),
        _ => None,
    }
}

/// A brace that opens a cluster.
pub(crate) fn open_brace(tokens: &[Token]) -> Result<&[Token], Stop<'_, Token>>
    ensures { Passes result (read (take spec.open_brace) tokens.now) }
{
    match tokens {
        [Token::Mark(Mark::OpenBrace), rest @ ..] => Ok(rest),
        _ => Err(Stop::At(tokens)),
    }
}

/// The brace that closes a cluster.
pub(crate) fn close_brace(tokens: &[Token]) -> Result<&[Token], Stop<'_, Token>>
    ensures { Passes result (read (take spec.close_brace) tokens.now) }
{
    match tokens {
        [Token::Mark(Mark::CloseBrace), rest @ ..] => Ok(rest),
        _ => Err(Stop::At(tokens)),
    }
}

/// The comma between two items.
pub(crate) fn comma(tokens: &[Token]) -> Result<&[Token], Stop<'_, Token>>
    ensures { Passes result (read (take spec.comma) tokens.now) }
{
    match tokens {
        [Token::Mark(Mark::Comma), rest @ ..] => Ok(rest),
        _ => Err(Stop::At(tokens)),
    }
}

/// Whether one more item follows, or else that the array ends.
pub(crate) fn comma_or_bracket(tokens: &[Token]) -> Result<(bool, &[Token]), Stop<'_, Token>>
    ensures { Gives result (read (take spec.comma_or_bracket) tokens.now) }
{
    match tokens {
        [Token::Mark(Mark::Comma), rest @ ..] => Ok((true, rest)),
        [Token::Mark(Mark::CloseBracket), rest @ ..] => Ok((false, rest)),
        _ => Err(Stop::At(tokens)),
    }
}

fn is_within(rep: Rep, n: i128) -> bool
    ensures { result ≡ spec.is_within rep n }
{
    let low = -i128::from(rep.half());
    let high = i128::from(rep.mask() - rep.half());
    low <= n && n <= high
}

/// A number within the range.
#[tactic(auto, using(crate::proofs::Ranges::kept, crate::proofs::Ranges::kept_n))]
pub(crate) fn number(rep: Rep, tokens: &[Token]) -> Result<(Num, &[Token]), Stop<'_, Token>>
    ensures { GivesNumber rep result (read (spec.number rep) tokens.now) }
{
    match tokens {
        [Token::Number(n), rest @ ..] if is_within(rep, *n) => Ok((Num::wrapped(rep, *n), rest)),
        _ => Err(Stop::At(tokens)),
    }
}

fn truth_of(word: &[u8]) -> Option<bool>
    ensures { result ≡ spec.truth_of word.now }
{
    if word == b"TRUE".as_slice() {
        return Some(true);
    }
    if word == b"FALSE".as_slice() {
        return Some(false);
    }
    None
}

/// A Boolean.
pub(crate) fn truth(tokens: &[Token]) -> Result<(bool, &[Token]), Stop<'_, Token>>
    ensures { Gives result (read (take spec.truth) tokens.now) }
{
    let Some((token, rest)) = tokens.split_first() else {
        return Err(Stop::At(tokens));
    };
    let Token::Word(word) = token else {
        return Err(Stop::At(tokens));
    };
    match truth_of(word.as_slice()) {
        Some(truth) => Ok((truth, rest)),
        None => Err(Stop::At(tokens)),
    }
}

/// The longest text, in bytes.
const MOST_BYTES: usize = 4_194_304;

/// A text within the limit.
pub(crate) fn text(alloc: Global, tokens: &[Token]) -> Result<(Bytes, &[Token]), Stop<'_, Token>>
    ensures { Gives result (read (take spec.text_within) tokens.now) }
{
    let Some((token, rest)) = tokens.split_first() else {
        return Err(Stop::At(tokens));
    };
    let Token::Text(text) = token else {
        return Err(Stop::At(tokens));
    };
    if text.len() > MOST_BYTES {
        return Err(Stop::At(tokens));
    }
    Ok((Bytes::from_slice(alloc, text.as_slice())?, rest))
}

/// The null reference.
pub(crate) fn null(tokens: &[Token]) -> Result<&[Token], Stop<'_, Token>>
    ensures { Passes result (read (take spec.null) tokens.now) }
{
    let Some((token, rest)) = tokens.split_first() else {
        return Err(Stop::At(tokens));
    };
    let Token::Word(word) = token else {
        return Err(Stop::At(tokens));
    };
    if word.as_slice() == b"null".as_slice() {
        return Ok(rest);
    }
    Err(Stop::At(tokens))
}
