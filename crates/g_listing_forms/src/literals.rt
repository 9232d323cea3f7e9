//! Literals.

ghost use Rattle.std.specs.Prelude.{◌≡◌, true, false, IfOk};
ghost use Rattle.g_grammar.specs.Grammar.{read, take, loop, bind};
ghost use Rattle.g_grammar.specs.Reads.{Gives, Turns, with_front, fronts};
ghost use Rattle.g_listing_words.specs.Operations.{lookup};
ghost use Rattle.g_listing_grammar.specs.Types.{others};
ghost use Rattle.g_listing_grammar.specs.Words.{comma_or_bracket};
ghost use Rattle.g_listing_grammar.specs.Literals.{literals, literal_words, literal_rest_of, literal_first, literal_word, literal_rest, next_item};

use crate::marks::{close_brace, comma_or_brace, comma_or_bracket};
use crate::read::{Read, push};
use g_diagram::Lit;
use g_grammar::{Stop, Turn};
use g_listing_grammar::LiteralFirst;
use g_lists::List;
use g_tokens::{Mark, Token};
use std::alloc::{AllocError, Global};

fn literal_named(word: &[u8]) -> Option<LiteralFirst>
    ensures { result ≡ lookup literal_words word.now }
{
    if word == b"TRUE".as_slice() {
        return Some(LiteralFirst::Whole(Lit::Truth(true)));
    }
    if word == b"FALSE".as_slice() {
        return Some(LiteralFirst::Whole(Lit::Truth(false)));
    }
    if word == b"null".as_slice() {
        return Some(LiteralFirst::Whole(Lit::Null));
    }
    None
}

fn literal_word(
    alloc: Global,
    token: &Token,
    arrays: bool,
) -> Result<Option<LiteralFirst>, AllocError>
    ensures { IfOk result (λ first. first ≡ literal_word arrays token.now) }
{
    match token {
        Token::Number(n) => Ok(Some(LiteralFirst::Whole(Lit::Number(*n)))),
        Token::Text(bytes) => {
            let bytes = List::from_slice(alloc, bytes.as_slice())?;
            Ok(Some(LiteralFirst::Whole(Lit::Text(bytes))))
        }
        Token::Word(word) => Ok(literal_named(word.as_slice())),
        Token::Mark(Mark::OpenBracket) => {
            if arrays {
                Ok(Some(LiteralFirst::Array))
            } else {
                Ok(None)
            }
        }
        Token::Mark(Mark::OpenBrace) => Ok(Some(LiteralFirst::Cluster)),
        _ => Ok(None),
    }
}

/// How a literal of at most so many levels begins.
fn literal_first(
    alloc: Global,
    token: &Token,
    levels: u32,
    arrays: bool,
) -> Result<Option<LiteralFirst>, AllocError>
    ensures { IfOk result (λ first. first ≡ literal_first levels arrays token.now) }
{
    match literal_word(alloc, token, arrays)? {
        Some(LiteralFirst::Cluster) => {
            if levels > 1 {
                Ok(Some(LiteralFirst::Cluster))
            } else {
                Ok(None)
            }
        }
        Some(first) => {
            if levels > 0 {
                Ok(Some(first))
            } else {
                Ok(None)
            }
        }
        None => Ok(None),
    }
}

/// A literal of at most so many levels.
#[cycle(literals)]
pub(crate) fn read_literal<'a>(
    alloc: Global,
    tokens: &'a [Token],
    levels: u32,
    arrays: bool,
) -> Read<'a, Lit>
    ensures { Gives result (read (literals levels arrays) tokens.now) }
{
    let Some((token, rest)) = tokens.split_first() else {
        return Err(Stop::At(tokens));
    };
    match literal_first(alloc, token, levels, arrays)? {
        Some(first) => literal_rest(alloc, first, rest, levels),
        None => Err(Stop::At(tokens)),
    }
}

/// A literal of at most so many levels, after its first token.
#[cycle(literals)]
#[tactic(auto, using(crate::proofs::Steps::literal_rest_none, crate::proofs::Steps::literal_rest_gives))]
fn literal_rest<'a>(
    alloc: Global,
    first: LiteralFirst,
    tokens: &'a [Token],
    levels: u32,
) -> Read<'a, Lit>
    ensures { Gives result (read (literal_rest levels first) tokens.now) }
{
    if levels == 0 {
        Err(Stop::At(tokens))
    } else {
        literal_inside(alloc, first, tokens, levels - 1)
    }
}

/// A literal after its first token, inside which there are so many levels.
#[cycle(literals)]
fn literal_inside<'a>(
    alloc: Global,
    first: LiteralFirst,
    tokens: &'a [Token],
    inside: u32,
) -> Read<'a, Lit>
    ensures { Gives result (read (literal_rest_of (literal_first inside) (literal_rest inside) first) tokens.now) }
{
    match first {
        LiteralFirst::Whole(literal) => Ok((literal, tokens)),
        LiteralFirst::Array => {
            let Some((token, rest)) = tokens.split_first() else {
                return Err(Stop::At(tokens));
            };
            let Some(first) = literal_first(alloc, token, inside, false)? else {
                return match token {
                    Token::Mark(Mark::CloseBracket) => Ok((Lit::Array(List::new(alloc)), rest)),
                    _ => Err(Stop::At(tokens)),
                };
            };
            let (literal, rest) = literal_rest(alloc, first, rest, inside)?;
            let mut items = List::new(alloc);
            push(&mut items, literal)?;
            let (items, rest) = array_items(alloc, items, rest, inside)?;
            Ok((Lit::Array(items), rest))
        }
        LiteralFirst::Cluster => {
            let (literal, rest) = read_literal(alloc, tokens, inside, true)?;
            let mut items = List::new(alloc);
            push(&mut items, literal)?;
            let (items, rest) = cluster_items(alloc, items, rest, inside)?;
            Ok((Lit::Cluster(items), rest))
        }
    }
}

/// A comma and one more literal, or the bracket.
#[cycle(literals)]
fn array_item<'a>(alloc: Global, tokens: &'a [Token], levels: u32) -> Read<'a, Turn<Lit, ()>>
    ensures { Turns result (read (bind (take comma_or_bracket) (next_item (literals levels false))) tokens.now) }
{
    let (again, rest) = comma_or_bracket(tokens)?;
    if !again {
        return Ok((Turn::Last(()), rest));
    }
    let (literal, rest) = read_literal(alloc, rest, levels, false)?;
    Ok((Turn::More(literal), rest))
}

/// These literals and the further ones, up to the bracket.
#[cycle(literals)]
fn array_items<'a>(
    alloc: Global,
    mut items: List<Lit>,
    tokens: &'a [Token],
    levels: u32,
) -> Read<'a, List<Lit>>
    ensures { Gives result (fronts items (read (loop comma_or_bracket (next_item (literals levels false))) tokens.now)) }
{
    let mut rest = tokens;
    for _ in 0..tokens.len() {
        let (turn, after) = match array_item(alloc, rest, levels) {
            Ok(found) => found,
            Err(stop) => return Err(stop),
        };
        match turn {
            Turn::More(literal) => push(&mut items, literal)?,
            Turn::Last(()) => return Ok((items, after)),
        }
        rest = after;
    }
    Err(Stop::At(rest))
}

/// These literals and the further ones, up to the brace.
#[cycle(literals)]
fn cluster_items<'a>(
    alloc: Global,
    mut items: List<Lit>,
    tokens: &'a [Token],
    levels: u32,
) -> Read<'a, List<Lit>>
    ensures { Gives result (with_front items (read (others (literals levels true) 63) tokens.now)) }
{
    let mut rest = tokens;
    for _ in 0..63u32 {
        let (again, after) = comma_or_brace(rest)?;
        if !again {
            return Ok((items, after));
        }
        let (literal, after) = read_literal(alloc, after, levels, true)?;
        push(&mut items, literal)?;
        rest = after;
    }
    let rest = close_brace(rest)?;
    Ok((items, rest))
}
