//! Types.

ghost use Rattle.std.specs.Prelude.{◌≡◌, Some, None, true};
ghost use Rattle.g_grammar.specs.Grammar.{read};
ghost use Rattle.g_grammar.specs.Reads.{Gives, with_front};
ghost use Rattle.g_listing_words.specs.Operations.{lookup};
ghost use Rattle.g_listing_grammar.specs.Words.{type_words};
ghost use Rattle.g_listing_grammar.specs.Types.{type_word, type_first, holds_others, types, type_rest, others};

use crate::marks::{close_brace, close_bracket, close_paren, comma_or_brace, open_paren};
use crate::read::{Read, push};
use g_grammar::Stop;
use g_listing_grammar::TypeWord;
use g_lists::{Boxed, List};
use g_tokens::{Mark, Token};
use g_types::{Rep, Ty};
use std::alloc::Global;

fn type_named(word: &[u8]) -> Option<TypeWord>
    ensures { result ≡ lookup type_words word.now }
{
    if word == b"i8".as_slice() {
        return Some(TypeWord::Number(Rep::I8));
    }
    if word == b"i16".as_slice() {
        return Some(TypeWord::Number(Rep::I16));
    }
    if word == b"i32".as_slice() {
        return Some(TypeWord::Number(Rep::I32));
    }
    if word == b"i64".as_slice() {
        return Some(TypeWord::Number(Rep::I64));
    }
    if word == b"u8".as_slice() {
        return Some(TypeWord::Number(Rep::U8));
    }
    if word == b"u16".as_slice() {
        return Some(TypeWord::Number(Rep::U16));
    }
    if word == b"u32".as_slice() {
        return Some(TypeWord::Number(Rep::U32));
    }
    if word == b"u64".as_slice() {
        return Some(TypeWord::Number(Rep::U64));
    }
    if word == b"bool".as_slice() {
        return Some(TypeWord::Truth);
    }
    if word == b"str".as_slice() {
        return Some(TypeWord::Text);
    }
    if word == b"queue".as_slice() {
        return Some(TypeWord::Queue);
    }
    if word == b"ref".as_slice() {
        return Some(TypeWord::Ref);
    }
    None
}

fn type_word(arrays: bool, token: &Token) -> Option<TypeWord>
    ensures { result ≡ type_word arrays token.now }
{
    match token {
        Token::Word(word) => type_named(word.as_slice()),
        Token::Mark(Mark::OpenBracket) => { if arrays { Some(TypeWord::Array) } else { None } }
        Token::Mark(Mark::OpenBrace) => Some(TypeWord::Cluster),
        _ => None,
    }
}

fn holds_others(word: TypeWord) -> bool
    ensures { result ≡ holds_others word }
{
    match word {
        TypeWord::Number(_) | TypeWord::Truth | TypeWord::Text => false,
        TypeWord::Array | TypeWord::Cluster | TypeWord::Queue | TypeWord::Ref => true,
    }
}

/// How a type begins that has so many levels inside it.
pub(crate) fn type_first(inside: u32, arrays: bool, token: &Token) -> Option<TypeWord>
    ensures { result ≡ type_first inside arrays token.now }
{
    let word = type_word(arrays, token)?;
    if holds_others(word) && inside == 0 {
        None
    } else {
        Some(word)
    }
}

/// A type of at most so many levels.
#[cycle(types)]
#[tactic(auto, using(crate::proofs::Steps::types_none, crate::proofs::Steps::types_step))]
pub(crate) fn read_type<'a>(
    alloc: Global,
    tokens: &'a [Token],
    levels: u32,
    arrays: bool,
) -> Read<'a, Ty>
    ensures { Gives result (read (types levels arrays) tokens.now) }
{
    if levels == 0 {
        return Err(Stop::At(tokens));
    }
    let Some((token, rest)) = tokens.split_first() else {
        return Err(Stop::At(tokens));
    };
    match type_first(levels - 1, arrays, token) {
        Some(word) => type_rest(alloc, word, rest, levels - 1),
        None => Err(Stop::At(tokens)),
    }
}

/// A type after its first token, inside which there are so many levels.
#[cycle(types)]
fn type_rest<'a>(alloc: Global, word: TypeWord, tokens: &'a [Token], inside: u32) -> Read<'a, Ty>
    ensures { Gives result (read (type_rest (types inside) word) tokens.now) }
{
    match word {
        TypeWord::Number(rep) => Ok((Ty::Num(rep), tokens)),
        TypeWord::Truth => Ok((Ty::Bool, tokens)),
        TypeWord::Text => Ok((Ty::Str, tokens)),
        TypeWord::Array => {
            let (ty, rest) = read_type(alloc, tokens, inside, false)?;
            let rest = close_bracket(rest)?;
            Ok((Ty::Arr(Boxed::new(alloc, ty)?), rest))
        }
        TypeWord::Cluster => {
            let (ty, rest) = read_type(alloc, tokens, inside, true)?;
            let mut items = List::new(alloc);
            push(&mut items, ty)?;
            let (items, rest) = more_types(alloc, items, rest, inside)?;
            Ok((Ty::Cluster(items), rest))
        }
        TypeWord::Queue => {
            let rest = open_paren(tokens)?;
            let (ty, rest) = read_type(alloc, rest, inside, true)?;
            let rest = close_paren(rest)?;
            Ok((Ty::QueueRef(Boxed::new(alloc, ty)?), rest))
        }
        TypeWord::Ref => {
            let rest = open_paren(tokens)?;
            let (ty, rest) = read_type(alloc, rest, inside, true)?;
            let rest = close_paren(rest)?;
            Ok((Ty::ValueRef(Boxed::new(alloc, ty)?), rest))
        }
    }
}

/// These types and the further ones, up to the brace.
#[cycle(types)]
fn more_types<'a>(
    alloc: Global,
    mut items: List<Ty>,
    tokens: &'a [Token],
    levels: u32,
) -> Read<'a, List<Ty>>
    ensures { Gives result (with_front items (read (others (types levels true) 63) tokens.now)) }
{
    let mut rest = tokens;
    for _ in 0..63u32 {
        let (again, after) = comma_or_brace(rest)?;
        if !again {
            return Ok((items, after));
        }
        let (ty, after) = read_type(alloc, after, levels, true)?;
        push(&mut items, ty)?;
        rest = after;
    }
    let rest = close_brace(rest)?;
    Ok((items, rest))
}
