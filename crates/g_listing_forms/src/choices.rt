//! Selectors of a branch.

ghost use Rattle.std.specs.Prelude.{◌≡◌, IfOk};
ghost use Rattle.g_grammar.specs.Grammar.{read, take, bind, loop, or_else};
ghost use Rattle.g_grammar.specs.Reads.{Gives, Turns};
ghost use Rattle.g_listing_words.specs.Operations.{lookup};
ghost use Rattle.g_listing_grammar.specs.Words.{comma_or_eol};
ghost use Rattle.g_listing_grammar.specs.Nodes.{selector_words, selector_first, dots, range_rest, selector_rest, selector_item, selectors};

use crate::marks::comma_or_eol;
use crate::read::{Read, push};
use crate::words::number;
use g_diagram::Selector;
use g_grammar::{Stop, Turn};
use g_listing_grammar::SelectorFirst;
use g_lists::List;
use g_tokens::{Mark, Token};
use std::alloc::{AllocError, Global};

fn selector_named(word: &[u8]) -> Option<Selector>
    ensures { result ≡ lookup selector_words word.now }
{
    if word == b"TRUE".as_slice() {
        return Some(Selector::Truth(true));
    }
    if word == b"FALSE".as_slice() {
        return Some(Selector::Truth(false));
    }
    if word == b"default".as_slice() {
        return Some(Selector::Default);
    }
    None
}

/// How a selector begins.
pub fn selector_first(alloc: Global, token: &Token) -> Result<Option<SelectorFirst>, AllocError>
    ensures { IfOk result (λ first. first ≡ selector_first token.now) }
{
    match token {
        Token::Number(n) => Ok(Some(SelectorFirst::Number(*n))),
        Token::Text(bytes) => {
            let bytes = List::from_slice(alloc, bytes.as_slice())?;
            Ok(Some(SelectorFirst::Whole(Selector::Text(bytes))))
        }
        Token::Word(word) => match selector_named(word.as_slice()) {
            Some(selector) => Ok(Some(SelectorFirst::Whole(selector))),
            None => Ok(None),
        },
        _ => Ok(None),
    }
}

/// A selector after the number that it begins with, and whether another follows.
fn range_rest(tokens: &[Token], low: i128) -> Read<'_, (Selector, bool)>
    ensures { Gives result (read (bind (take (or_else dots comma_or_eol)) (range_rest low)) tokens.now) }
{
    match tokens {
        [Token::Mark(Mark::Dots), rest @ ..] => {
            let (high, rest) = number(rest)?;
            let (more, rest) = comma_or_eol(rest)?;
            Ok(((Selector::Range(low, high), more), rest))
        }
        [Token::Mark(Mark::Comma), rest @ ..] => Ok(((Selector::Number(low), true), rest)),
        [Token::Eol, rest @ ..] => Ok(((Selector::Number(low), false), rest)),
        _ => Err(Stop::At(tokens)),
    }
}

/// A selector after its first token, and whether another follows.
fn selector_rest(tokens: &[Token], first: SelectorFirst) -> Read<'_, (Selector, bool)>
    ensures { Gives result (read (selector_rest first) tokens.now) }
{
    match first {
        SelectorFirst::Whole(selector) => {
            let (more, rest) = comma_or_eol(tokens)?;
            Ok(((selector, more), rest))
        }
        SelectorFirst::Number(low) => range_rest(tokens, low),
    }
}

/// The same, as a turn of a loop.
pub fn selector_item(tokens: &[Token], first: SelectorFirst) -> Read<'_, Turn<Selector, Selector>>
    ensures { Turns result (read (selector_item first) tokens.now) }
{
    let ((selector, more), rest) = selector_rest(tokens, first)?;
    if more {
        return Ok((Turn::More(selector), rest));
    }
    Ok((Turn::Last(selector), rest))
}

/// A further selector, the last or not.
fn selector<'a>(alloc: Global, tokens: &'a [Token]) -> Read<'a, Turn<Selector, Selector>>
    ensures { Turns result (read (bind (take selector_first) selector_item) tokens.now) }
{
    let Some((token, rest)) = tokens.split_first() else {
        return Err(Stop::At(tokens));
    };
    match selector_first(alloc, token)? {
        Some(first) => selector_item(rest, first),
        None => Err(Stop::At(tokens)),
    }
}

/// The further selectors of a line: all but the last, and the last.
fn more_selectors<'a>(alloc: Global, tokens: &'a [Token]) -> Read<'a, (List<Selector>, Selector)>
    ensures { Gives result (read (loop selector_first selector_item) tokens.now) }
{
    let mut found_selectors = List::new(alloc);
    let mut rest = tokens;
    for _ in 0..tokens.len() {
        let (turn, after) = match selector(alloc, rest) {
            Ok(found) => found,
            Err(stop) => return Err(stop),
        };
        match turn {
            Turn::More(item) => push(&mut found_selectors, item)?,
            Turn::Last(last) => return Ok(((found_selectors, last), after)),
        }
        rest = after;
    }
    Err(Stop::At(rest))
}

/// The selectors of a branch after the first token of the first one.
pub fn selectors<'a>(
    alloc: Global,
    tokens: &'a [Token],
    first: SelectorFirst,
) -> Read<'a, List<Selector>>
    ensures { Gives result (read (selectors first) tokens.now) }
{
    let (turn, rest) = selector_item(tokens, first)?;
    let mut all = List::new(alloc);
    match turn {
        Turn::More(selector) => {
            let ((more, last), rest) = more_selectors(alloc, rest)?;
            push(&mut all, selector)?;
            all.append(more)?;
            push(&mut all, last)?;
            Ok((all, rest))
        }
        Turn::Last(selector) => {
            push(&mut all, selector)?;
            Ok((all, rest))
        }
    }
}
