//! Lines at the border of a structure.

ghost use Rattle.std.specs.Prelude.{◌≡◌};
ghost use Rattle.g_grammar.specs.Grammar.{read, take, bind, or_else};
ghost use Rattle.g_grammar.specs.Reads.{Gives, Turns};
ghost use Rattle.g_listing_words.specs.Operations.{lookup};
ghost use Rattle.g_listing_grammar.specs.Words.{word, word_in, default_or_eol};
ghost use Rattle.g_listing_grammar.specs.Borders.{lines_of, while_lines, first_frame_lines, case_lines, place_lines, register_rest, line_rest, line_or_end, lines_to};

use crate::marks::{arrow, eol};
use crate::operands::{across, last_wire, through, turned};
use crate::read::{Read, push};
use crate::types::read_type;
use crate::words::{field_number, wire};
use g_diagram::{Tunnel, Wire};
use g_grammar::{Stop, Turn};
use g_listing_grammar::{Border, LineWord};
use g_lists::List;
use g_tokens::Token;
use std::alloc::Global;

fn while_line(word: &[u8]) -> Option<LineWord>
    ensures { result ≡ lookup while_lines word.now }
{
    if word == b"tunnel".as_slice() {
        return Some(LineWord::Tunnel);
    }
    if word == b"register".as_slice() {
        return Some(LineWord::Register);
    }
    if word == b"last".as_slice() {
        return Some(LineWord::Last);
    }
    if word == b"gather".as_slice() {
        return Some(LineWord::Gather);
    }
    None
}

fn case_line(word: &[u8]) -> Option<LineWord>
    ensures { result ≡ lookup case_lines word.now }
{
    if word == b"tunnel".as_slice() {
        return Some(LineWord::Tunnel);
    }
    if word == b"result".as_slice() {
        return Some(LineWord::Result);
    }
    None
}

fn first_frame_line(word: &[u8]) -> Option<LineWord>
    ensures { result ≡ lookup first_frame_lines word.now }
{
    if word == b"tunnel".as_slice() {
        return Some(LineWord::Tunnel);
    }
    if word == b"last".as_slice() {
        return Some(LineWord::Last);
    }
    None
}

fn place_line(word: &[u8]) -> Option<LineWord>
    ensures { result ≡ lookup place_lines word.now }
{
    if word == b"tunnel".as_slice() {
        return Some(LineWord::Tunnel);
    }
    if word == b"last".as_slice() {
        return Some(LineWord::Last);
    }
    if word == b"ref".as_slice() {
        return Some(LineWord::Ref);
    }
    if word == b"index".as_slice() {
        return Some(LineWord::Element);
    }
    if word == b"field".as_slice() {
        return Some(LineWord::Field);
    }
    None
}

/// The line that a word begins at a border.
fn line_named(border: Border, word: &[u8]) -> Option<LineWord>
    ensures { result ≡ lookup (lines_of border) word.now }
{
    match border {
        Border::For => {
            if word == b"index".as_slice() {
                Some(LineWord::Index)
            } else {
                while_line(word)
            }
        }
        Border::While => while_line(word),
        Border::Case => case_line(word),
        Border::FirstFrame => first_frame_line(word),
        Border::Frame => {
            if word == b"carry".as_slice() {
                Some(LineWord::Carry)
            } else {
                first_frame_line(word)
            }
        }
        Border::InPlace => place_line(word),
    }
}

/// A shift register after its initial wire, or after `_`.
fn register_rest<'a>(alloc: Global, tokens: &'a [Token], initial: Wire) -> Read<'a, Tunnel>
    ensures { Gives result (read (register_rest initial) tokens.now) }
{
    if let Some(name) = initial {
        let ((inner, next, last), rest) = through(alloc, tokens)?;
        let line = Tunnel::Register {
            initial: Some(name),
            inner,
            next,
            last,
        };
        return Ok((line, rest));
    }
    let (ty, rest) = read_type(alloc, tokens, 8, true)?;
    let ((inner, next, last), rest) = through(alloc, rest)?;
    let line = Tunnel::Kept {
        ty,
        inner,
        next,
        last,
    };
    Ok((line, rest))
}

/// `default`, or the end of the line.
fn default_or_eol(tokens: &[Token]) -> Read<'_, bool>
    ensures { Gives result (read (take default_or_eol) tokens.now) }
{
    match tokens {
        [Token::Word(word), rest @ ..] => {
            if word.as_slice() == b"default".as_slice() {
                Ok((true, rest))
            } else {
                Err(Stop::At(tokens))
            }
        }
        [Token::Eol, rest @ ..] => Ok((false, rest)),
        _ => Err(Stop::At(tokens)),
    }
}

/// A result of a case after its word.
fn result_rest<'a>(alloc: Global, tokens: &'a [Token]) -> Read<'a, Tunnel>
    ensures { Gives result (read (line_rest LineWord.Result) tokens.now) }
{
    let (outer, rest) = wire(alloc, tokens)?;
    let (default, rest) = default_or_eol(rest)?;
    let line = Tunnel::Result { outer, default };
    if !default {
        return Ok((line, rest));
    }
    let rest = eol(rest)?;
    Ok((line, rest))
}

/// A `ref` line after its word.
fn ref_rest<'a>(alloc: Global, tokens: &'a [Token]) -> Read<'a, Tunnel>
    ensures { Gives result (read (line_rest LineWord.Ref) tokens.now) }
{
    let (reference, rest) = wire(alloc, tokens)?;
    let ((inner, next), rest) = turned(alloc, rest)?;
    let rest = arrow(rest)?;
    let (same, rest) = wire(alloc, rest)?;
    let (code, rest) = last_wire(alloc, rest)?;
    let line = Tunnel::Ref {
        reference,
        inner,
        next,
        same,
        code,
    };
    Ok((line, rest))
}

/// An `index` line of an in-place structure after its word.
fn element_rest<'a>(alloc: Global, tokens: &'a [Token]) -> Read<'a, Tunnel>
    ensures { Gives result (read (line_rest LineWord.Element) tokens.now) }
{
    let (array, rest) = wire(alloc, tokens)?;
    let (index, rest) = wire(alloc, rest)?;
    let ((inner, next, outer), rest) = through(alloc, rest)?;
    let line = Tunnel::Element {
        array,
        index,
        inner,
        next,
        outer,
    };
    Ok((line, rest))
}

/// A `field` line after its word.
fn field_rest<'a>(alloc: Global, tokens: &'a [Token]) -> Read<'a, Tunnel>
    ensures { Gives result (read (line_rest LineWord.Field) tokens.now) }
{
    let (field, rest) = field_number(tokens)?;
    let (cluster, rest) = wire(alloc, rest)?;
    let ((inner, next, outer), rest) = through(alloc, rest)?;
    let line = Tunnel::Field {
        field,
        cluster,
        inner,
        next,
        outer,
    };
    Ok((line, rest))
}

/// A line after its word.
fn line_rest<'a>(alloc: Global, tokens: &'a [Token], word: LineWord) -> Read<'a, Tunnel>
    ensures { Gives result (read (line_rest word) tokens.now) }
{
    match word {
        LineWord::Tunnel => {
            let ((outer, inner), rest) = across(alloc, tokens)?;
            Ok((Tunnel::Tunnel { outer, inner }, rest))
        }
        LineWord::Register => {
            let (initial, rest) = wire(alloc, tokens)?;
            register_rest(alloc, rest, initial)
        }
        LineWord::Last => {
            let ((inner, outer), rest) = across(alloc, tokens)?;
            Ok((Tunnel::Last { inner, outer }, rest))
        }
        LineWord::Gather => {
            let ((inner, outer), rest) = across(alloc, tokens)?;
            Ok((Tunnel::Gather { inner, outer }, rest))
        }
        LineWord::Index => {
            let ((array, inner), rest) = across(alloc, tokens)?;
            Ok((Tunnel::Index { array, inner }, rest))
        }
        LineWord::Result => result_rest(alloc, tokens),
        LineWord::Carry => {
            let ((before, inner), rest) = across(alloc, tokens)?;
            Ok((Tunnel::Carry { before, inner }, rest))
        }
        LineWord::Ref => ref_rest(alloc, tokens),
        LineWord::Element => element_rest(alloc, tokens),
        LineWord::Field => field_rest(alloc, tokens),
    }
}

/// A further line of a border, or the word that ends them.
fn line<'a>(
    alloc: Global,
    tokens: &'a [Token],
    border: Border,
    stop: &[u8],
) -> Read<'a, Turn<Tunnel, ()>>
    ensures { Turns result (read (bind (take (or_else (word_in (lines_of border)) (word stop.now))) line_or_end) tokens.now) }
{
    match tokens {
        [Token::Word(word), rest @ ..] => {
            if let Some(first) = line_named(border, word.as_slice()) {
                let (line, rest) = line_rest(alloc, rest, first)?;
                return Ok((Turn::More(line), rest));
            }
            if word.as_slice() == stop {
                return Ok((Turn::Last(()), rest));
            }
            Err(Stop::At(tokens))
        }
        _ => Err(Stop::At(tokens)),
    }
}

/// The lines of a border, up to the word that ends them.
pub fn lines<'a>(
    alloc: Global,
    tokens: &'a [Token],
    border: Border,
    stop: &[u8],
) -> Read<'a, (List<Tunnel>, ())>
    ensures { Gives result (read (lines_to border stop.now) tokens.now) }
{
    let mut found_lines = List::new(alloc);
    let mut rest = tokens;
    for _ in 0..tokens.len() {
        let (turn, after) = match line(alloc, rest, border, stop) {
            Ok(found) => found,
            Err(stop) => return Err(stop),
        };
        match turn {
            Turn::More(item) => push(&mut found_lines, item)?,
            Turn::Last(last) => return Ok(((found_lines, last), after)),
        }
        rest = after;
    }
    Err(Stop::At(rest))
}
