//! Operands.

ghost use Rattle.g_grammar.specs.Grammar.{read, take, bind, or_else};
ghost use Rattle.g_grammar.specs.Reads.{Gives, Turns, fronts};
ghost use Rattle.g_listing_grammar.specs.Words.{wire, eol, arrow_or_eol};
ghost use Rattle.g_listing_grammar.specs.Borders.{wires_to, item_or_end, outputs, operands, last_wire, to_wire, across, turned, through};

use crate::marks::{arrow, bar, eol};
use crate::read::{Read, push};
use crate::words::wire;
use g_diagram::Wire;
use g_grammar::{Stop, Turn};
use g_lists::List;
use g_tokens::{Mark, Token};
use std::alloc::Global;

/// The last operand of a line.
pub fn last_wire<'a>(alloc: Global, tokens: &'a [Token]) -> Read<'a, Wire>
    ensures { Gives result (read last_wire tokens.now) }
{
    let (out, rest) = wire(alloc, tokens)?;
    let rest = eol(rest)?;
    Ok((out, rest))
}

/// `-> out` up to the end of the line.
pub fn to_wire<'a>(alloc: Global, tokens: &'a [Token]) -> Read<'a, Wire>
    ensures { Gives result (read to_wire tokens.now) }
{
    let rest = arrow(tokens)?;
    last_wire(alloc, rest)
}

/// `in -> out` up to the end of the line.
pub fn across<'a>(alloc: Global, tokens: &'a [Token]) -> Read<'a, (Wire, Wire)>
    ensures { Gives result (read across tokens.now) }
{
    let (from, rest) = wire(alloc, tokens)?;
    let (to, rest) = to_wire(alloc, rest)?;
    Ok(((from, to), rest))
}

/// `-> out | in`
pub(crate) fn turned<'a>(alloc: Global, tokens: &'a [Token]) -> Read<'a, (Wire, Wire)>
    ensures { Gives result (read turned tokens.now) }
{
    let rest = arrow(tokens)?;
    let (out, rest) = wire(alloc, rest)?;
    let rest = bar(rest)?;
    let (next, rest) = wire(alloc, rest)?;
    Ok(((out, next), rest))
}

/// `-> out | in -> out` up to the end of the line.
pub(crate) fn through<'a>(alloc: Global, tokens: &'a [Token]) -> Read<'a, (Wire, Wire, Wire)>
    ensures { Gives result (read through tokens.now) }
{
    let ((inner, next), rest) = turned(alloc, tokens)?;
    let (outer, rest) = to_wire(alloc, rest)?;
    Ok(((inner, next, outer), rest))
}

/// A further input; or an arrow, or the end of the line.
fn input<'a>(alloc: Global, tokens: &'a [Token]) -> Read<'a, Turn<Wire, bool>>
    ensures { Turns result (read (bind (take (or_else wire arrow_or_eol)) item_or_end) tokens.now) }
{
    match tokens {
        [Token::Word(name), rest @ ..] => {
            let name = List::from_slice(alloc, name.as_slice())?;
            Ok((Turn::More(Some(name)), rest))
        }
        [Token::Mark(Mark::Unwired), rest @ ..] => Ok((Turn::More(None), rest)),
        [Token::Mark(Mark::Arrow), rest @ ..] => Ok((Turn::Last(true), rest)),
        [Token::Eol, rest @ ..] => Ok((Turn::Last(false), rest)),
        _ => Err(Stop::At(tokens)),
    }
}

/// A further output, or the end of the line.
fn output<'a>(alloc: Global, tokens: &'a [Token]) -> Read<'a, Turn<Wire, ()>>
    ensures { Turns result (read (bind (take (or_else wire eol)) item_or_end) tokens.now) }
{
    match tokens {
        [Token::Word(name), rest @ ..] => {
            let name = List::from_slice(alloc, name.as_slice())?;
            Ok((Turn::More(Some(name)), rest))
        }
        [Token::Mark(Mark::Unwired), rest @ ..] => Ok((Turn::More(None), rest)),
        [Token::Eol, rest @ ..] => Ok((Turn::Last(()), rest)),
        _ => Err(Stop::At(tokens)),
    }
}

/// The inputs, and whether outputs follow.
fn inputs<'a>(alloc: Global, tokens: &'a [Token]) -> Read<'a, (List<Wire>, bool)>
    ensures { Gives result (read (wires_to arrow_or_eol) tokens.now) }
{
    let mut wires = List::new(alloc);
    let mut rest = tokens;
    for _ in 0..tokens.len() {
        let (turn, after) = match input(alloc, rest) {
            Ok(found) => found,
            Err(stop) => return Err(stop),
        };
        match turn {
            Turn::More(item) => push(&mut wires, item)?,
            Turn::Last(last) => return Ok(((wires, last), after)),
        }
        rest = after;
    }
    Err(Stop::At(rest))
}

/// These outputs and the further ones.
fn more_outputs<'a>(
    alloc: Global,
    mut wires: List<Wire>,
    tokens: &'a [Token],
) -> Read<'a, List<Wire>>
    ensures { Gives result (fronts wires (read (wires_to eol) tokens.now)) }
{
    let mut rest = tokens;
    for _ in 0..tokens.len() {
        let (turn, after) = match output(alloc, rest) {
            Ok(found) => found,
            Err(stop) => return Err(stop),
        };
        match turn {
            Turn::More(item) => push(&mut wires, item)?,
            Turn::Last(()) => return Ok((wires, after)),
        }
        rest = after;
    }
    Err(Stop::At(rest))
}

/// The outputs behind an arrow, if there is one.
fn outputs<'a>(alloc: Global, tokens: &'a [Token], some: bool) -> Read<'a, List<Wire>>
    ensures { Gives result (read (outputs some) tokens.now) }
{
    let mut wires = List::new(alloc);
    if !some {
        return Ok((wires, tokens));
    }
    let (first, rest) = wire(alloc, tokens)?;
    push(&mut wires, first)?;
    more_outputs(alloc, wires, rest)
}

/// The inputs and the outputs of an operation or a call, up to the end of the line.
pub(crate) fn operands<'a>(alloc: Global, tokens: &'a [Token]) -> Read<'a, (List<Wire>, List<Wire>)>
    ensures { Gives result (read operands tokens.now) }
{
    let ((inputs, some), rest) = inputs(alloc, tokens)?;
    let (outputs, rest) = outputs(alloc, rest, some)?;
    Ok(((inputs, outputs), rest))
}
