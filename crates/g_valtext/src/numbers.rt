//! Reading arrays of numbers.

ghost use Rattle.std.specs.Prelude.{◌≡◌};
ghost use Rattle.g_grammar.specs.Grammar.{give, read};
ghost use Rattle.g_grammar.specs.Reads.{Gives, with_front};
ghost use Rattle.g_valtext.specs.Forms.{Numbers};
ghost use Rattle.g_valtext.specs.Reads.{GivesNext, GivesNumbers};
ghost use Rattle.g_valtext.specs.Spellings as spec;
ghost use Rattle.g_valtext.specs.Spellings.{array_rest, further, most_further, number_within, of_form, turn};

use crate::take::{MOST_FURTHER, close_bracket, closed, comma_or_bracket, number, open_bracket};
use g_grammar::Stop;
use g_tokens::Token;
use g_types::Rep;
use g_values::{Num, NumArr, Value};
use std::alloc::Global;

/// An array of numbers of the representation.
pub(crate) fn numbers_value<'a>(
    alloc: Global,
    rep: Rep,
    tokens: &'a [Token],
) -> Result<(Value, &'a [Token]), Stop<'a, Token>>
    ensures { Gives result (read (of_form (Numbers rep)) tokens.now) }
{
    let rest = open_bracket(tokens)?;
    match numbers(alloc, rep, rest) {
        Ok((numbers, rest)) => Ok((Value::Nums(numbers), rest)),
        Err(stop) => Err(stop),
    }
}

/// The numbers of an array after its bracket.
fn numbers<'a>(
    alloc: Global,
    rep: Rep,
    tokens: &'a [Token],
) -> Result<(NumArr, &'a [Token]), Stop<'a, Token>>
    ensures { GivesNumbers rep result (read (array_rest (number_within rep) (λ n. give n)) tokens.now) }
{
    let mut all = NumArr::new(alloc, rep);
    if let Some(rest) = closed(tokens) {
        return Ok((all, rest));
    }
    let (number, rest) = number(rep, tokens)?;
    all.push(number)?;
    further_numbers(rep, all, rest)
}

/// A comma and one more number, or the bracket.
fn next_number(rep: Rep, tokens: &[Token]) -> Result<(Option<Num>, &[Token]), Stop<'_, Token>>
    ensures { GivesNext rep result (read (turn (spec.number rep)) tokens.now) }
{
    let (again, rest) = comma_or_bracket(tokens)?;
    if !again {
        return Ok((None, rest));
    }
    let (number, rest) = number(rep, rest)?;
    Ok((Some(number), rest))
}

/// These numbers and the further ones, up to the bracket.
fn further_numbers<'a>(
    rep: Rep,
    mut all: NumArr,
    tokens: &'a [Token],
) -> Result<(NumArr, &'a [Token]), Stop<'a, Token>>
    requires { all.rep ≡ rep }
    ensures { GivesNumbers rep result (with_front all.all (read (further (spec.number rep) most_further) tokens.now)) }
{
    let mut rest = tokens;
    for _ in 0..MOST_FURTHER {
        let (next, after) = match next_number(rep, rest) {
            Ok(found) => found,
            Err(stop) => return Err(stop),
        };
        let Some(number) = next else {
            return Ok((all, after));
        };
        all.push(number)?;
        rest = after;
    }
    match close_bracket(rest) {
        Ok(rest) => Ok((all, rest)),
        Err(stop) => Err(stop),
    }
}
