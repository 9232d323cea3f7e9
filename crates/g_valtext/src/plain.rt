//! Reading values that hold no other values.

ghost use Rattle.g_grammar.specs.Grammar.{read};
ghost use Rattle.g_grammar.specs.Reads.{Gives};
ghost use Rattle.g_valtext.specs.Spellings.{of_form};
ghost use Rattle.g_valtext.specs.Forms.{Number, Truth, Text, Null};
ghost use Rattle.g_values.specs.declared.value.Value.TheVariants as value;
ghost use Rattle.std.specs.Prelude.{None};

use crate::take::{null, number, text, truth};
use g_grammar::Stop;
use g_tokens::Token;
use g_types::{Rep, Ty};
use g_values::{RefValue, Value};
use std::alloc::Global;

/// A number of the representation.
#[tactic(auto, using(crate::proofs::Steps::by_forms))]
pub(crate) fn number_value(rep: Rep, tokens: &[Token]) -> Result<(Value, &[Token]), Stop<'_, Token>>
    ensures { Gives result (read (of_form (Number rep)) tokens.now) }
{
    let (number, rest) = number(rep, tokens)?;
    Ok((Value::Num(number), rest))
}

#[tactic(auto, using(crate::proofs::Steps::by_forms))]
pub(crate) fn truth_value(tokens: &[Token]) -> Result<(Value, &[Token]), Stop<'_, Token>>
    ensures { Gives result (read (of_form Truth) tokens.now) }
{
    let (truth, rest) = truth(tokens)?;
    Ok((Value::Bool(truth), rest))
}

#[tactic(auto, using(crate::proofs::Steps::by_forms))]
pub(crate) fn text_value(
    alloc: Global,
    tokens: &[Token],
) -> Result<(Value, &[Token]), Stop<'_, Token>>
    ensures { Gives result (read (of_form Text) tokens.now) }
{
    let (text, rest) = text(alloc, tokens)?;
    Ok((Value::Str(text), rest))
}

/// The null reference to a queue of such items.
#[tactic(auto, using(crate::proofs::Steps::by_forms))]
pub(crate) fn null_queue<'a>(
    alloc: Global,
    elem: &Ty,
    tokens: &'a [Token],
) -> Result<(Value, &'a [Token]), Stop<'a, Token>>
    ensures { Gives result (read (of_form (Null (value.Queue (record { elem = elem.now; at = None })))) tokens.now) }
{
    let rest = null(tokens)?;
    let elem = g_types::copy(alloc, elem)?;
    Ok((Value::Queue(RefValue { elem, at: None }), rest))
}

/// The null reference to a value of such a type.
#[tactic(auto, using(crate::proofs::Steps::by_forms))]
pub(crate) fn null_cell<'a>(
    alloc: Global,
    elem: &Ty,
    tokens: &'a [Token],
) -> Result<(Value, &'a [Token]), Stop<'a, Token>>
    ensures { Gives result (read (of_form (Null (value.Cell (record { elem = elem.now; at = None })))) tokens.now) }
{
    let rest = null(tokens)?;
    let elem = g_types::copy(alloc, elem)?;
    Ok((Value::Cell(RefValue { elem, at: None }), rest))
}
