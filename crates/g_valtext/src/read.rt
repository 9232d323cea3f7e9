//! Reading values of a type at the front of tokens.

ghost use Rattle.std.specs.Prelude.{◌≡◌, ◌∷◌, [], ◌++◌, map, OnOk};
ghost use Rattle.g_grammar.specs.Grammar.{read};
ghost use Rattle.g_grammar.specs.Reads.{Gives, with_front};
ghost use Rattle.g_types.specs.declared.ty.Ty.{out-Ty};
ghost use Rattle.g_valtext.specs.Forms.{Parts, Items, form, forms_of, items_of, rep_of};
ghost use Rattle.g_valtext.specs.Spellings as spec;
ghost use Rattle.g_valtext.specs.Spellings.{array_rest, first_of, further, most_further, of_form, rest_of, turn, values};

use crate::numbers::numbers_value;
use crate::plain::{null_cell, null_queue, number_value, text_value, truth_value};
use crate::take::{
    MOST_FURTHER, close_brace, close_bracket, closed, comma, comma_or_bracket, open_brace,
    open_bracket,
};
use g_grammar::Stop;
use g_lists::List;
use g_tokens::Token;
use g_types::{Rep, Ty};
use g_values::{ArrOf, Value};
use std::alloc::{AllocError, Global};

/// A value of the type.
#[cycle(value)]
pub(crate) fn value<'a>(
    alloc: Global,
    ty: &Ty,
    tokens: &'a [Token],
) -> Result<(Value, &'a [Token]), Stop<'a, Token>>
    ensures { Gives result (read (values ty.now) tokens.now) }
{
    match ty {
        Ty::Num(rep) => number_value(*rep, tokens),
        Ty::Bool => truth_value(tokens),
        Ty::Str => text_value(alloc, tokens),
        Ty::Arr(elem) => array(alloc, elem.get(), tokens),
        Ty::Cluster(types) => cluster(alloc, types.as_slice(), tokens),
        Ty::QueueRef(elem) => null_queue(alloc, elem.get(), tokens),
        Ty::ValueRef(elem) => null_cell(alloc, elem.get(), tokens),
    }
}

/// The representation, where the type is one of numbers.
fn rep_of(ty: &Ty) -> Option<Rep>
    ensures { result ≡ rep_of (out-Ty ty.now) }
{
    match ty {
        Ty::Num(rep) => Some(*rep),
        _ => None,
    }
}

/// An array of elements of the type.
#[cycle(value)]
fn array<'a>(
    alloc: Global,
    elem: &Ty,
    tokens: &'a [Token],
) -> Result<(Value, &'a [Token]), Stop<'a, Token>>
    ensures { Gives result (read (of_form (items_of (rep_of (out-Ty elem.now)) elem.now (form elem.now))) tokens.now) }
{
    match rep_of(elem) {
        Some(rep) => numbers_value(alloc, rep, tokens),
        None => items_value(alloc, elem, tokens),
    }
}

/// An array of elements of a type that is no number type.
#[cycle(value)]
fn items_value<'a>(
    alloc: Global,
    elem: &Ty,
    tokens: &'a [Token],
) -> Result<(Value, &'a [Token]), Stop<'a, Token>>
    ensures { Gives result (read (of_form (Items elem.now (form elem.now))) tokens.now) }
{
    let rest = match open_bracket(tokens) {
        Ok(rest) => rest,
        Err(stop) => return Err(stop),
    };
    match items(alloc, elem, rest) {
        Ok((items, rest)) => {
            let elem = g_types::copy(alloc, elem)?;
            Ok((Value::Arr(ArrOf { elem, items }), rest))
        }
        Err(stop) => Err(stop),
    }
}

fn push(items: &mut List<Value>, item: Value) -> Result<(), AllocError>
    ensures { OnOk result (items.new ≡ items.old ++ item ∷ []) }
{
    items.push(item)?;
    Ok(())
}

/// The elements of an array after its bracket.
#[cycle(value)]
fn items<'a>(
    alloc: Global,
    elem: &Ty,
    tokens: &'a [Token],
) -> Result<(List<Value>, &'a [Token]), Stop<'a, Token>>
    ensures { Gives result (read (array_rest (first_of (form elem.now)) (rest_of (form elem.now))) tokens.now) }
{
    let mut items = List::new(alloc);
    if let Some(rest) = closed(tokens) {
        return Ok((items, rest));
    }
    let (item, rest) = match value(alloc, elem, tokens) {
        Ok(found) => found,
        Err(stop) => return Err(stop),
    };
    push(&mut items, item)?;
    further_items(alloc, elem, items, rest)
}

/// A comma and one more element, or the bracket.
#[cycle(value)]
fn next_item<'a>(
    alloc: Global,
    elem: &Ty,
    tokens: &'a [Token],
) -> Result<(Option<Value>, &'a [Token]), Stop<'a, Token>>
    ensures { Gives result (read (turn (values elem.now)) tokens.now) }
{
    let (again, rest) = comma_or_bracket(tokens)?;
    if !again {
        return Ok((None, rest));
    }
    let (item, rest) = value(alloc, elem, rest)?;
    Ok((Some(item), rest))
}

/// These elements and the further ones, up to the bracket.
#[cycle(value)]
fn further_items<'a>(
    alloc: Global,
    elem: &Ty,
    mut items: List<Value>,
    tokens: &'a [Token],
) -> Result<(List<Value>, &'a [Token]), Stop<'a, Token>>
    ensures { Gives result (with_front items (read (further (values elem.now) most_further) tokens.now)) }
{
    let mut rest = tokens;
    for _ in 0..MOST_FURTHER {
        let (next, after) = match next_item(alloc, elem, rest) {
            Ok(found) => found,
            Err(stop) => return Err(stop),
        };
        let Some(item) = next else {
            return Ok((items, after));
        };
        push(&mut items, item)?;
        rest = after;
    }
    match close_bracket(rest) {
        Ok(rest) => Ok((items, rest)),
        Err(stop) => Err(stop),
    }
}

/// A cluster, by the types of its parts.
#[cycle(value)]
fn cluster<'a>(
    alloc: Global,
    types: &[Ty],
    tokens: &'a [Token],
) -> Result<(Value, &'a [Token]), Stop<'a, Token>>
    ensures { Gives result (read (of_form (Parts (forms_of (map form types.now)))) tokens.now) }
{
    let rest = match open_brace(tokens) {
        Ok(rest) => rest,
        Err(stop) => return Err(stop),
    };
    match parts(alloc, types, rest) {
        Ok((items, rest)) => Ok((Value::Cluster(items), rest)),
        Err(stop) => Err(stop),
    }
}

/// A comma and one more part.
#[cycle(value)]
fn next_part<'a>(
    alloc: Global,
    ty: &Ty,
    tokens: &'a [Token],
) -> Result<(Value, &'a [Token]), Stop<'a, Token>>
    ensures { Gives result (read (spec.part (values ty.now)) tokens.now) }
{
    let rest = comma(tokens)?;
    value(alloc, ty, rest)
}

/// The parts of a cluster after its brace, one of each type.
#[cycle(value)]
fn parts<'a>(
    alloc: Global,
    types: &[Ty],
    tokens: &'a [Token],
) -> Result<(List<Value>, &'a [Token]), Stop<'a, Token>>
    ensures { Gives result (read (spec.parts (map values types.now)) tokens.now) }
{
    let mut items = List::new(alloc);
    if types.is_empty() {
        let rest = close_brace(tokens)?;
        return Ok((items, rest));
    }
    let (item, mut rest) = match value(alloc, &types[0], tokens) {
        Ok(found) => found,
        Err(stop) => return Err(stop),
    };
    push(&mut items, item)?;
    for i in 1..types.len() {
        let (item, after) = match next_part(alloc, &types[i], rest) {
            Ok(found) => found,
            Err(stop) => return Err(stop),
        };
        push(&mut items, item)?;
        rest = after;
    }
    match close_brace(rest) {
        Ok(rest) => Ok((items, rest)),
        Err(stop) => Err(stop),
    }
}
