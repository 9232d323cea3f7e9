//! Operations bit by bit on the value that is kept.

ghost use Rattle.std.specs.Prelude.{◌≡◌, IfOk, map, not};
ghost use Rattle.std.specs.Simd.Lanes.{zip2};
ghost use Rattle.g_prims_definitions.specs.Bits as spec;
ghost use Rattle.g_prims_edits.specs.Words.{on_numbers, on_truths};
ghost use Rattle.g_values.specs.declared.value.Value.TheVariants as value;

use crate::elements::{kept_first, kept_second, number_with};
use g_lists::List;
use g_prims_edits::{Operator, combined_truth, copy, is_true, nothing};
use g_types::Rep;
use g_values::{ArrOf, Num, Value, ValueArr};
use std::alloc::{AllocError, Global};

fn zip_truths(operator: Operator, items: &mut Vec<Value>, other: &[Value])
    ensures { items.new.items ≡ zip2 (λ x y. value.Bool (on_truths operator (spec.truth x) (spec.truth y))) items.old.items other.now }
{
    items.truncate(other.len());
    for at in 0..items.len() {
        let b = combined_truth(operator, is_true(&items[at]), is_true(&other[at]));
        items[at] = Value::Bool(b);
    }
}

fn left_truths(operator: Operator, items: &mut Vec<Value>, by: bool)
    ensures { items.new.items ≡ map (λ x. value.Bool (on_truths operator (spec.truth x) by)) items.old.items }
{
    for at in 0..items.len() {
        let b = combined_truth(operator, is_true(&items[at]), by);
        items[at] = Value::Bool(b);
    }
}

fn right_truths(operator: Operator, by: bool, items: &mut Vec<Value>)
    ensures { items.new.items ≡ map (λ y. value.Bool (on_truths operator by (spec.truth y))) items.old.items }
{
    for at in 0..items.len() {
        let b = combined_truth(operator, by, is_true(&items[at]));
        items[at] = Value::Bool(b);
    }
}

fn turn_truths(items: &mut Vec<Value>)
    ensures { items.new.items ≡ map (λ x. value.Bool (not (spec.truth x))) items.old.items }
{
    for at in 0..items.len() {
        let b = !is_true(&items[at]);
        items[at] = Value::Bool(b);
    }
}

/// Element by element with another array of Booleans, to the smaller size.
fn zipped(operator: Operator, kept: ValueArr, other: &ValueArr) -> ValueArr
    ensures { result ≡ spec.items_of kept (zip2 (λ x y. value.Bool (on_truths operator (spec.truth x) (spec.truth y))) kept.items other.now.items) }
{
    let ArrOf { elem, items } = kept;
    let mut items = items.into_vec();
    zip_truths(operator, &mut items, other.items.as_slice());
    let items = List::from_vec(items);
    ArrOf { elem, items }
}

/// Each element and a Boolean after it.
fn left(operator: Operator, kept: ValueArr, by: bool) -> ValueArr
    ensures { result ≡ spec.items_of kept (map (λ x. value.Bool (on_truths operator (spec.truth x) by)) kept.items) }
{
    let ArrOf { elem, items } = kept;
    let mut items = items.into_vec();
    left_truths(operator, &mut items, by);
    let items = List::from_vec(items);
    ArrOf { elem, items }
}

/// Each element and a Boolean before it.
fn right(operator: Operator, by: bool, kept: ValueArr) -> ValueArr
    ensures { result ≡ spec.items_of kept (map (λ y. value.Bool (on_truths operator by (spec.truth y))) kept.items) }
{
    let ArrOf { elem, items } = kept;
    let mut items = items.into_vec();
    right_truths(operator, by, &mut items);
    let items = List::from_vec(items);
    ArrOf { elem, items }
}

fn turned(kept: ValueArr) -> ValueArr
    ensures { result ≡ spec.items_of kept (map (λ x. value.Bool (not (spec.truth x))) kept.items) }
{
    let ArrOf { elem, items } = kept;
    let mut items = items.into_vec();
    turn_truths(&mut items);
    let items = List::from_vec(items);
    ArrOf { elem, items }
}

fn truths_and(operator: Operator, kept: ValueArr, other: &Value) -> Value
    ensures { result ≡ spec.bitwise (on_numbers operator) (on_truths operator) (value.Arr kept) other.now }
{
    match other {
        Value::Bool(b) => Value::Arr(left(operator, kept, *b)),
        Value::Arr(ys) => Value::Arr(zipped(operator, kept, ys)),
        _ => Value::Bool(false),
    }
}

fn truth_and(operator: Operator, a: bool, kept: Value) -> Value
    ensures { result ≡ spec.bitwise (on_numbers operator) (on_truths operator) (value.Bool a) kept }
{
    match kept {
        Value::Bool(b) => Value::Bool(combined_truth(operator, a, b)),
        Value::Arr(ys) => Value::Arr(right(operator, a, ys)),
        rest => nothing(rest),
    }
}

/// Two operands bit by bit, of which the first is kept.
pub fn bits_first(
    alloc: Global,
    operator: Operator,
    kept: Value,
    other: &Value,
) -> Result<Value, AllocError>
    ensures { IfOk result (λ v. v ≡ spec.bitwise (on_numbers operator) (on_truths operator) kept other.now) }
{
    match kept {
        Value::Bool(a) => Ok(truth_and(operator, a, copy(alloc, other)?)),
        Value::Arr(xs) => Ok(truths_and(operator, xs, other)),
        rest => kept_first(alloc, operator, rest, other),
    }
}

/// Two operands bit by bit, of which the second is kept.
pub fn bits_second(
    alloc: Global,
    operator: Operator,
    other: &Value,
    kept: Value,
) -> Result<Value, AllocError>
    ensures { IfOk result (λ v. v ≡ spec.bitwise (on_numbers operator) (on_truths operator) other.now kept) }
{
    match other {
        Value::Bool(a) => Ok(truth_and(operator, *a, kept)),
        Value::Arr(_) => bits_first(alloc, operator, copy(alloc, other)?, &kept),
        _ => kept_second(alloc, operator, other, kept),
    }
}

/// All bits of the kept operand turned.
pub fn inverted(kept: Value) -> Value
    ensures { result ≡ spec.inverted kept }
{
    match kept {
        Value::Bool(b) => Value::Bool(!b),
        Value::Arr(xs) => Value::Arr(turned(xs)),
        rest => number_with(Operator::Minus, Num::wrapped(Rep::I64, -1), rest),
    }
}
