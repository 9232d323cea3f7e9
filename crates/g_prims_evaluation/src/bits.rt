//! Operations bit by bit, on numbers and on Booleans.

ghost use Rattle.std.specs.Prelude.{◌≡◌, IfOk, map, not};
ghost use Rattle.std.specs.Simd.Lanes.{zip2};
ghost use Rattle.g_prims_definitions.specs.Bits as spec;
ghost use Rattle.g_prims_edits.specs.Words.{on_numbers, on_truths};
ghost use Rattle.g_values.specs.declared.value.Value.TheVariants as value;

use crate::operands::{arithmetic, number_with};
use g_lists::List;
use g_prims_edits::{Operator, combined_truth, is_true};
use g_types::Rep;
use g_values::{ArrOf, Num, Value, ValueArr};
use std::alloc::{AllocError, Global};

fn left_truths(
    alloc: Global,
    operator: Operator,
    xs: &[Value],
    b: bool,
) -> Result<List<Value>, AllocError>
    ensures { IfOk result (λ all. all ≡ map (λ x. value.Bool (on_truths operator (spec.truth x) b)) xs.now) }
{
    let mut all = List::new(alloc);
    for x in xs {
        all.push(Value::Bool(combined_truth(operator, is_true(x), b)))?;
    }
    Ok(all)
}

fn right_truths(
    alloc: Global,
    operator: Operator,
    a: bool,
    ys: &[Value],
) -> Result<List<Value>, AllocError>
    ensures { IfOk result (λ all. all ≡ map (λ y. value.Bool (on_truths operator a (spec.truth y))) ys.now) }
{
    let mut all = List::new(alloc);
    for y in ys {
        all.push(Value::Bool(combined_truth(operator, a, is_true(y))))?;
    }
    Ok(all)
}

fn zipped_truths(
    alloc: Global,
    operator: Operator,
    xs: &[Value],
    ys: &[Value],
) -> Result<List<Value>, AllocError>
    ensures { IfOk result (λ all. all ≡ zip2 (λ x y. value.Bool (on_truths operator (spec.truth x) (spec.truth y))) xs.now ys.now) }
{
    let mut all = List::new(alloc);
    for at in 0..xs.len().min(ys.len()) {
        all.push(Value::Bool(combined_truth(operator, is_true(&xs[at]), is_true(&ys[at]))))?;
    }
    Ok(all)
}

fn truth_and(alloc: Global, operator: Operator, a: bool, y: &Value) -> Result<Value, AllocError>
    ensures { IfOk result (λ v. v ≡ spec.bitwise (on_numbers operator) (on_truths operator) (value.Bool a) y.now) }
{
    match y {
        Value::Bool(b) => Ok(Value::Bool(combined_truth(operator, a, *b))),
        Value::Arr(ys) => {
            let elem = g_types::copy(alloc, &ys.elem)?;
            let items = right_truths(alloc, operator, a, ys.items.as_slice())?;
            Ok(Value::Arr(ArrOf { elem, items }))
        }
        _ => Ok(Value::Bool(false)),
    }
}

fn truths_and(
    alloc: Global,
    operator: Operator,
    xs: &ValueArr,
    y: &Value,
) -> Result<Value, AllocError>
    ensures { IfOk result (λ v. v ≡ spec.bitwise (on_numbers operator) (on_truths operator) (value.Arr xs.now) y.now) }
{
    let elem = g_types::copy(alloc, &xs.elem)?;
    match y {
        Value::Bool(b) => {
            let items = left_truths(alloc, operator, xs.items.as_slice(), *b)?;
            Ok(Value::Arr(ArrOf { elem, items }))
        }
        Value::Arr(ys) => {
            let items = zipped_truths(alloc, operator, xs.items.as_slice(), ys.items.as_slice())?;
            Ok(Value::Arr(ArrOf { elem, items }))
        }
        _ => Ok(Value::Bool(false)),
    }
}

/// Two operands, bit by bit.
pub fn bitwise(alloc: Global, operator: Operator, x: &Value, y: &Value) -> Result<Value, AllocError>
    ensures { IfOk result (λ v. v ≡ spec.bitwise (on_numbers operator) (on_truths operator) x.now y.now) }
{
    match x {
        Value::Bool(a) => truth_and(alloc, operator, *a, y),
        Value::Arr(xs) => truths_and(alloc, operator, xs, y),
        _ => arithmetic(alloc, operator, x, y),
    }
}

fn inverted_truths(alloc: Global, xs: &[Value]) -> Result<List<Value>, AllocError>
    ensures { IfOk result (λ all. all ≡ map (λ x. value.Bool (not (spec.truth x))) xs.now) }
{
    let mut all = List::new(alloc);
    for x in xs {
        all.push(Value::Bool(!is_true(x)))?;
    }
    Ok(all)
}

/// All bits turned.
pub fn inverted(alloc: Global, x: &Value) -> Result<Value, AllocError>
    ensures { IfOk result (λ v. v ≡ spec.inverted x.now) }
{
    match x {
        Value::Bool(b) => Ok(Value::Bool(!*b)),
        Value::Arr(xs) => {
            let elem = g_types::copy(alloc, &xs.elem)?;
            let items = inverted_truths(alloc, xs.items.as_slice())?;
            Ok(Value::Arr(ArrOf { elem, items }))
        }
        _ => number_with(alloc, Operator::Minus, Num::wrapped(Rep::I64, -1), x),
    }
}
