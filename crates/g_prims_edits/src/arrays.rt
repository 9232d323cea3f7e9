//! Operations that change an array in its buffer. What is no array gives FALSE, since it has no row.

ghost use Rattle.std.specs.Prelude.{◌≡◌, IfOk};
ghost use Rattle.g_prims_definitions.specs.Arithmetic as arithmetic;
ghost use Rattle.g_prims_definitions.specs.Arrays as spec;
ghost use Rattle.g_values.specs.Value.{type_of};
ghost use Rattle.g_values.specs.declared.value.Value.{out-Value};
ghost use Rattle.g_values.specs.declared.value.Value.TheVariants as value;

use crate::counts::{count, index};
use crate::items::{
    build_item, concat_items, delete_items, replace_item, reversed_items, subset_items,
};
use crate::numbers::{
    build_number, concat_numbers, delete_numbers, replace_number, reversed_numbers, subset_numbers,
};
use g_values::{NumArr, Value, ValueArr};
use std::alloc::{AllocError, Global};

/// What has no row is let go.
pub fn nothing(_value: Value) -> Value
    ensures { result ≡ arithmetic.nothing }
{
    Value::Bool(false)
}

/// The elements in the other order.
pub fn reversed(a: Value) -> Value
    ensures { result ≡ spec.reversed a }
{
    match a {
        Value::Nums(xs) => Value::Nums(reversed_numbers(xs)),
        Value::Arr(xs) => Value::Arr(reversed_items(xs)),
        other => nothing(other),
    }
}

/// `n` elements from place `i`, cut at the end.
pub fn array_subset(a: Value, i: &Value, n: &Value) -> Value
    ensures { result ≡ spec.array_subset a i.now n.now }
{
    match a {
        Value::Nums(xs) => Value::Nums(subset_numbers(xs, count(i), count(n))),
        Value::Arr(xs) => Value::Arr(subset_items(xs, count(i), count(n))),
        other => nothing(other),
    }
}

fn both_numbers(parts: (NumArr, NumArr)) -> (Value, Value)
    ensures rest { result.0 ≡ value.Nums parts.0 }
    ensures cut { result.1 ≡ value.Nums parts.1 }
{
    let (rest, cut) = parts;
    (Value::Nums(rest), Value::Nums(cut))
}

fn both_items(parts: (ValueArr, ValueArr)) -> (Value, Value)
    ensures rest { result.0 ≡ value.Arr parts.0 }
    ensures cut { result.1 ≡ value.Arr parts.1 }
{
    let (rest, cut) = parts;
    (Value::Arr(rest), Value::Arr(cut))
}

/// What remains without `n` elements from place `i`, and these.
pub fn delete(alloc: Global, a: Value, i: &Value, n: &Value) -> Result<(Value, Value), AllocError>
    ensures rest { IfOk result (λ p. p.0 ≡ spec.deleted_at (out-Value a) (spec.number_of i.now) (spec.number_of n.now)) }
    ensures cut { IfOk result (λ p. p.1 ≡ spec.array_subset a i.now n.now) }
{
    match a {
        Value::Nums(xs) => Ok(both_numbers(delete_numbers(xs, count(i), count(n))?)),
        Value::Arr(xs) => Ok(both_items(delete_items(alloc, xs, count(i), count(n))?)),
        other => Ok((nothing(other), Value::Bool(false))),
    }
}

/// The array with another element at a place. Out of range nothing changes.
pub fn replace(a: Value, i: &Value, e: Value) -> Value
    ensures { result ≡ spec.replace a i.now e }
{
    match a {
        Value::Nums(xs) => Value::Nums(replace_number(xs, index(i), e)),
        Value::Arr(xs) => Value::Arr(replace_item(xs, index(i), e)),
        other => nothing(other),
    }
}

/// The array with an element at the end, if there is room.
pub fn build(a: Value, e: Value) -> Result<Value, AllocError>
    ensures { IfOk result (λ v. v ≡ spec.build a e) }
{
    match a {
        Value::Nums(xs) => Ok(Value::Nums(build_number(xs, e)?)),
        Value::Arr(xs) => Ok(Value::Arr(build_item(xs, e)?)),
        other => Ok(nothing(other)),
    }
}

fn concat_to_numbers(xs: NumArr, b: &Value) -> Result<Value, AllocError>
    requires { type_of (value.Nums xs) ≡ type_of b.now }
    ensures { IfOk result (λ v. v ≡ spec.concat (value.Nums xs) b.now) }
{
    match b {
        Value::Nums(ys) => Ok(Value::Nums(concat_numbers(xs, ys)?)),
        _ => Ok(Value::Bool(false)),
    }
}

fn concat_to_items(alloc: Global, xs: ValueArr, b: &Value) -> Result<Value, AllocError>
    ensures { IfOk result (λ v. v ≡ spec.concat (value.Arr xs) b.now) }
{
    match b {
        Value::Arr(ys) => Ok(Value::Arr(concat_items(alloc, xs, ys)?)),
        _ => Ok(Value::Bool(false)),
    }
}

/// The elements of an array, and then those of another of the same type, as far as there is room.
pub fn concat(alloc: Global, a: Value, b: &Value) -> Result<Value, AllocError>
    requires { type_of a ≡ type_of b.now }
    ensures { IfOk result (λ v. v ≡ spec.concat a b.now) }
{
    match a {
        Value::Nums(xs) => concat_to_numbers(xs, b),
        Value::Arr(xs) => concat_to_items(alloc, xs, b),
        other => Ok(nothing(other)),
    }
}
