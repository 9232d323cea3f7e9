//! Arithmetic on the value that is kept.

ghost use Rattle.std.specs.Prelude.{◌≡◌, IfOk, map};
ghost use Rattle.g_prims_definitions.specs.Arithmetic as spec;
ghost use Rattle.g_prims_edits.specs.Words as by_words;
ghost use Rattle.g_prims_edits.specs.Words.{on_numbers};
ghost use Rattle.g_values.specs.Coerce.{coerced_numbers};
ghost use Rattle.g_values.specs.declared.value.Value.TheVariants as value;

use crate::numbers::{left, right, zipped};
use g_prims_edits::{Operator, absolute_number, absolute_word, combined_number, nothing};
use g_types::{Rep, wider};
use g_values::{Copies, Num, NumArr, Value};
use std::alloc::{AllocError, Global};

fn number_and(
    alloc: Global,
    operator: Operator,
    kept: Num,
    other: &Value,
) -> Result<Value, AllocError>
    ensures { IfOk result (λ v. v ≡ spec.arithmetic (on_numbers operator) (value.Num kept) other.now) }
{
    match other {
        Value::Num(y) => Ok(Value::Num(combined_number(
            operator,
            wider(kept.rep, y.rep),
            kept,
            *y,
        ))),
        Value::Nums(ys) => {
            let rep = wider(kept.rep, ys.rep);
            Ok(Value::Nums(right(operator, rep, kept, ys.copy(alloc, &mut Copies { n: 0 })?)))
        }
        _ => Ok(Value::Bool(false)),
    }
}

fn numbers_and(operator: Operator, kept: NumArr, other: &Value) -> Value
    ensures { result ≡ spec.arithmetic (on_numbers operator) (value.Nums kept) other.now }
{
    match other {
        Value::Num(y) => Value::Nums(left(operator, wider(kept.rep, y.rep), kept, *y)),
        Value::Nums(ys) => Value::Nums(zipped(operator, kept, ys)),
        _ => Value::Bool(false),
    }
}

/// Two operands, of which the first is kept.
pub fn kept_first(
    alloc: Global,
    operator: Operator,
    kept: Value,
    other: &Value,
) -> Result<Value, AllocError>
    ensures { IfOk result (λ v. v ≡ spec.arithmetic (on_numbers operator) kept other.now) }
{
    match kept {
        Value::Num(x) => number_and(alloc, operator, x, other),
        Value::Nums(xs) => Ok(numbers_and(operator, xs, other)),
        rest => Ok(nothing(rest)),
    }
}

fn and_number(
    alloc: Global,
    operator: Operator,
    other: &Value,
    kept: Num,
) -> Result<Value, AllocError>
    ensures { IfOk result (λ v. v ≡ spec.arithmetic (on_numbers operator) other.now (value.Num kept)) }
{
    match other {
        Value::Num(x) => Ok(Value::Num(combined_number(
            operator,
            wider(x.rep, kept.rep),
            *x,
            kept,
        ))),
        Value::Nums(xs) => {
            let rep = wider(xs.rep, kept.rep);
            Ok(Value::Nums(left(operator, rep, xs.copy(alloc, &mut Copies { n: 0 })?, kept)))
        }
        _ => Ok(Value::Bool(false)),
    }
}

fn and_numbers(
    alloc: Global,
    operator: Operator,
    other: &Value,
    kept: NumArr,
) -> Result<Value, AllocError>
    ensures { IfOk result (λ v. v ≡ spec.arithmetic (on_numbers operator) other.now (value.Nums kept)) }
{
    match other {
        Value::Num(x) => Ok(Value::Nums(right(operator, wider(x.rep, kept.rep), *x, kept))),
        Value::Nums(xs) => Ok(Value::Nums(zipped(
            operator,
            xs.copy(alloc, &mut Copies { n: 0 })?,
            &kept,
        ))),
        _ => Ok(Value::Bool(false)),
    }
}

/// Two operands, of which the second is kept.
pub fn kept_second(
    alloc: Global,
    operator: Operator,
    other: &Value,
    kept: Value,
) -> Result<Value, AllocError>
    ensures { IfOk result (λ v. v ≡ spec.arithmetic (on_numbers operator) other.now kept) }
{
    match kept {
        Value::Num(y) => and_number(alloc, operator, other, y),
        Value::Nums(ys) => and_numbers(alloc, operator, other, ys),
        rest => Ok(nothing(rest)),
    }
}

/// The kept operand and a number after it, in the operand's representation.
pub fn with_number(operator: Operator, kept: Value, by: Num) -> Value
    ensures { result ≡ spec.each (λ n. on_numbers operator n by.n) kept }
{
    match kept {
        Value::Num(x) => Value::Num(combined_number(operator, x.rep, x, by)),
        Value::Nums(xs) => {
            let rep = xs.rep;
            Value::Nums(left(operator, rep, xs, by))
        }
        rest => nothing(rest),
    }
}

/// The kept operand and a number before it.
pub fn number_with(operator: Operator, by: Num, kept: Value) -> Value
    ensures { result ≡ spec.each (λ n. on_numbers operator by.n n) kept }
{
    match kept {
        Value::Num(x) => Value::Num(combined_number(operator, x.rep, by, x)),
        Value::Nums(xs) => {
            let rep = xs.rep;
            Value::Nums(right(operator, rep, by, xs))
        }
        rest => nothing(rest),
    }
}

/// The kept operand, wrapped into another representation.
pub fn converted(rep: Rep, kept: Value) -> Value
    ensures { result ≡ spec.converted rep kept }
{
    match kept {
        Value::Num(x) => Value::Num(Num::wrapped(rep, x.n)),
        Value::Nums(xs) => Value::Nums(converted_numbers(rep, xs)),
        rest => nothing(rest),
    }
}

fn converted_numbers(rep: Rep, kept: NumArr) -> NumArr
    ensures { result ≡ coerced_numbers rep kept }
{
    left(Operator::Plus, rep, kept, Num::wrapped(Rep::I64, 0))
}

fn absolute_words(rep: Rep, words: &mut Vec<u64>)
    ensures { words.new.items ≡ map (by_words.absolute_word rep) words.old.items }
{
    for at in 0..words.len() {
        words[at] = absolute_word(rep, words[at]);
    }
}

fn absolutes(kept: NumArr) -> NumArr
    ensures { result ≡ spec.mapped spec.absolute kept }
{
    let NumArr { rep, mut words } = kept;
    absolute_words(rep, &mut words);
    NumArr { rep, words }
}

/// The kept operand without its sign, wrapped.
pub fn absolute(kept: Value) -> Value
    ensures { result ≡ spec.each spec.absolute kept }
{
    match kept {
        Value::Num(x) => Value::Num(absolute_number(x)),
        Value::Nums(xs) => Value::Nums(absolutes(xs)),
        rest => nothing(rest),
    }
}
