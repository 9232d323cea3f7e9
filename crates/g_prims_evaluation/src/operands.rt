//! Arithmetic, by a plain program.

ghost use Rattle.std.specs.Prelude.{◌≡◌, IfOk, map};
ghost use Rattle.std.specs.Simd.Lanes.{zip2};
ghost use Rattle.g_prims_definitions.specs.Arithmetic as spec;
ghost use Rattle.g_prims_edits.specs.Words as by_words;
ghost use Rattle.g_prims_edits.specs.Words.{on_numbers, result_word};
ghost use Rattle.g_values.specs.Canonical.{canonical};
ghost use Rattle.g_values.specs.Coerce.{coerced_numbers};
ghost use Rattle.g_values.specs.Number.{num_of};
ghost use Rattle.g_values.specs.declared.value.Value.TheVariants as value;

use g_prims_edits::{
    Operator, absolute_number, absolute_word, combined_number, combined_word, word_of, wrapped_word,
};
use g_types::{Rep, wider};
use g_values::{Num, NumArr, Value};
use std::alloc::{AllocError, Global};

fn zipped_words(
    alloc: Global,
    operator: Operator,
    rep: Rep,
    xs: &[u64],
    ys: &[u64],
) -> Result<Vec<u64>, AllocError>
    ensures { IfOk result (λ ws. ws.items ≡ zip2 (result_word operator rep) xs.now ys.now) }
{
    let len = xs.len().min(ys.len());
    let mut words = Vec::with_capacity(alloc, len)?;
    for at in 0..len {
        words.push(combined_word(operator, rep, xs[at], ys[at]))?;
    }
    Ok(words)
}

fn left_words(
    alloc: Global,
    operator: Operator,
    rep: Rep,
    xs: &[u64],
    by: u64,
) -> Result<Vec<u64>, AllocError>
    ensures { IfOk result (λ ws. ws.items ≡ map (λ w. result_word operator rep w by) xs.now) }
{
    let mut words = Vec::with_capacity(alloc, xs.len())?;
    for x in xs {
        words.push(combined_word(operator, rep, *x, by))?;
    }
    Ok(words)
}

fn right_words(
    alloc: Global,
    operator: Operator,
    rep: Rep,
    by: u64,
    ys: &[u64],
) -> Result<Vec<u64>, AllocError>
    ensures { IfOk result (λ ws. ws.items ≡ map (λ w. result_word operator rep by w) ys.now) }
{
    let mut words = Vec::with_capacity(alloc, ys.len())?;
    for y in ys {
        words.push(combined_word(operator, rep, by, *y))?;
    }
    Ok(words)
}

/// The number, in a representation.
pub fn in_rep(rep: Rep, x: Num) -> Num
    ensures { result ≡ num_of rep x.n }
{
    Num::wrapped(rep, x.n)
}

/// Two arrays, element by element to the smaller size.
fn zipped(alloc: Global, operator: Operator, xs: &NumArr, ys: &NumArr) -> Result<NumArr, AllocError>
    ensures { IfOk result (λ zs. zs ≡ spec.zipped (on_numbers operator) xs.now ys.now) }
{
    let rep = wider(xs.rep, ys.rep);
    let words = zipped_words(
        alloc,
        operator,
        rep,
        xs.words.as_slice(),
        ys.words.as_slice(),
    )?;
    Ok(NumArr { rep, words })
}

/// Each element and a number.
pub fn left(
    alloc: Global,
    operator: Operator,
    rep: Rep,
    xs: &NumArr,
    y: Num,
) -> Result<NumArr, AllocError>
    ensures { IfOk result (λ zs. zs ≡ spec.left (on_numbers operator) rep xs.now y.n) }
{
    let words = left_words(alloc, operator, rep, xs.words.as_slice(), word_of(y))?;
    Ok(NumArr { rep, words })
}

/// A number and each element.
pub fn right(
    alloc: Global,
    operator: Operator,
    rep: Rep,
    x: Num,
    ys: &NumArr,
) -> Result<NumArr, AllocError>
    ensures { IfOk result (λ zs. zs ≡ spec.right (on_numbers operator) rep x.n ys.now) }
{
    let words = right_words(alloc, operator, rep, word_of(x), ys.words.as_slice())?;
    Ok(NumArr { rep, words })
}

fn number_and(alloc: Global, operator: Operator, x: Num, y: &Value) -> Result<Value, AllocError>
    ensures { IfOk result (λ v. v ≡ spec.arithmetic (on_numbers operator) (value.Num x) y.now) }
{
    match y {
        Value::Num(y) => Ok(Value::Num(combined_number(operator, wider(x.rep, y.rep), x, *y))),
        Value::Nums(ys) => Ok(Value::Nums(right(alloc, operator, wider(x.rep, ys.rep), x, ys)?)),
        _ => Ok(Value::Bool(false)),
    }
}

fn numbers_and(
    alloc: Global,
    operator: Operator,
    xs: &NumArr,
    y: &Value,
) -> Result<Value, AllocError>
    ensures { IfOk result (λ v. v ≡ spec.arithmetic (on_numbers operator) (value.Nums xs.now) y.now) }
{
    match y {
        Value::Num(y) => Ok(Value::Nums(left(alloc, operator, wider(xs.rep, y.rep), xs, *y)?)),
        Value::Nums(ys) => Ok(Value::Nums(zipped(alloc, operator, xs, ys)?)),
        _ => Ok(Value::Bool(false)),
    }
}

/// Two operands, in the wider representation and wrapped.
pub fn arithmetic(
    alloc: Global,
    operator: Operator,
    x: &Value,
    y: &Value,
) -> Result<Value, AllocError>
    ensures { IfOk result (λ v. v ≡ spec.arithmetic (on_numbers operator) x.now y.now) }
{
    match x {
        Value::Num(x) => number_and(alloc, operator, *x, y),
        Value::Nums(xs) => numbers_and(alloc, operator, xs, y),
        _ => Ok(Value::Bool(false)),
    }
}

/// One operand and a number that stands after it, in the operand's representation.
pub fn with_number(
    alloc: Global,
    operator: Operator,
    x: &Value,
    by: Num,
) -> Result<Value, AllocError>
    ensures { IfOk result (λ v. v ≡ spec.each (λ n. on_numbers operator n by.n) x.now) }
{
    match x {
        Value::Num(x) => Ok(Value::Num(combined_number(operator, x.rep, *x, by))),
        Value::Nums(xs) => Ok(Value::Nums(left(alloc, operator, xs.rep, xs, by)?)),
        _ => Ok(Value::Bool(false)),
    }
}

/// One operand and a number that stands before it.
pub fn number_with(
    alloc: Global,
    operator: Operator,
    by: Num,
    x: &Value,
) -> Result<Value, AllocError>
    ensures { IfOk result (λ v. v ≡ spec.each (λ n. on_numbers operator by.n n) x.now) }
{
    match x {
        Value::Num(x) => Ok(Value::Num(combined_number(operator, x.rep, by, *x))),
        Value::Nums(xs) => Ok(Value::Nums(right(alloc, operator, xs.rep, by, xs)?)),
        _ => Ok(Value::Bool(false)),
    }
}

fn absolute_words(alloc: Global, rep: Rep, words: &[u64]) -> Result<Vec<u64>, AllocError>
    ensures { IfOk result (λ ws. ws.items ≡ map (by_words.absolute_word rep) words.now) }
{
    let mut all = Vec::with_capacity(alloc, words.len())?;
    for word in words {
        all.push(absolute_word(rep, *word))?;
    }
    Ok(all)
}

fn absolutes(alloc: Global, xs: &NumArr) -> Result<NumArr, AllocError>
    ensures { IfOk result (λ zs. zs ≡ spec.mapped spec.absolute xs.now) }
{
    let words = absolute_words(alloc, xs.rep, xs.words.as_slice())?;
    Ok(NumArr { rep: xs.rep, words })
}

/// Without its sign, wrapped.
pub fn absolute(alloc: Global, x: &Value) -> Result<Value, AllocError>
    ensures { IfOk result (λ v. v ≡ spec.each spec.absolute x.now) }
{
    match x {
        Value::Num(x) => Ok(Value::Num(absolute_number(*x))),
        Value::Nums(xs) => Ok(Value::Nums(absolutes(alloc, xs)?)),
        _ => Ok(Value::Bool(false)),
    }
}

/// Wrapped into another representation.
pub fn converted(alloc: Global, rep: Rep, x: &Value) -> Result<Value, AllocError>
    ensures { IfOk result (λ v. v ≡ spec.converted rep x.now) }
{
    match x {
        Value::Num(x) => Ok(Value::Num(Num::wrapped(rep, x.n))),
        Value::Nums(xs) => Ok(Value::Nums(converted_numbers(alloc, rep, xs)?)),
        _ => Ok(Value::Bool(false)),
    }
}

fn converted_words(alloc: Global, rep: Rep, words: &[u64]) -> Result<Vec<u64>, AllocError>
    ensures { IfOk result (λ ws. ws.items ≡ map (canonical rep) words.now) }
{
    let mut all = Vec::with_capacity(alloc, words.len())?;
    for word in words {
        all.push(wrapped_word(rep, *word))?;
    }
    Ok(all)
}

fn converted_numbers(alloc: Global, rep: Rep, xs: &NumArr) -> Result<NumArr, AllocError>
    ensures { IfOk result (λ zs. zs ≡ coerced_numbers rep xs.now) }
{
    let words = converted_words(alloc, rep, xs.words.as_slice())?;
    Ok(NumArr { rep, words })
}
