//! Operations on two numbers with two results, sums, and Booleans as numbers.

ghost use Rattle.std.specs.Prelude.{◌≡◌, ◌<ℤ◌, ◌-ℤ◌, IfOk, pos};
ghost use Rattle.std.specs.Int.{int_div_euclid};
ghost use Rattle.g_prims_definitions.specs.Arithmetic as spec;
ghost use Rattle.g_prims_definitions.specs.Comparisons.{truth_number};
ghost use Rattle.g_prims_edits.specs.Words.{on_numbers};
ghost use Rattle.g_types.specs.declared.rep.Rep.TheVariants as rep;
ghost use Rattle.g_prims_evaluation.specs.Accumulated.{accumulated_words};
ghost use Rattle.g_values.specs.Number.{num_of};
ghost use Rattle.g_values.specs.Numbers.{word};
ghost use Rattle.g_values.specs.declared.value.Value.TheVariants as value;

use crate::comparisons::is_below;
use crate::operands::in_rep;
use crate::outputs::two;
use g_lists::List;
use g_prims_edits::{Operator, number_of_word, on_two_words, word_of};
use g_types::{Rep, wider};
use g_values::{Num, NumArr, Value};
use std::alloc::{AllocError, Global};

/// The floor of the quotient, modulo 2^64, and 0 where the divisor is 0.
fn quotient_word(x: Num, y: Num) -> u64
    ensures { result ≡ word (spec.quotient x.n y.n) }
{
    if y.n == 0 {
        return 0;
    }
    if y.n > 0 {
        return x.n.div_euclid(y.n).rem_euclid(1 << 64) as u64;
    }
    quotient_word_below(x, y)
}

/// The number with the other sign.
fn negated(x: Num) -> i128
    ensures { result ≡ pos 0 -ℤ x.n }
{
    -x.n
}

/// The floor of the quotient by a divisor below 0.
fn floor_below(x: Num, y: Num) -> i128
    requires { y.n <ℤ pos 0 }
    ensures { result ≡ int_div_euclid (pos 0 -ℤ x.n) (pos 0 -ℤ y.n) }
{
    negated(x).div_euclid(negated(y))
}

/// The same modulo 2^64.
fn quotient_word_below(x: Num, y: Num) -> u64
    requires { y.n <ℤ pos 0 }
    ensures { result ≡ word (spec.quotient x.n y.n) }
{
    floor_below(x, y).rem_euclid(1 << 64) as u64
}

fn quotient(rep: Rep, x: Num, y: Num) -> Num
    ensures { result ≡ num_of rep (spec.quotient x.n y.n) }
{
    number_of_word(rep, quotient_word(x, y))
}

fn remainder(rep: Rep, x: Num, y: Num) -> Num
    ensures { result ≡ num_of rep (spec.remainder x.n y.n) }
{
    let product = on_two_words(Operator::Times, word_of(y), quotient_word(x, y));
    number_of_word(rep, on_two_words(Operator::Minus, word_of(x), product))
}

fn divided(alloc: Global, x: Num, y: Num) -> Result<List<Value>, AllocError>
    ensures { IfOk result (λ vs. vs ≡ spec.pair spec.quotient spec.remainder (value.Num x) (value.Num y)) }
{
    let rep = wider(x.rep, y.rep);
    let a = in_rep(rep, x);
    let b = in_rep(rep, y);
    two(
        alloc,
        Value::Num(quotient(rep, a, b)),
        Value::Num(remainder(rep, a, b)),
    )
}

/// The quotient toward the floor and what remains, of two numbers.
pub fn quotrem(alloc: Global, x: &Value, y: &Value) -> Result<List<Value>, AllocError>
    ensures { IfOk result (λ vs. vs ≡ spec.pair spec.quotient spec.remainder x.now y.now) }
{
    match x {
        Value::Num(x) => match y {
            Value::Num(y) => divided(alloc, *x, *y),
            _ => Ok(List::new(alloc)),
        },
        _ => Ok(List::new(alloc)),
    }
}

fn greater(rep: Rep, x: Num, y: Num) -> Num
    ensures { result ≡ num_of rep (spec.greater x.n y.n) }
{
    if is_below(x, y) {
        in_rep(rep, y)
    } else {
        in_rep(rep, x)
    }
}

fn lesser(rep: Rep, x: Num, y: Num) -> Num
    ensures { result ≡ num_of rep (spec.lesser x.n y.n) }
{
    if is_below(x, y) {
        in_rep(rep, x)
    } else {
        in_rep(rep, y)
    }
}

fn ordered(alloc: Global, x: Num, y: Num) -> Result<List<Value>, AllocError>
    ensures { IfOk result (λ vs. vs ≡ spec.pair spec.greater spec.lesser (value.Num x) (value.Num y)) }
{
    let rep = wider(x.rep, y.rep);
    let a = in_rep(rep, x);
    let b = in_rep(rep, y);
    two(
        alloc,
        Value::Num(greater(rep, a, b)),
        Value::Num(lesser(rep, a, b)),
    )
}

/// The greater and the lesser of two numbers.
pub fn max_min(alloc: Global, x: &Value, y: &Value) -> Result<List<Value>, AllocError>
    ensures { IfOk result (λ vs. vs ≡ spec.pair spec.greater spec.lesser x.now y.now) }
{
    match x {
        Value::Num(x) => match y {
            Value::Num(y) => ordered(alloc, *x, *y),
            _ => Ok(List::new(alloc)),
        },
        _ => Ok(List::new(alloc)),
    }
}

/// The numbers from the last to the first, taken together by the operator.
fn accumulated_word(operator: Operator, words: &[u64], empty: u64) -> u64
    ensures { result ≡ accumulated_words operator empty words.now }
{
    let mut word = empty;
    for i in 0..words.len() {
        word = on_two_words(operator, words[words.len() - 1 - i], word);
    }
    word
}

fn accumulated(operator: Operator, xs: &NumArr, empty: Num) -> Num
    ensures { result ≡ num_of xs.now.rep (spec.accumulated (on_numbers operator) empty.n xs.now.all) }
{
    number_of_word(
        xs.rep,
        accumulated_word(operator, xs.words.as_slice(), word_of(empty)),
    )
}

/// The numbers of an array, taken together by the operator, from the number of the empty array.
pub fn folded(operator: Operator, empty: Num, a: &Value) -> Value
    ensures { result ≡ spec.folded (on_numbers operator) empty.n a.now }
{
    match a {
        Value::Nums(xs) => Value::Num(accumulated(operator, xs, empty)),
        _ => Value::Bool(false),
    }
}

/// 1 for TRUE, else 0.
pub fn bool_int(b: bool) -> Value
    ensures { result ≡ spec.number rep.I16 (truth_number b) }
{
    if b {
        Value::Num(Num::wrapped(Rep::I16, 1))
    } else {
        Value::Num(Num::wrapped(Rep::I16, 0))
    }
}
