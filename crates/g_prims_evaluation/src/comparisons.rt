//! Comparisons.

ghost use Rattle.std.specs.Prelude.{◌≡◌, map, int_lt};
ghost use Rattle.std.specs.List.{list_all, list_any};
ghost use Rattle.std.specs.Cmp.Lexicographic.{pointwise, slice_cmp};
ghost use Rattle.std.specs.Ordering.{int_eq, is_lt, nat_cmp};
ghost use Rattle.g_prims_definitions.specs.Bits.{truth};
ghost use Rattle.g_prims_definitions.specs.Comparisons as spec;
ghost use Rattle.g_values.specs.Numbers.{number};
ghost use Rattle.g_values.specs.declared.value.Value.TheVariants as value;

use crate::operands::in_rep;
use g_prims_edits::{is_true, number_of_word};
use g_types::{Rep, wider};
use g_values::{Num, NumArr, Value};

/// Whether two numbers are the same.
pub fn is_same_number(x: Num, y: Num) -> bool
    ensures { result ≡ int_eq x.n y.n }
{
    x.n == y.n
}

fn are_same_words(a: Rep, xs: &[u64], b: Rep, ys: &[u64]) -> bool
    ensures { result ≡ pointwise int_eq (map (number a) xs.now) (map (number b) ys.now) }
{
    if xs.len() != ys.len() {
        return false;
    }
    for at in 0..xs.len() {
        if !is_same_number(number_of_word(a, xs[at]), number_of_word(b, ys[at])) {
            return false;
        }
    }
    true
}

fn are_same_numbers(xs: &NumArr, ys: &NumArr) -> bool
    ensures { result ≡ pointwise int_eq xs.now.all ys.now.all }
{
    are_same_words(xs.rep, xs.words.as_slice(), ys.rep, ys.words.as_slice())
}

/// Whether two values of one type that hold no reference are equal.
#[cycle(same)]
#[tactic(auto, using(crate::proofs::Equalities::equalities))]
pub fn same(a: &Value, b: &Value) -> bool
    ensures { result ≡ spec.same a.now b.now }
{
    match a {
        Value::Num(x) => match b {
            Value::Num(y) => is_same_number(*x, *y),
            _ => false,
        },
        Value::Bool(x) => match b {
            Value::Bool(y) => *x == *y,
            _ => false,
        },
        Value::Str(x) => match b {
            Value::Str(y) => x.as_slice() == y.as_slice(),
            _ => false,
        },
        Value::Nums(x) => match b {
            Value::Nums(y) => are_same_numbers(x, y),
            _ => false,
        },
        Value::Arr(x) => match b {
            Value::Arr(y) => all_same(x.items.as_slice(), y.items.as_slice()),
            _ => false,
        },
        Value::Cluster(x) => match b {
            Value::Cluster(y) => all_same(x.as_slice(), y.as_slice()),
            _ => false,
        },
        Value::Queue(_) | Value::Cell(_) => false,
    }
}

#[cycle(same)]
fn all_same(xs: &[Value], ys: &[Value]) -> bool
    ensures { result ≡ spec.all_same (map spec.same xs.now) ys.now }
{
    if xs.len() != ys.len() {
        return false;
    }
    for at in 0..xs.len() {
        if !same(&xs[at], &ys[at]) {
            return false;
        }
    }
    true
}

fn are_equal_numbers(x: Num, y: Num) -> bool
    ensures { result ≡ spec.equal (value.Num x) (value.Num y) }
{
    let rep = wider(x.rep, y.rep);
    is_same_number(in_rep(rep, x), in_rep(rep, y))
}

/// Whether two values are equal: numbers in the wider representation.
pub fn equal(a: &Value, b: &Value) -> bool
    ensures { result ≡ spec.equal a.now b.now }
{
    match a {
        Value::Num(x) => match b {
            Value::Num(y) => are_equal_numbers(*x, *y),
            _ => same(a, b),
        },
        _ => same(a, b),
    }
}

/// Whether a number is below another.
pub fn is_below(x: Num, y: Num) -> bool
    ensures { result ≡ int_lt x.n y.n }
{
    x.n < y.n
}

fn is_lesser_number(x: Num, y: Num) -> bool
    ensures { result ≡ spec.less (value.Num x) (value.Num y) }
{
    let rep = wider(x.rep, y.rep);
    is_below(in_rep(rep, x), in_rep(rep, y))
}

fn is_lesser_text(s: &[u8], t: &[u8]) -> bool
    ensures { result ≡ is_lt (slice_cmp nat_cmp s.now t.now) }
{
    s.cmp(t).is_lt()
}

/// Whether a value is less than another: numbers in the wider representation, strings by bytes.
pub fn less(a: &Value, b: &Value) -> bool
    ensures { result ≡ spec.less a.now b.now }
{
    match a {
        Value::Num(x) => match b {
            Value::Num(y) => is_lesser_number(*x, *y),
            _ => false,
        },
        Value::Str(x) => match b {
            Value::Str(y) => is_lesser_text(x.as_slice(), y.as_slice()),
            _ => false,
        },
        _ => false,
    }
}

fn all_of(items: &[Value]) -> bool
    ensures { result ≡ list_all truth items.now }
{
    for i in 0..items.len() {
        if !is_true(&items[i]) {
            return false;
        }
    }
    true
}

fn any_of(items: &[Value]) -> bool
    ensures { result ≡ list_any truth items.now }
{
    for i in 0..items.len() {
        if is_true(&items[i]) {
            return true;
        }
    }
    false
}

/// Whether all elements are TRUE.
pub fn all_true(a: &Value) -> bool
    ensures { result ≡ spec.all_true a.now }
{
    match a {
        Value::Arr(xs) => all_of(xs.items.as_slice()),
        _ => false,
    }
}

/// Whether some element is TRUE.
pub fn any_true(a: &Value) -> bool
    ensures { result ≡ spec.any_true a.now }
{
    match a {
        Value::Arr(xs) => any_of(xs.items.as_slice()),
        _ => false,
    }
}
