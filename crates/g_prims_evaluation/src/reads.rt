//! Operations that read arrays and strings.

ghost use Rattle.std.specs.Prelude.{◌≡◌, IfOk, Some, map, pos, replicate};
ghost use Rattle.std.specs.Fmt.{signed_decimal};
ghost use Rattle.std.specs.Ordering.{int_eq};
ghost use Rattle.g_prims_definitions.specs.Arithmetic.{number, numbers_of};
ghost use Rattle.g_prims_definitions.specs.Arrays as spec;
ghost use Rattle.g_prims_definitions.specs.Comparisons as comparisons;
ghost use Rattle.g_prims_definitions.specs.Strings as strings;
ghost use Rattle.g_types.specs.declared.rep.Rep.TheVariants as rep;
ghost use Rattle.g_values.specs.Number.{num_of};
ghost use Rattle.g_values.specs.Numbers.{number as wrapped};
ghost use Rattle.g_values.specs.declared.value.Value.{out-Value};
ghost use Rattle.g_values.specs.declared.value.Value.TheVariants as value;

use crate::comparisons::{is_same_number, same};
use g_lists::List;
use g_prims_edits::{MOST, copy, count, index, number_of_word, text, word_of};
use g_types::{Bytes, Rep};
use g_values::{ArrOf, Num, NumArr, Value, ValueArr, default_of, type_of};
use itoa::Buffer;
use std::alloc::{AllocError, Global};

fn size(n: usize) -> Value
    ensures { result ≡ number rep.I32 (pos n) }
{
    Value::Num(Num::wrapped(Rep::I32, n as i128))
}

fn array_len(a: &Value) -> usize
    ensures { result ≡ spec.length_at (out-Value a.now) }
{
    match a {
        Value::Nums(xs) => xs.len(),
        Value::Arr(xs) => xs.items.len(),
        _ => 0,
    }
}

/// The number of elements.
pub fn array_size(a: &Value) -> Value
    ensures { result ≡ spec.array_size a.now }
{
    size(array_len(a))
}

/// The number of bytes.
pub fn str_len(s: &Value) -> Value
    ensures { result ≡ strings.str_len s.now }
{
    size(text(s).len())
}

fn number_in_words(rep: Rep, words: &[u64], at: usize) -> Num
    ensures { value.Num result ≡ spec.or_default_number rep (spec.element_at (map (wrapped rep) words.now) (Some at)) }
{
    match words.get(at) {
        Some(word) => number_of_word(rep, *word),
        None => Num::wrapped(rep, 0),
    }
}

fn number_at(xs: &NumArr, at: Option<usize>) -> Value
    ensures { result ≡ spec.or_default_number xs.now.rep (spec.element_at xs.now.all at) }
{
    match at {
        Some(at) => Value::Num(number_in_words(xs.rep, xs.words.as_slice(), at)),
        None => Value::Num(Num::wrapped(xs.rep, 0)),
    }
}

fn item_at(alloc: Global, xs: &ValueArr, at: Option<usize>) -> Result<Value, AllocError>
    ensures { IfOk result (λ v. v ≡ spec.or_default xs.now.elem (spec.element_at xs.now.items at)) }
{
    let Some(at) = at else {
        return default_of(alloc, &xs.elem);
    };
    match xs.items.get(at) {
        Some(item) => copy(alloc, item),
        None => default_of(alloc, &xs.elem),
    }
}

/// The element at an index, or the default.
pub fn index_array(alloc: Global, a: &Value, i: &Value) -> Result<Value, AllocError>
    ensures { IfOk result (λ v. v ≡ spec.index_array a.now i.now) }
{
    match a {
        Value::Nums(xs) => Ok(number_at(xs, index(i))),
        Value::Arr(xs) => item_at(alloc, xs, index(i)),
        _ => Ok(Value::Bool(false)),
    }
}

fn copies_of_word(alloc: Global, word: u64, n: usize) -> Result<Vec<u64>, AllocError>
    ensures { IfOk result (λ ws. ws.items ≡ replicate n word) }
{
    let mut words = Vec::new(alloc);
    words.resize(n, word)?;
    Ok(words)
}

fn copies_of_number(alloc: Global, x: Num, n: usize) -> Result<NumArr, AllocError>
    ensures { IfOk result (λ xs. xs ≡ numbers_of x.rep (replicate n x.n)) }
{
    let words = copies_of_word(alloc, word_of(x), n)?;
    Ok(NumArr { rep: x.rep, words })
}

fn copies_of_value(alloc: Global, e: &Value, n: usize) -> Result<List<Value>, AllocError>
    ensures { IfOk result (λ all. all ≡ replicate n e.now) }
{
    let mut all = List::new(alloc);
    for _at in 0..n {
        all.push(copy(alloc, e)?)?;
    }
    Ok(all)
}

/// So many copies of an element.
pub fn initialize(alloc: Global, e: &Value, n: &Value) -> Result<Value, AllocError>
    ensures { IfOk result (λ v. v ≡ spec.initialize e.now n.now) }
{
    let n = count(n).min(MOST);
    match e {
        Value::Num(x) => Ok(Value::Nums(copies_of_number(alloc, *x, n)?)),
        _ => {
            let elem = type_of(alloc, e)?;
            let items = copies_of_value(alloc, e, n)?;
            Ok(Value::Arr(ArrOf { elem, items }))
        }
    }
}

fn place_of_word(rep: Rep, words: &[u64], e: Num) -> i128
    ensures { result ≡ spec.first_place (int_eq e.n) 0 (map (wrapped rep) words.now) }
{
    for at in 0..words.len() {
        if is_same_number(e, number_of_word(rep, words[at])) {
            return at as i128;
        }
    }
    -1
}

fn place_of_number(xs: &NumArr, e: Num) -> i128
    ensures { result ≡ spec.first_place (int_eq e.n) 0 xs.now.all }
{
    place_of_word(xs.rep, xs.words.as_slice(), e)
}

fn place_of_item(items: &[Value], e: &Value) -> i128
    ensures { result ≡ spec.first_place (comparisons.same e.now) 0 items.now }
{
    for at in 0..items.len() {
        if same(e, &items[at]) {
            return at as i128;
        }
    }
    -1
}

fn number_in(rep: Rep, e: &Value) -> Num
    ensures { result ≡ num_of rep (spec.number_of e.now) }
{
    match e {
        Value::Num(x) => Num::wrapped(rep, x.n),
        _ => Num::wrapped(rep, 0),
    }
}

/// The first place of an element, or -1.
pub fn search(a: &Value, e: &Value) -> Value
    ensures { result ≡ spec.search a.now e.now }
{
    let place = match a {
        Value::Nums(xs) => place_of_number(xs, number_in(xs.rep, e)),
        Value::Arr(xs) => place_of_item(xs.items.as_slice(), e),
        _ => -1,
    };
    Value::Num(Num::wrapped(Rep::I32, place))
}

fn decimal(alloc: Global, n: i128) -> Result<Value, AllocError>
    ensures { IfOk result (λ v. v ≡ value.Str (signed_decimal n)) }
{
    let mut buffer = Buffer::new();
    let bytes = Vec::from_slice(alloc, buffer.format(n).as_bytes())?;
    Ok(Value::Str(Bytes::from_vec(bytes)))
}

/// The number in decimal.
pub fn num_str(alloc: Global, x: &Value) -> Result<Value, AllocError>
    ensures { IfOk result (λ v. v ≡ strings.num_str x.now) }
{
    match x {
        Value::Num(x) => decimal(alloc, x.n),
        _ => decimal(alloc, 0),
    }
}
