//! Arrays in ascending order.

ghost use Rattle.std.specs.Prelude.{◌≡◌, ◌+◌, ◌%◌, ◌^◌, int_lt, map};
ghost use Rattle.std.specs.Cmp.Lexicographic.{slice_cmp};
ghost use Rattle.std.specs.Ordering.{nat_cmp};
ghost use Rattle.g_prims_definitions.specs.Arithmetic.{numbers_of};
ghost use Rattle.g_prims_definitions.specs.Arrays as arrays;
ghost use Rattle.g_prims_definitions.specs.Arrays.{sorted};
ghost use Rattle.g_prims_definitions.specs.Bits.{items_of};
ghost use Rattle.g_prims_definitions.specs.Comparisons.{less};
ghost use Rattle.g_prims_definitions.specs.Strings as strings;
ghost use Rattle.g_prims_edits.specs.Texts.{AreTexts, IsSortable};
ghost use Rattle.g_prims_edits.specs.Words as spec;
ghost use Rattle.g_values.specs.Numbers.{AreWords, number};

use crate::arrays::nothing;
use crate::strings::text;
use crate::words::{Operator, on_two_words};
use g_lists::List;
use g_types::Rep;
use g_values::{ArrOf, NumArr, Value, ValueArr};
use std::cmp::Ordering;

/// What is added to a word so that words stand in the order of their numbers.
fn sign(rep: Rep) -> u64
    ensures { result ≡ spec.sign rep }
{
    if rep.is_signed() { 1 << 63 } else { 0 }
}

fn add_to_each(words: &mut Vec<u64>, by: u64)
    ensures { words.new.items ≡ map (λ w. (w + by) % 2 ^ 64) words.old.items }
{
    for at in 0..words.len() {
        words[at] = on_two_words(Operator::Plus, words[at], by);
    }
}

fn to_keys(rep: Rep, words: &mut Vec<u64>)
    ensures { words.new.items ≡ map (spec.key rep) words.old.items }
{
    add_to_each(words, sign(rep));
}

fn sort_words(rep: Rep, words: &mut Vec<u64>)
    requires { AreWords rep words.old.items }
    ensures words { AreWords rep words.new.items }
    ensures numbers { map (number rep) words.new.items ≡ sorted int_lt (map (number rep) words.old.items) }
{
    to_keys(rep, words);
    words.sort_unstable();
    to_keys(rep, words);
}

/// The numbers in ascending order.
pub fn sorted_numbers(xs: NumArr) -> NumArr
    ensures { result ≡ numbers_of xs.rep (sorted int_lt xs.all) }
{
    let NumArr { rep, mut words } = xs;
    sort_words(rep, &mut words);
    NumArr { rep, words }
}

fn compare_texts(a: &Value, b: &Value) -> Ordering
    ensures { result ≡ slice_cmp nat_cmp (strings.text a.now) (strings.text b.now) }
{
    text(a).cmp(text(b))
}

fn sort_texts(items: &mut Vec<Value>)
    requires { AreTexts items.old.items }
    ensures { items.new.items ≡ sorted less items.old.items }
{
    items.sort_unstable_by(|a, b| compare_texts(a, b));
}

fn sorted_texts(xs: ValueArr) -> ValueArr
    requires { AreTexts xs.items }
    ensures { result ≡ items_of xs (sorted less xs.items) }
{
    let ArrOf { elem, items } = xs;
    let mut items = items.into_vec();
    sort_texts(&mut items);
    let items = List::from_vec(items);
    ArrOf { elem, items }
}

/// The elements in ascending order: numbers by their values, strings by their bytes.
pub fn sort(a: Value) -> Value
    requires { IsSortable a }
    ensures { result ≡ arrays.sort a }
{
    match a {
        Value::Nums(xs) => Value::Nums(sorted_numbers(xs)),
        Value::Arr(xs) => Value::Arr(sorted_texts(xs)),
        other => nothing(other),
    }
}
