//! Arrays of numbers, changed in their buffers.

ghost use Rattle.std.specs.Prelude.{◌≡◌, ◌+◌, ◌++◌, ◌∷◌, [], IfOk, OnOk, reverse, take, drop};
ghost use Rattle.g_prims_definitions.specs.Arithmetic.{numbers_of};
ghost use Rattle.g_prims_definitions.specs.Arrays.{number_of, replaced_at, within};
ghost use Rattle.g_types.specs.Rep.{wrap};
ghost use Rattle.g_values.specs.Canonical.{canonical};
ghost use Rattle.g_values.specs.Numbers.{word};

use crate::limits::MOST;
use crate::vectors::{delete, subset};
use crate::words::{word_of, wrapped_word};
use g_types::Rep;
use g_values::{NumArr, Value};
use std::alloc::AllocError;

/// The numbers in the other order.
pub fn reversed_numbers(xs: NumArr) -> NumArr
    ensures { result ≡ numbers_of xs.rep (reverse xs.all) }
{
    let NumArr { rep, mut words } = xs;
    words.reverse();
    NumArr { rep, words }
}

/// So many numbers from a place on, cut at the end.
pub fn subset_numbers(xs: NumArr, from: usize, count: usize) -> NumArr
    ensures { result ≡ numbers_of xs.rep (take count (drop from xs.all)) }
{
    let NumArr { rep, words } = xs;
    let words = subset(words, from, count);
    NumArr { rep, words }
}

/// What remains without so many numbers from a place on, and these.
pub fn delete_numbers(xs: NumArr, from: usize, count: usize) -> Result<(NumArr, NumArr), AllocError>
    ensures rest { IfOk result (λ p. p.0 ≡ numbers_of xs.rep (take from xs.all ++ drop (from + count) xs.all)) }
    ensures cut { IfOk result (λ p. p.1 ≡ numbers_of xs.rep (take count (drop from xs.all))) }
{
    let NumArr { rep, words } = xs;
    let (words, cut) = delete(words, from, count)?;
    Ok((NumArr { rep, words }, NumArr { rep, words: cut }))
}

/// The word of a number that is put into an array.
fn word_in(rep: Rep, e: &Value) -> u64
    ensures { result ≡ canonical rep (word (number_of e.now)) }
{
    match e {
        Value::Num(x) => wrapped_word(rep, word_of(*x)),
        _ => wrapped_word(rep, 0),
    }
}

/// Another number at a place, wrapped. Out of range nothing changes.
pub fn replace_number(xs: NumArr, at: Option<usize>, e: Value) -> NumArr
    ensures { result ≡ numbers_of xs.rep (replaced_at xs.all at (wrap xs.rep (number_of e))) }
{
    let NumArr { rep, mut words } = xs;
    put(&mut words, at, word_in(rep, &e));
    NumArr { rep, words }
}

fn put(words: &mut Vec<u64>, at: Option<usize>, word: u64)
    ensures { words.new.items ≡ replaced_at words.old.items at word }
{
    let Some(at) = at else {
        return;
    };
    if at < words.len() {
        words[at] = word;
    }
}

/// An element at the end, if there is room.
pub fn build_number(xs: NumArr, e: Value) -> Result<NumArr, AllocError>
    ensures { IfOk result (λ r. r ≡ numbers_of xs.rep (within (xs.all ++ wrap xs.rep (number_of e) ∷ []))) }
{
    let NumArr { rep, mut words } = xs;
    push_within(&mut words, word_in(rep, &e))?;
    Ok(NumArr { rep, words })
}

fn push_within(words: &mut Vec<u64>, word: u64) -> Result<(), AllocError>
    ensures { OnOk result (words.new.items ≡ within (words.old.items ++ word ∷ [])) }
{
    words.push(word)?;
    words.truncate(MOST);
    Ok(())
}

/// The numbers of two arrays of one representation, as far as there is room.
pub fn concat_numbers(xs: NumArr, ys: &NumArr) -> Result<NumArr, AllocError>
    requires { xs.rep ≡ ys.now.rep }
    ensures { IfOk result (λ r. r ≡ numbers_of xs.rep (within (xs.all ++ ys.now.all))) }
{
    let NumArr { rep, mut words } = xs;
    words.extend_from_slice(ys.words.as_slice())?;
    words.truncate(MOST);
    Ok(NumArr { rep, words })
}
