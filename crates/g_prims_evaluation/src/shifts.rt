//! The bits of a number, moved.

ghost use Rattle.std.specs.Prelude.{◌≡◌, ◌<◌, ◌%◌, ◌*◌, ◌/◌, ◌^◌, cond, nat_lt, pos};
ghost use Rattle.g_prims_definitions.specs.Bits as spec;
ghost use Rattle.g_types.specs.Rep.{size, width};
ghost use Rattle.g_values.specs.Number.{num_of};

use g_prims_edits::{number_of_word, word_of};
use g_types::Rep;
use g_values::{Num, Value};

fn low_bits(rep: Rep, word: u64) -> u64
    ensures { result ≡ word % size rep }
{
    word & rep.mask()
}

/// The bits of a number, as a word without a sign.
fn bits_of(x: Num) -> u64
    ensures { result ≡ spec.bits x.rep x.n }
{
    low_bits(x.rep, word_of(x))
}

/// A word, moved to the left. What passes its top is lost.
fn moved_left(word: u64, by: u32) -> u64
    requires { by < 64 }
    ensures { result ≡ word * 2 ^ by % 2 ^ 64 }
{
    word << by
}

/// A word, moved to the right. What passes its low end is lost.
fn moved_right(word: u64, by: u32) -> u64
    requires { by < 64 }
    ensures { result ≡ word / 2 ^ by }
{
    word >> by
}

/// A number whose bits are moved to the left.
fn shifted_left(x: Num, by: u128) -> Num
    ensures { result ≡ num_of x.rep (cond (nat_lt by (width x.rep)) (pos (spec.bits x.rep x.n * 2 ^ by)) (pos 0)) }
{
    if by >= u128::from(x.rep.width()) {
        return Num::wrapped(x.rep, 0);
    }
    number_of_word(x.rep, moved_left(bits_of(x), by as u32))
}

/// A number whose bits are moved to the right.
fn shifted_right(x: Num, by: u128) -> Num
    ensures { result ≡ num_of x.rep (cond (nat_lt by (width x.rep)) (pos (spec.bits x.rep x.n / 2 ^ by)) (pos 0)) }
{
    if by >= u128::from(x.rep.width()) {
        return Num::wrapped(x.rep, 0);
    }
    number_of_word(x.rep, moved_right(bits_of(x), by as u32))
}

fn shifted(x: Num, n: Num) -> Num
    ensures { result ≡ num_of x.rep (spec.shifted x.rep x.n n.n) }
{
    let by = n.n.unsigned_abs();
    if n.n < 0 {
        shifted_right(x, by)
    } else {
        shifted_left(x, by)
    }
}

/// The bits of a number, moved to the left by a number above 0, to the right by one below, without the
/// sign. By the width or more nothing is left.
pub fn shift(x: &Value, n: &Value) -> Value
    ensures { result ≡ spec.shift x.now n.now }
{
    match x {
        Value::Num(x) => match n {
            Value::Num(n) => Value::Num(shifted(*x, *n)),
            _ => Value::Bool(false),
        },
        _ => Value::Bool(false),
    }
}
