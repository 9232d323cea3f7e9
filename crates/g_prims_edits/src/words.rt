//! Words of numbers: a word is its number modulo 2^64.

ghost use Rattle.std.specs.Prelude.{◌≡◌, pos};
ghost use Rattle.g_prims_definitions.specs.Arithmetic.{absolute};
ghost use Rattle.g_prims_edits.specs.Words as words;
ghost use Rattle.g_prims_edits.specs.Words.{on_numbers, on_words, result_word};
ghost use Rattle.g_values.specs.Canonical.{canonical};
ghost use Rattle.g_values.specs.Number.{num_of};
ghost use Rattle.g_values.specs.Numbers.{word};

use g_types::Rep;
use g_values::Num;

/// An operator on two numbers that goes by their words.
#[derive(Clone, Copy, Debug, PartialEq, Eq)]
pub enum Operator {
    Plus,
    Minus,
    Times,
    And,
    Or,
    Xor,
}

/// The number modulo 2^64.
pub fn word_of(num: Num) -> u64
    ensures { result ≡ word num.n }
{
    num.n.rem_euclid(1 << 64) as u64
}

/// The number of a word.
pub fn number_of_word(rep: Rep, word: u64) -> Num
    ensures { result ≡ num_of rep (pos word) }
{
    Num::wrapped(rep, i128::from(word))
}

/// The word of the number of any word.
pub fn wrapped_word(rep: Rep, word: u64) -> u64
    ensures { result ≡ canonical rep word }
{
    (word.wrapping_add(rep.half()) & rep.mask()).wrapping_sub(rep.half())
}

/// What the operator does with two words.
pub fn on_two_words(operator: Operator, a: u64, b: u64) -> u64
    ensures { result ≡ on_words operator a b }
{
    match operator {
        Operator::Plus => a.wrapping_add(b),
        Operator::Minus => a.wrapping_sub(b),
        Operator::Times => a.wrapping_mul(b),
        Operator::And => a & b,
        Operator::Or => a | b,
        Operator::Xor => a ^ b,
    }
}

/// The word of what the operator gives, in the representation.
pub fn combined_word(operator: Operator, rep: Rep, a: u64, b: u64) -> u64
    ensures { result ≡ result_word operator rep a b }
{
    wrapped_word(rep, on_two_words(operator, a, b))
}

/// What the operator gives for two numbers, in a representation.
pub fn combined_number(operator: Operator, rep: Rep, x: Num, y: Num) -> Num
    ensures { result ≡ num_of rep (on_numbers operator x.n y.n) }
{
    number_of_word(rep, combined_word(operator, rep, word_of(x), word_of(y)))
}

/// The number without its sign, wrapped.
pub fn absolute_number(x: Num) -> Num
    ensures { result ≡ num_of x.rep (absolute x.n) }
{
    if x.n < 0 {
        return Num::wrapped(x.rep, -x.n);
    }
    Num::wrapped(x.rep, x.n)
}

/// The word of a word's number without its sign.
pub fn absolute_word(rep: Rep, word: u64) -> u64
    ensures { result ≡ words.absolute_word rep word }
{
    word_of(absolute_number(number_of_word(rep, word)))
}
