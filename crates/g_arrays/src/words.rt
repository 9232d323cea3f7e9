//! Operations on the words of an array, in their buffer.

ghost use Rattle.std.specs.Prelude.{◌≡◌, ◌≤◌, length, map};
ghost use Rattle.std.specs.Simd.Lanes.{zip2};
ghost use Rattle.g_arrays.specs.Lanes.{with_word};
ghost use Rattle.g_prims_edits.specs.Words.{result_word};

use crate::lanes::{each_block, zip_block};
use g_prims_edits::{Operator, combined_word};
use g_types::Rep;

/// Each word with the other word at its place.
fn zip_words(operator: Operator, rep: Rep, into: &mut [u64], other: &[u64])
    requires { length into.old ≤ length other.now }
    ensures { into.new ≡ zip2 (result_word operator rep) into.old other.now }
{
    let len = into.len();
    let mut at = 0;
    while len - at >= 8 {
        zip_block(operator, rep, into, other, at);
        at += 8;
    }
    while at < len {
        into[at] = combined_word(operator, rep, into[at], other[at]);
        at += 1;
    }
}

/// The same in a `Vec`, which is cut to the smaller size.
pub fn zip_into(operator: Operator, rep: Rep, words: &mut Vec<u64>, other: &[u64])
    ensures { words.new.items ≡ zip2 (result_word operator rep) words.old.items other.now }
{
    words.truncate(other.len());
    zip_words(operator, rep, words.as_mut_slice(), other);
}

fn one_word(operator: Operator, rep: Rep, before: bool, by: u64, word: u64) -> u64
    ensures { result ≡ with_word operator rep before by word }
{
    if before {
        combined_word(operator, rep, by, word)
    } else {
        combined_word(operator, rep, word, by)
    }
}

/// Each word with one word before or after it.
fn each_word(operator: Operator, rep: Rep, before: bool, by: u64, into: &mut [u64])
    ensures { into.new ≡ map (with_word operator rep before by) into.old }
{
    let len = into.len();
    let mut at = 0;
    while len - at >= 8 {
        each_block(operator, rep, before, by, into, at);
        at += 8;
    }
    while at < len {
        into[at] = one_word(operator, rep, before, by, into[at]);
        at += 1;
    }
}

/// The same in a `Vec`.
pub fn each_into(operator: Operator, rep: Rep, before: bool, by: u64, words: &mut Vec<u64>)
    ensures { words.new.items ≡ map (with_word operator rep before by) words.old.items }
{
    each_word(operator, rep, before, by, words.as_mut_slice());
}
