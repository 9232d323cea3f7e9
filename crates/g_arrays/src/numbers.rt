//! Arithmetic on arrays of numbers, in the buffer that is kept.

ghost use Rattle.std.specs.Prelude.{◌≡◌};
ghost use Rattle.g_prims_definitions.specs.Arithmetic as spec;
ghost use Rattle.g_prims_edits.specs.Words.{on_numbers};

use crate::words::{each_into, zip_into};
use g_prims_edits::{Operator, word_of};
use g_types::{Rep, wider};
use g_values::{Num, NumArr};

/// Element by element with another array, to the smaller size, in the wider representation.
pub fn zipped(operator: Operator, kept: NumArr, other: &NumArr) -> NumArr
    ensures { result ≡ spec.zipped (on_numbers operator) kept other.now }
{
    let rep = wider(kept.rep, other.rep);
    let NumArr { rep: _, mut words } = kept;
    zip_into(operator, rep, &mut words, other.words.as_slice());
    NumArr { rep, words }
}

/// Each element and a number after it.
pub fn left(operator: Operator, rep: Rep, kept: NumArr, by: Num) -> NumArr
    ensures { result ≡ spec.left (on_numbers operator) rep kept by.n }
{
    let NumArr { rep: _, mut words } = kept;
    each_into(operator, rep, false, word_of(by), &mut words);
    NumArr { rep, words }
}

/// Each element and a number before it.
pub fn right(operator: Operator, rep: Rep, by: Num, kept: NumArr) -> NumArr
    ensures { result ≡ spec.right (on_numbers operator) rep by.n kept }
{
    let NumArr { rep: _, mut words } = kept;
    each_into(operator, rep, true, word_of(by), &mut words);
    NumArr { rep, words }
}
