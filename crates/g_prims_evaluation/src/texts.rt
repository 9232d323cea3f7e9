//! The number of a text.

ghost use Rattle.std.specs.Prelude.{◌≡◌, ◌<◌, IfOk};
ghost use Rattle.g_prims_definitions.specs.Strings as spec;

use crate::outputs::two;
use g_lists::List;
use g_prims_edits::text;
use g_types::Rep;
use g_values::{Num, Value};
use std::alloc::{AllocError, Global};

fn is_digit(byte: u8) -> bool
    ensures { result ≡ spec.is_digit byte }
{
    byte >= b'0' && byte < b'0' + 10
}

/// The number of 1 to 20 digits.
fn natural(digits: &[u8]) -> Option<u128>
    ensures { result ≡ spec.natural digits.now }
{
    if digits.is_empty() {
        return None;
    }
    if digits.len() > 20 {
        return None;
    }
    let mut n: u128 = 0;
    for digit in digits {
        if !is_digit(*digit) {
            return None;
        }
        n = n * 10 + u128::from(*digit - b'0');
    }
    Some(n)
}

fn positive(n: Option<u128>) -> Option<i128>
    ensures { result ≡ spec.positive n }
{
    let n = n?;
    if n >= 1 << 63 {
        return None;
    }
    Some(n as i128)
}

fn negative(n: Option<u128>) -> Option<i128>
    ensures { result ≡ spec.negative n }
{
    let n = n?;
    if n > 1 << 63 {
        return None;
    }
    Some(-(n as i128))
}

/// The number in the range of i64 that the text is.
fn integer(text: &[u8]) -> Option<i128>
    ensures { result ≡ spec.integer text.now }
{
    let [first, digits @ ..] = text else {
        return None;
    };
    if *first == b'-' {
        return negative(natural(digits));
    }
    positive(natural(text))
}

/// The number of a string and whether it has one.
pub fn str_num(alloc: Global, s: &Value) -> Result<List<Value>, AllocError>
    ensures { IfOk result (λ vs. vs ≡ spec.str_num s.now) }
{
    match integer(text(s)) {
        Some(n) => two(
            alloc,
            Value::Num(Num::wrapped(Rep::I64, n)),
            Value::Bool(true),
        ),
        None => two(
            alloc,
            Value::Num(Num::wrapped(Rep::I64, 0)),
            Value::Bool(false),
        ),
    }
}
