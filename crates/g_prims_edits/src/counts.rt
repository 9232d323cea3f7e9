//! Indices and counts, which are taken by their value.

ghost use Rattle.std.specs.Prelude.{◌≡◌};
ghost use Rattle.g_prims_definitions.specs.Arrays as spec;

use g_values::{Num, Value};

fn count_of(x: Num) -> usize
    ensures { result ≡ spec.count x.n }
{
    if x.n < 0 {
        return 0;
    }
    x.n as usize
}

/// A count, where one below 0 counts as 0.
pub fn count(value: &Value) -> usize
    ensures { result ≡ spec.count (spec.number_of value.now) }
{
    match value {
        Value::Num(x) => count_of(*x),
        _ => 0,
    }
}

fn index_of(x: Num) -> Option<usize>
    ensures { result ≡ spec.index x.n }
{
    if x.n < 0 {
        return None;
    }
    Some(x.n as usize)
}

/// An index, if it isn't below 0.
pub fn index(value: &Value) -> Option<usize>
    ensures { result ≡ spec.index (spec.number_of value.now) }
{
    match value {
        Value::Num(x) => index_of(*x),
        _ => Some(0),
    }
}
