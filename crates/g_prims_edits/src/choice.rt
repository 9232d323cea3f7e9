//! The choice between two values, and Booleans.

ghost use Rattle.std.specs.Prelude.{◌≡◌};
ghost use Rattle.g_prims_definitions.specs.Bits.{truth};
ghost use Rattle.g_prims_definitions.specs.Comparisons as spec;
ghost use Rattle.g_prims_edits.specs.Words.{on_truths};
ghost use Rattle.g_values.specs.declared.value.Value.TheVariants as value;

use crate::words::Operator;
use g_types::wider;
use g_values::{Num, Value};

/// Whether it is TRUE.
pub fn is_true(value: &Value) -> bool
    ensures { result ≡ truth value.now }
{
    match value {
        Value::Bool(b) => *b,
        _ => false,
    }
}

/// What the operator gives for two Booleans; FALSE where it has none.
pub fn combined_truth(operator: Operator, a: bool, b: bool) -> bool
    ensures { result ≡ on_truths operator a b }
{
    match operator {
        Operator::And => a && b,
        Operator::Or => a || b,
        Operator::Xor => a != b,
        Operator::Plus | Operator::Minus | Operator::Times => false,
    }
}

fn chosen_number(x: Num, other: &Value) -> Value
    ensures { result ≡ spec.chosen (value.Num x) other.now }
{
    match other {
        Value::Num(y) => Value::Num(Num::wrapped(wider(x.rep, y.rep), x.n)),
        _ => Value::Num(x),
    }
}

fn chosen(v: Value, other: &Value) -> Value
    ensures { result ≡ spec.chosen v other.now }
{
    match v {
        Value::Num(x) => chosen_number(x, other),
        other_kind => other_kind,
    }
}

/// One of two values: a number in the wider representation of both.
pub fn select(s: &Value, t: Value, f: Value) -> Value
    ensures { result ≡ spec.select s.now t f }
{
    if is_true(s) {
        chosen(t, &f)
    } else {
        chosen(f, &t)
    }
}
