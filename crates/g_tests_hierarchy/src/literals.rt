//! The values of literals.

use g_diagram::Lit;
use g_literals::{literal_laws, literal_value};
use g_types::{Rep, Ty};
use g_values::Value;
use std::test::Fail;

fn is_number(value: &Value, rep: Rep, n: i128) -> bool {
    match value {
        Value::Num(number) => number.rep == rep && number.n == n,
        _ => false,
    }
}

#[test]
fn a_literal_has_its_value(rt: HostRuntime) -> Result<(), Fail> {
    literal_laws();
    let value = literal_value(rt.alloc(), &Lit::Number(-128), &Ty::Num(Rep::I8))?;
    let is_least = is_number(&value, Rep::I8, -128);
    assert!(rt; is_least);
    Ok(())
}
