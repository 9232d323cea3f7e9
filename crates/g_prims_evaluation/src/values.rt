//! The values that each primitive gives.

ghost use Rattle.std.specs.Prelude.{◌≡◌, ◌≢◌, [], ◌∷◌, IfOk};
ghost use Rattle.std.specs.List.{All};
ghost use Rattle.g_prims_definitions.specs.Conditions.{HasRow, AreEqualTypes};
ghost use Rattle.g_prims_definitions.specs.Values.{outputs_of};
ghost use Rattle.g_prims_evaluation.specs.Conditions.{AreInOrder, IsInOrder};
ghost use Rattle.g_values.specs.Proper.{IsProper};
ghost use Rattle.g_values.specs.declared.primitive.Primitive.TheVariants as op;
ghost use Rattle.g_values.specs.declared.value.Value.TheVariants as value;

use crate::bits::{bitwise, inverted};
use crate::comparisons::{all_true, any_true, equal, less};
use crate::numbers::{bool_int, folded, max_min, quotrem};
use crate::operands::{absolute, arithmetic, converted, number_with, with_number};
use crate::outputs::{one, two};
use crate::reads::{array_size, index_array, initialize, num_str, search, str_len};
use crate::shifts::shift;
use crate::texts::str_num;
use g_lists::List;
use g_prims_edits::{
    Operator, array_subset, build, bytes_str, concat, copy, delete, get, is_true, parts, put,
    replace, reversed, select, sort, str_bytes, str_concat, str_subset,
};
use g_types::Rep;
use g_values::{Num, Primitive, Value};
use std::alloc::{AllocError, Global};

fn one_input(alloc: Global, primitive: &Primitive, x: &Value) -> Result<List<Value>, AllocError>
    requires bundle { primitive.now ≢ op.Bundle }
    requires order { IsInOrder primitive.now x.now }
    ensures { IfOk result (λ vs. vs ≡ outputs_of primitive.now (x.now ∷ [])) }
{
    let unit = Num::wrapped(Rep::I64, 1);
    let zero = Num::wrapped(Rep::I64, 0);
    match primitive {
        Primitive::Inc => one(alloc, with_number(alloc, Operator::Plus, x, unit)?),
        Primitive::Dec => one(alloc, with_number(alloc, Operator::Minus, x, unit)?),
        Primitive::Neg => one(alloc, number_with(alloc, Operator::Minus, zero, x)?),
        Primitive::Abs => one(alloc, absolute(alloc, x)?),
        Primitive::Not => one(alloc, inverted(alloc, x)?),
        Primitive::ToI8 => one(alloc, converted(alloc, Rep::I8, x)?),
        Primitive::ToI16 => one(alloc, converted(alloc, Rep::I16, x)?),
        Primitive::ToI32 => one(alloc, converted(alloc, Rep::I32, x)?),
        Primitive::ToI64 => one(alloc, converted(alloc, Rep::I64, x)?),
        Primitive::ToU8 => one(alloc, converted(alloc, Rep::U8, x)?),
        Primitive::ToU16 => one(alloc, converted(alloc, Rep::U16, x)?),
        Primitive::ToU32 => one(alloc, converted(alloc, Rep::U32, x)?),
        Primitive::ToU64 => one(alloc, converted(alloc, Rep::U64, x)?),
        Primitive::BoolInt => one(alloc, bool_int(is_true(x))),
        Primitive::All => one(alloc, Value::Bool(all_true(x))),
        Primitive::Any => one(alloc, Value::Bool(any_true(x))),
        Primitive::ArraySize => one(alloc, array_size(x)),
        Primitive::Reverse => one(alloc, reversed(copy(alloc, x)?)),
        Primitive::Sort => one(alloc, sort(copy(alloc, x)?)),
        Primitive::Sum => one(alloc, folded(Operator::Plus, zero, x)),
        Primitive::Product => one(alloc, folded(Operator::Times, unit, x)),
        Primitive::StrLen => one(alloc, str_len(x)),
        Primitive::StrBytes => one(alloc, str_bytes(alloc, x)?),
        Primitive::BytesStr => one(alloc, bytes_str(alloc, x)?),
        Primitive::NumStr => one(alloc, num_str(alloc, x)?),
        Primitive::StrNum => str_num(alloc, x),
        Primitive::Unbundle => Ok(parts(alloc, copy(alloc, x)?)),
        Primitive::Get(k) => one(alloc, get(alloc, *k, x)?),
        _ => Ok(List::new(alloc)),
    }
}

fn two_inputs(
    alloc: Global,
    primitive: &Primitive,
    x: &Value,
    y: &Value,
) -> Result<List<Value>, AllocError>
    requires bundle { primitive.now ≢ op.Bundle }
    requires types { AreEqualTypes primitive.now x.now y.now }
    ensures { IfOk result (λ vs. vs ≡ outputs_of primitive.now (x.now ∷ y.now ∷ [])) }
{
    match primitive {
        Primitive::Add => one(alloc, arithmetic(alloc, Operator::Plus, x, y)?),
        Primitive::Sub => one(alloc, arithmetic(alloc, Operator::Minus, x, y)?),
        Primitive::Mul => one(alloc, arithmetic(alloc, Operator::Times, x, y)?),
        Primitive::QuotRem => quotrem(alloc, x, y),
        Primitive::MaxMin => max_min(alloc, x, y),
        Primitive::And => one(alloc, bitwise(alloc, Operator::And, x, y)?),
        Primitive::Or => one(alloc, bitwise(alloc, Operator::Or, x, y)?),
        Primitive::Xor => one(alloc, bitwise(alloc, Operator::Xor, x, y)?),
        Primitive::Shift => one(alloc, shift(x, y)),
        Primitive::Eq => one(alloc, Value::Bool(equal(x, y))),
        Primitive::Ne => one(alloc, Value::Bool(!equal(x, y))),
        Primitive::Lt => one(alloc, Value::Bool(less(x, y))),
        Primitive::Le => one(alloc, Value::Bool(!less(y, x))),
        Primitive::Gt => one(alloc, Value::Bool(less(y, x))),
        Primitive::Ge => one(alloc, Value::Bool(!less(x, y))),
        Primitive::IndexArray => one(alloc, index_array(alloc, x, y)?),
        Primitive::Build => one(alloc, build(copy(alloc, x)?, copy(alloc, y)?)?),
        Primitive::Concat => one(alloc, concat(alloc, copy(alloc, x)?, y)?),
        Primitive::Initialize => one(alloc, initialize(alloc, x, y)?),
        Primitive::Search => one(alloc, search(x, y)),
        Primitive::StrConcat => one(alloc, str_concat(alloc, copy(alloc, x)?, y)?),
        Primitive::Set(k) => one(alloc, put(alloc, *k, copy(alloc, x)?, copy(alloc, y)?)?),
        _ => Ok(List::new(alloc)),
    }
}

fn deleted(alloc: Global, a: Value, i: &Value, n: &Value) -> Result<List<Value>, AllocError>
    ensures { IfOk result (λ vs. vs ≡ outputs_of op.Delete (a ∷ i.now ∷ n.now ∷ [])) }
{
    let (rest, cut) = delete(alloc, a, i, n)?;
    two(alloc, rest, cut)
}

fn three_inputs(
    alloc: Global,
    primitive: &Primitive,
    x: &Value,
    y: &Value,
    z: &Value,
) -> Result<List<Value>, AllocError>
    requires { primitive.now ≢ op.Bundle }
    ensures { IfOk result (λ vs. vs ≡ outputs_of primitive.now (x.now ∷ y.now ∷ z.now ∷ [])) }
{
    match primitive {
        Primitive::Select => one(alloc, select(x, copy(alloc, y)?, copy(alloc, z)?)),
        Primitive::Replace => one(alloc, replace(copy(alloc, x)?, y, copy(alloc, z)?)),
        Primitive::Subset => one(alloc, array_subset(copy(alloc, x)?, y, z)),
        Primitive::Delete => deleted(alloc, copy(alloc, x)?, y, z),
        Primitive::StrSubset => one(alloc, str_subset(alloc, copy(alloc, x)?, y, z)),
        _ => Ok(List::new(alloc)),
    }
}

fn copies(alloc: Global, values: &[Value]) -> Result<List<Value>, AllocError>
    ensures { IfOk result (λ all. all ≡ values.now) }
{
    let mut all = List::new(alloc);
    for value in values {
        all.push(copy(alloc, value)?)?;
    }
    Ok(all)
}

fn bundled(alloc: Global, ins: &[Value]) -> Result<List<Value>, AllocError>
    ensures { IfOk result (λ vs. vs ≡ outputs_of op.Bundle ins.now) }
{
    one(alloc, Value::Cluster(copies(alloc, ins)?))
}

fn by_count(alloc: Global, primitive: &Primitive, ins: &[Value]) -> Result<List<Value>, AllocError>
    requires bundle { primitive.now ≢ op.Bundle }
    requires row { HasRow primitive.now ins.now }
    requires order { AreInOrder primitive.now ins.now }
    ensures { IfOk result (λ vs. vs ≡ outputs_of primitive.now ins.now) }
{
    match ins {
        [x] => one_input(alloc, primitive, x),
        [x, y] => two_inputs(alloc, primitive, x, y),
        [x, y, z] => three_inputs(alloc, primitive, x, y, z),
        _ => Ok(List::new(alloc)),
    }
}

/// The values that a primitive gives for proper inputs whose types have a row. The inputs are read, and
/// copied where the operation takes them. Only want of memory refuses it.
pub fn evaluate(
    alloc: Global,
    primitive: &Primitive,
    ins: &[Value],
) -> Result<List<Value>, AllocError>
    requires row { HasRow primitive.now ins.now }
    requires proper { All IsProper ins.now }
    ensures { IfOk result (λ vs. vs ≡ outputs_of primitive.now ins.now) }
{
    match primitive {
        Primitive::Bundle => bundled(alloc, ins),
        _ => by_count(alloc, primitive, ins),
    }
}
