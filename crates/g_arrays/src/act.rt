//! Each operation in the buffer of the first input that it takes.

ghost use Rattle.std.specs.Prelude.{◌≡◌, [], ◌∷◌, IfOk, length, map, slice_set, true, false};
ghost use Rattle.g_arrays.specs.Acting.{
  Acts,
  ReadsStay,
  placed,
  reads_others,
  takes_both,
  takes_first,
  takes_first_of_three,
  takes_only,
  takes_second,
};
ghost use Rattle.g_prims_evaluation.specs.Conditions.{AreInOrder, IsInOrder};
ghost use Rattle.g_prims_definitions.specs.Clusters as clusters;
ghost use Rattle.g_prims_definitions.specs.Conditions.{AreEqualTypes};
ghost use Rattle.g_prims_definitions.specs.Values.{outputs_of};
ghost use Rattle.g_values.specs.Proper.{IsProper};
ghost use Rattle.g_values.specs.Value.{type_of};
ghost use Rattle.g_values.specs.declared.primitive.Primitive.TheVariants as op;
ghost use Rattle.g_values.specs.declared.value.Value.TheVariants as value;

use crate::bits::{bits_first, bits_second, inverted};
use crate::elements::{absolute, converted, kept_first, kept_second, number_with, with_number};
use g_lists::List;
use g_prims_edits::{
    Operator, array_subset, build, bytes_str, concat, parts, put, replace, reversed, select, sort,
    str_bytes, str_concat, str_subset,
};
use g_types::Rep;
use g_values::{Num, Primitive, Value, ValueList};
use std::alloc::{AllocError, Global};
use std::mem;

/// The only input is kept.
fn with_none(alloc: Global, primitive: &Primitive, kept: Value) -> Result<Value, AllocError>
    requires acts { takes_only primitive.now ≡ true }
    requires order { IsInOrder primitive.now kept }
    ensures { IfOk result (λ v. outputs_of primitive.now (kept ∷ []) ≡ v ∷ []) }
{
    let one = Num::wrapped(Rep::I64, 1);
    let zero = Num::wrapped(Rep::I64, 0);
    match primitive {
        Primitive::Inc => Ok(with_number(Operator::Plus, kept, one)),
        Primitive::Dec => Ok(with_number(Operator::Minus, kept, one)),
        Primitive::Neg => Ok(number_with(Operator::Minus, zero, kept)),
        Primitive::Abs => Ok(absolute(kept)),
        Primitive::Not => Ok(inverted(kept)),
        Primitive::ToI8 => Ok(converted(Rep::I8, kept)),
        Primitive::ToI16 => Ok(converted(Rep::I16, kept)),
        Primitive::ToI32 => Ok(converted(Rep::I32, kept)),
        Primitive::ToI64 => Ok(converted(Rep::I64, kept)),
        Primitive::ToU8 => Ok(converted(Rep::U8, kept)),
        Primitive::ToU16 => Ok(converted(Rep::U16, kept)),
        Primitive::ToU32 => Ok(converted(Rep::U32, kept)),
        Primitive::ToU64 => Ok(converted(Rep::U64, kept)),
        Primitive::Reverse => Ok(reversed(kept)),
        Primitive::Sort => Ok(sort(kept)),
        Primitive::StrBytes => str_bytes(alloc, &kept),
        Primitive::BytesStr => bytes_str(alloc, &kept),
        _ => Ok(kept),
    }
}

/// The first of two inputs is kept, and the second is read.
fn before_one(
    alloc: Global,
    primitive: &Primitive,
    kept: Value,
    other: &Value,
) -> Result<Value, AllocError>
    requires acts { takes_first primitive.now ≡ true }
    requires types { AreEqualTypes primitive.now kept other.now }
    ensures { IfOk result (λ v. outputs_of primitive.now (kept ∷ other.now ∷ []) ≡ v ∷ []) }
{
    match primitive {
        Primitive::Add => kept_first(alloc, Operator::Plus, kept, other),
        Primitive::Sub => kept_first(alloc, Operator::Minus, kept, other),
        Primitive::Mul => kept_first(alloc, Operator::Times, kept, other),
        Primitive::And => bits_first(alloc, Operator::And, kept, other),
        Primitive::Or => bits_first(alloc, Operator::Or, kept, other),
        Primitive::Xor => bits_first(alloc, Operator::Xor, kept, other),
        Primitive::Concat => concat(alloc, kept, other),
        Primitive::StrConcat => str_concat(alloc, kept, other),
        _ => Ok(kept),
    }
}

/// The second of two inputs is kept, and the first is read.
fn after_one(
    alloc: Global,
    primitive: &Primitive,
    other: &Value,
    kept: Value,
) -> Result<Value, AllocError>
    requires { takes_second primitive.now ≡ true }
    ensures { IfOk result (λ v. outputs_of primitive.now (other.now ∷ kept ∷ []) ≡ v ∷ []) }
{
    match primitive {
        Primitive::Add => kept_second(alloc, Operator::Plus, other, kept),
        Primitive::Sub => kept_second(alloc, Operator::Minus, other, kept),
        Primitive::Mul => kept_second(alloc, Operator::Times, other, kept),
        Primitive::And => bits_second(alloc, Operator::And, other, kept),
        Primitive::Or => bits_second(alloc, Operator::Or, other, kept),
        Primitive::Xor => bits_second(alloc, Operator::Xor, other, kept),
        _ => Ok(kept),
    }
}

/// The first of three inputs is kept, and the others are read.
fn before_two(
    alloc: Global,
    primitive: &Primitive,
    kept: Value,
    second: &Value,
    third: &Value,
) -> Value
    requires { takes_first_of_three primitive.now ≡ true }
    ensures { outputs_of primitive.now (kept ∷ second.now ∷ third.now ∷ []) ≡ result ∷ [] }
{
    match primitive {
        Primitive::Subset => array_subset(kept, second, third),
        Primitive::StrSubset => str_subset(alloc, kept, second, third),
        _ => kept,
    }
}

/// One other input is read.
fn with_one(
    alloc: Global,
    primitive: &Primitive,
    at: u32,
    kept: Value,
    other: &Value,
) -> Result<Value, AllocError>
    requires acts { Acts primitive.now at (map type_of (placed at kept (other.now ∷ []))) }
    requires reads { reads_others primitive.now ≡ true }
    ensures { IfOk result (λ v. outputs_of primitive.now (placed at kept (other.now ∷ [])) ≡ v ∷ []) }
{
    if at == 0 {
        return before_one(alloc, primitive, kept, other);
    }
    after_one(alloc, primitive, other, kept)
}

/// All other inputs are read.
fn reading(
    alloc: Global,
    primitive: &Primitive,
    at: u32,
    kept: Value,
    others: &[Value],
) -> Result<Value, AllocError>
    requires acts { Acts primitive.now at (map type_of (placed at kept others.now)) }
    requires reads { reads_others primitive.now ≡ true }
    requires order { AreInOrder primitive.now (placed at kept others.now) }
    ensures { IfOk result (λ v. outputs_of primitive.now (placed at kept others.now) ≡ v ∷ []) }
{
    match others {
        [] => with_none(alloc, primitive, kept),
        [other] => with_one(alloc, primitive, at, kept, other),
        [second, third] => Ok(before_two(alloc, primitive, kept, second, third)),
        _ => Ok(kept),
    }
}

/// Both of two inputs are taken.
fn with_both(
    alloc: Global,
    primitive: &Primitive,
    kept: Value,
    other: Value,
) -> Result<Value, AllocError>
    requires { takes_both primitive.now ≡ true }
    ensures { IfOk result (λ v. outputs_of primitive.now (kept ∷ other ∷ []) ≡ v ∷ []) }
{
    match primitive {
        Primitive::Build => build(kept, other),
        Primitive::Set(k) => put(alloc, *k, kept, other),
        _ => Ok(kept),
    }
}

/// The other of two values is taken too.
fn taking_one(
    alloc: Global,
    primitive: &Primitive,
    kept: Value,
    others: &mut ValueList,
) -> Result<Value, AllocError>
    requires acts { takes_both primitive.now ≡ true }
    requires one { length others.old ≡ 1 }
    ensures value { IfOk result (λ v. outputs_of primitive.now (kept ∷ others.old) ≡ v ∷ []) }
    ensures others { others.new ≡ slice_set others.old 0 (value.Bool false) }
{
    let other = others.take(0);
    with_both(alloc, primitive, kept, other)
}

/// An element takes the place of another.
fn replaced(kept: Value, others: &mut ValueList) -> Value
    requires { length others.old ≡ 2 }
    ensures value { outputs_of op.Replace (kept ∷ others.old) ≡ result ∷ [] }
    ensures others { others.new ≡ slice_set others.old 1 (value.Bool false) }
{
    let element = others.take(1);
    replace(kept, &others.as_slice()[0], element)
}

/// The kept value or the other that could be chosen.
fn selected(kept: Value, others: &mut ValueList) -> Value
    requires { length others.old ≡ 2 }
    ensures value { outputs_of op.Select (placed 1 kept others.old) ≡ result ∷ [] }
    ensures others { others.new ≡ slice_set others.old 1 (value.Bool false) }
{
    let other = others.take(1);
    select(&others.as_slice()[0], kept, other)
}

/// A cluster of all inputs.
fn bundled(alloc: Global, kept: Value, others: &mut ValueList) -> Result<Value, AllocError>
    ensures { IfOk result (λ v. outputs_of op.Bundle (kept ∷ others.old) ≡ v ∷ []) }
{
    let others = mem::replace(others, ValueList::new(alloc));
    let mut items = List::new(alloc);
    items.push(kept)?;
    items.append(others.into_list())?;
    Ok(Value::Cluster(items))
}

/// The only element of a cluster.
fn only_part(alloc: Global, kept: Value) -> Value
    requires { length (clusters.parts kept) ≡ 1 }
    ensures { clusters.parts kept ≡ result ∷ [] }
{
    let mut items = parts(alloc, kept);
    match items.pop() {
        Some(value) => value,
        None => Value::Bool(false),
    }
}

/// As `act_on`, which adds that the value is proper.
fn acted(
    alloc: Global,
    primitive: &Primitive,
    at: u32,
    kept: Value,
    others: &mut ValueList,
) -> Result<Value, AllocError>
    requires acts { Acts primitive.now at (map type_of (placed at kept others.old)) }
    requires proper { IsProper kept }
    ensures value { IfOk result (λ v. outputs_of primitive.now (placed at kept others.old) ≡ v ∷ []) }
    ensures reads { ReadsStay primitive.now at (map type_of (placed at kept others.old)) others.old others.new }
{
    match primitive {
        Primitive::Bundle => bundled(alloc, kept, others),
        Primitive::Unbundle => Ok(only_part(alloc, kept)),
        Primitive::Build => taking_one(alloc, primitive, kept, others),
        Primitive::Set(_) => taking_one(alloc, primitive, kept, others),
        Primitive::Replace => Ok(replaced(kept, others)),
        Primitive::Select => Ok(selected(kept, others)),
        _ => reading(alloc, primitive, at, kept, others.as_slice()),
    }
}

/// The value that a primitive gives, made in the buffer of `kept` where the size allows. The types of
/// the inputs have a row with one output; `kept` is the first input that the operation takes, `at` its
/// place among the inputs, from 0, and `others` are the rest, in order. Of these the operation leaves
/// each that it reads as it was, also where it is refused; of those that it takes nothing is said
/// afterwards. Only want of memory refuses it.
pub fn act_on(
    alloc: Global,
    primitive: &Primitive,
    at: u32,
    kept: Value,
    others: &mut ValueList,
) -> Result<Value, AllocError>
    requires acts { Acts primitive.now at (map type_of (placed at kept others.old)) }
    requires proper { IsProper kept }
    ensures value { IfOk result (λ v. outputs_of primitive.now (placed at kept others.old) ≡ v ∷ []) }
    ensures proper { IfOk result IsProper }
    ensures reads { ReadsStay primitive.now at (map type_of (placed at kept others.old)) others.old others.new }
{
    // That the others are proper is known from here on.
    let _others = others.as_slice();
    acted(alloc, primitive, at, kept, others)
}
