//! The value of a literal in a type.

ghost use Rattle.std.specs.Prelude.{◌≡◌, map, IfOk};
ghost use Rattle.g_types.specs.declared.ty.Ty.{out-Ty};
ghost use Rattle.g_prims_definitions.specs.Arrays as arrays;
ghost use Rattle.g_literals.specs.Values as spec;

use g_diagram::Lit;
use g_lists::List;
use g_types::{Bytes, Rep, Ty};
use g_values::{ArrOf, Num, NumArr, Value, default_of};
use std::alloc::{AllocError, Global};

fn number_in(n: i128, ty: &Ty) -> Value
    ensures { result ≡ spec.number_in n (out-Ty ty.now) }
{
    match ty {
        Ty::Num(rep) => Value::Num(Num::wrapped(*rep, n)),
        _ => Value::Bool(false),
    }
}

/// The number that a value is, and 0 for every other value.
fn number_of(value: &Value) -> i128
    ensures { result ≡ arrays.number_of value.now }
{
    match value {
        Value::Num(x) => x.n,
        _ => 0,
    }
}

/// The value of a literal that is one of the type. Parts of another form than the type's are FALSE.
/// Only want of memory refuses it.
#[cycle(literal)]
#[tactic(auto, using(crate::proofs::ValueLemmas::values))]
pub fn literal_value(alloc: Global, literal: &Lit, ty: &Ty) -> Result<Value, AllocError>
    ensures { IfOk result (λ v. v ≡ spec.literal_value literal.now ty.now) }
{
    match literal {
        Lit::Number(n) => Ok(number_in(*n, ty)),
        Lit::Truth(b) => Ok(Value::Bool(*b)),
        Lit::Text(text) => Ok(Value::Str(Bytes::from_slice(alloc, text.as_slice())?)),
        Lit::Null => default_of(alloc, ty),
        Lit::Array(items) => match ty {
            Ty::Arr(item) => array_of(alloc, items.as_slice(), item.get()),
            _ => Ok(Value::Bool(false)),
        },
        Lit::Cluster(items) => match ty {
            Ty::Cluster(parts) => cluster_of(alloc, items.as_slice(), parts.as_slice()),
            _ => Ok(Value::Bool(false)),
        },
    }
}

#[cycle(literal)]
fn array_of(alloc: Global, items: &[Lit], ty: &Ty) -> Result<Value, AllocError>
    ensures { IfOk result (λ v. v ≡ spec.array_of ty.now (out-Ty ty.now) (spec.values_in (map spec.literal_value items.now) ty.now)) }
{
    match ty {
        Ty::Num(rep) => numbers_of(alloc, items, ty, *rep),
        _ => elements_of(alloc, items, ty),
    }
}

#[cycle(literal)]
fn numbers_of(alloc: Global, items: &[Lit], ty: &Ty, rep: Rep) -> Result<Value, AllocError>
    ensures { IfOk result (λ v. v ≡ spec.numbers_of rep (spec.values_in (map spec.literal_value items.now) ty.now)) }
{
    let mut numbers = NumArr::new(alloc, rep);
    for i in 0..items.len() {
        let value = literal_value(alloc, &items[i], ty)?;
        numbers.push(Num::wrapped(rep, number_of(&value)))?;
    }
    Ok(Value::Nums(numbers))
}

#[cycle(literal)]
fn elements_of(alloc: Global, items: &[Lit], ty: &Ty) -> Result<Value, AllocError>
    ensures { IfOk result (λ v. v ≡ spec.elements_of ty.now (spec.values_in (map spec.literal_value items.now) ty.now)) }
{
    let mut values = Vec::new(alloc);
    for i in 0..items.len() {
        values.push(literal_value(alloc, &items[i], ty)?)?;
    }
    Ok(Value::Arr(ArrOf {
        elem: g_types::copy(alloc, ty)?,
        items: List::from_vec(values),
    }))
}

#[cycle(literal)]
fn cluster_of(alloc: Global, items: &[Lit], types: &[Ty]) -> Result<Value, AllocError>
    ensures { IfOk result (λ v. v ≡ spec.cluster_of (spec.values_each (map spec.literal_value items.now) types.now)) }
{
    let mut values = Vec::new(alloc);
    for i in 0..items.len().min(types.len()) {
        values.push(literal_value(alloc, &items[i], &types[i])?)?;
    }
    Ok(Value::Cluster(List::from_vec(values)))
}
