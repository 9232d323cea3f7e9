//! Kinds of types, as operations tell them apart.

ghost use Rattle.std.specs.Prelude.{◌≡◌, IfOk};
ghost use Rattle.std.specs.List.{list_any};
ghost use Rattle.g_prims_definitions.specs.Kinds as spec;
ghost use Rattle.g_types.specs.Same.{same_type};
ghost use Rattle.g_types.specs.Ty as types;
ghost use Rattle.g_values.specs.Spelled as values;

use g_lists::Boxed;
use g_types::{Ty, same, wider};
use std::alloc::{AllocError, Global};

/// Whether it is a number type.
pub fn is_num(ty: &Ty) -> bool
    ensures { result ≡ types.is_num ty.now }
{
    matches!(ty, Ty::Num(_))
}

/// Whether it is an array of numbers.
pub fn is_nums(ty: &Ty) -> bool
    ensures { result ≡ types.is_nums ty.now }
{
    match ty {
        Ty::Arr(item) => is_num(item.get()),
        _ => false,
    }
}

/// Whether it is the type of Booleans.
pub fn is_bool(ty: &Ty) -> bool
    ensures { result ≡ spec.is_bool ty.now }
{
    matches!(ty, Ty::Bool)
}

/// Whether it is an array of Booleans.
pub fn is_bools(ty: &Ty) -> bool
    ensures { result ≡ spec.is_bools ty.now }
{
    match ty {
        Ty::Arr(item) => is_bool(item.get()),
        _ => false,
    }
}

/// Whether it is the type of strings.
pub fn is_str(ty: &Ty) -> bool
    ensures { result ≡ spec.is_str ty.now }
{
    matches!(ty, Ty::Str)
}

/// Whether it is an array of strings.
pub fn is_strs(ty: &Ty) -> bool
    ensures { result ≡ spec.is_strs ty.now }
{
    match ty {
        Ty::Arr(item) => is_str(item.get()),
        _ => false,
    }
}

/// Whether it is an array.
pub fn is_array(ty: &Ty) -> bool
    ensures { result ≡ values.is_array ty.now }
{
    matches!(ty, Ty::Arr(_))
}

/// Whether it is a number or an array of numbers.
pub fn is_numeric(ty: &Ty) -> bool
    ensures { result ≡ spec.is_numeric ty.now }
{
    is_num(ty) || is_nums(ty)
}

/// Whether it is a number, a Boolean or an array of them.
pub fn has_bits(ty: &Ty) -> bool
    ensures { result ≡ spec.has_bits ty.now }
{
    is_numeric(ty) || is_bool(ty) || is_bools(ty)
}

/// Whether it is or holds a reference.
#[cycle(has_reference)]
#[tactic(auto, using(crate::proofs::References::references))]
pub fn has_reference(ty: &Ty) -> bool
    ensures { result ≡ spec.has_reference ty.now }
{
    match ty {
        Ty::Num(_) | Ty::Bool | Ty::Str => false,
        Ty::QueueRef(_) | Ty::ValueRef(_) => true,
        Ty::Arr(item) => has_reference(item.get()),
        Ty::Cluster(items) => some_reference(items.as_slice()),
    }
}

#[cycle(has_reference)]
fn some_reference(items: &[Ty]) -> bool
    ensures { result ≡ list_any spec.has_reference items.now }
{
    for i in 0..items.len() {
        if has_reference(&items[i]) {
            return true;
        }
    }
    false
}

/// Whether the types are equal.
pub fn is_same(a: &Ty, b: &Ty) -> bool
    ensures { result ≡ same_type a.now b.now }
{
    same(a, b)
}

/// Whether a value of the first type goes where one of the second is wanted: they are equal, both
/// numbers, or both arrays of numbers.
pub fn is_assignable(from: &Ty, to: &Ty) -> bool
    ensures { result ≡ spec.is_assignable from.now to.now }
{
    is_same(from, to) || (is_num(from) && is_num(to)) || (is_nums(from) && is_nums(to))
}

/// Whether a value of the type can be an element of the array.
pub fn is_assignable_to_item(from: &Ty, array: &Ty) -> bool
    ensures { result ≡ spec.is_assignable_to from.now (spec.item array.now) }
{
    match array {
        Ty::Arr(item) => is_assignable(from, item.get()),
        _ => false,
    }
}

/// Whether a value of the type can be an element of the cluster, counted from 0.
pub fn is_assignable_to_part(from: &Ty, cluster: &Ty, k: u8) -> bool
    ensures { result ≡ spec.is_assignable_to from.now (spec.part k cluster.now) }
{
    match cluster {
        Ty::Cluster(parts) => match parts.get(usize::from(k)) {
            Some(part) => is_assignable(from, part),
            None => false,
        },
        _ => false,
    }
}

/// The wider of two number types, or the type of two Booleans.
pub fn wide(a: &Ty, b: &Ty) -> Option<Ty>
    ensures { result ≡ spec.wide a.now b.now }
{
    match a {
        Ty::Num(r) => match b {
            Ty::Num(s) => Some(Ty::Num(wider(*r, *s))),
            _ => None,
        },
        Ty::Bool => match b {
            Ty::Bool => Some(Ty::Bool),
            _ => None,
        },
        _ => None,
    }
}

fn array_of(alloc: Global, item: Option<Ty>) -> Result<Option<Ty>, AllocError>
    ensures { IfOk result (λ t. t ≡ spec.array_of item) }
{
    match item {
        Some(item) => Ok(Some(Ty::Arr(Boxed::new(alloc, item)?))),
        None => Ok(None),
    }
}

/// The type of an operation element by element: `wide` of the operands, or of their elements.
pub fn elementwise(alloc: Global, a: &Ty, b: &Ty) -> Result<Option<Ty>, AllocError>
    ensures { IfOk result (λ t. t ≡ spec.elementwise a.now b.now) }
{
    match a {
        Ty::Arr(x) => match b {
            Ty::Arr(y) => array_of(alloc, wide(x.get(), y.get())),
            _ => array_of(alloc, wide(x.get(), b)),
        },
        _ => match b {
            Ty::Arr(y) => array_of(alloc, wide(a, y.get())),
            _ => Ok(wide(a, b)),
        },
    }
}
