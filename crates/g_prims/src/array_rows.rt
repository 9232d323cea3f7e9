//! Rows of operations on arrays.

ghost use Rattle.std.specs.Prelude.{◌≡◌, IfOk, IfErr, Some, ◌∷◌, []};
ghost use Rattle.g_prims_definitions.specs.Row.{read};
ghost use Rattle.g_prims_definitions.specs.Kinds as kinds;
ghost use Rattle.g_prims_definitions.specs.Rows as spec;
ghost use Rattle.g_prims.specs.Refusals.{IsRefusal};
ghost use Rattle.g_values.specs.declared.primitive.Primitive.TheVariants as op;

use crate::kinds::{
    has_reference, is_array, is_assignable_to_item, is_bools, is_num, is_nums, is_same, is_strs,
};
use crate::outs::{one, one_copy, two_copies};
use crate::refusal::RowRefused;
use g_lists::Boxed;
use g_types::{Rep, Ty, TyList, copy, fits};
use std::alloc::{AllocError, Global};

/// An array of Booleans, of which one is given.
pub fn truths_row(alloc: Global, ins: &[Ty]) -> Result<TyList, RowRefused>
    ensures gives { IfOk result (λ outs. read (spec.row op.All) ins.now ≡ Some outs) }
    ensures refused { IfErr result (IsRefusal (spec.row op.All) ins.now) }
{
    let [a, rest @ ..] = ins else {
        return Err(RowRefused::NoRow(1));
    };
    if !is_bools(a) {
        return Err(RowRefused::NoRow(1));
    }
    if !rest.is_empty() {
        return Err(RowRefused::NoRow(2));
    }
    Ok(one(alloc, Ty::Bool)?)
}

/// An array, whose size is given.
pub fn size_row(alloc: Global, ins: &[Ty]) -> Result<TyList, RowRefused>
    ensures gives { IfOk result (λ outs. read (spec.row op.ArraySize) ins.now ≡ Some outs) }
    ensures refused { IfErr result (IsRefusal (spec.row op.ArraySize) ins.now) }
{
    let [a, rest @ ..] = ins else {
        return Err(RowRefused::NoRow(1));
    };
    if !is_array(a) {
        return Err(RowRefused::NoRow(1));
    }
    if !rest.is_empty() {
        return Err(RowRefused::NoRow(2));
    }
    Ok(one(alloc, Ty::Num(Rep::I32))?)
}

/// The type of the array's elements.
fn item(alloc: Global, a: &Ty) -> Result<Option<Ty>, AllocError>
    ensures { IfOk result (λ t. t ≡ kinds.item a.now) }
{
    match a {
        Ty::Arr(item) => Ok(Some(copy(alloc, item.get())?)),
        _ => Ok(None),
    }
}

/// An array and an index, of which an element is given.
pub fn index_row(alloc: Global, ins: &[Ty]) -> Result<TyList, RowRefused>
    ensures gives { IfOk result (λ outs. read (spec.row op.IndexArray) ins.now ≡ Some outs) }
    ensures refused { IfErr result (IsRefusal (spec.row op.IndexArray) ins.now) }
{
    let [a, rest @ ..] = ins else {
        return Err(RowRefused::NoRow(1));
    };
    if !is_array(a) {
        return Err(RowRefused::NoRow(1));
    }
    let [i, rest @ ..] = rest else {
        return Err(RowRefused::NoRow(2));
    };
    if !is_num(i) {
        return Err(RowRefused::NoRow(2));
    }
    let Some(e) = item(alloc, a)? else {
        return Err(RowRefused::NoRow(2));
    };
    if !rest.is_empty() {
        return Err(RowRefused::NoRow(3));
    }
    Ok(one(alloc, e)?)
}

/// An array, an index and an element.
pub fn replace_row(alloc: Global, ins: &[Ty]) -> Result<TyList, RowRefused>
    ensures gives { IfOk result (λ outs. read (spec.row op.Replace) ins.now ≡ Some outs) }
    ensures refused { IfErr result (IsRefusal (spec.row op.Replace) ins.now) }
{
    let [a, rest @ ..] = ins else {
        return Err(RowRefused::NoRow(1));
    };
    if !is_array(a) {
        return Err(RowRefused::NoRow(1));
    }
    let [i, rest @ ..] = rest else {
        return Err(RowRefused::NoRow(2));
    };
    if !is_num(i) {
        return Err(RowRefused::NoRow(2));
    }
    let [e, rest @ ..] = rest else {
        return Err(RowRefused::NoRow(3));
    };
    if !is_assignable_to_item(e, a) {
        return Err(RowRefused::NoRow(3));
    }
    if !rest.is_empty() {
        return Err(RowRefused::NoRow(4));
    }
    Ok(one_copy(alloc, a)?)
}

/// An array and an element.
pub fn build_row(alloc: Global, ins: &[Ty]) -> Result<TyList, RowRefused>
    ensures gives { IfOk result (λ outs. read (spec.row op.Build) ins.now ≡ Some outs) }
    ensures refused { IfErr result (IsRefusal (spec.row op.Build) ins.now) }
{
    let [a, rest @ ..] = ins else {
        return Err(RowRefused::NoRow(1));
    };
    if !is_array(a) {
        return Err(RowRefused::NoRow(1));
    }
    let [e, rest @ ..] = rest else {
        return Err(RowRefused::NoRow(2));
    };
    if !is_assignable_to_item(e, a) {
        return Err(RowRefused::NoRow(2));
    }
    if !rest.is_empty() {
        return Err(RowRefused::NoRow(3));
    }
    Ok(one_copy(alloc, a)?)
}

/// Two arrays of one type.
pub fn concat_row(alloc: Global, ins: &[Ty]) -> Result<TyList, RowRefused>
    ensures gives { IfOk result (λ outs. read (spec.row op.Concat) ins.now ≡ Some outs) }
    ensures refused { IfErr result (IsRefusal (spec.row op.Concat) ins.now) }
{
    let [a, rest @ ..] = ins else {
        return Err(RowRefused::NoRow(1));
    };
    if !is_array(a) {
        return Err(RowRefused::NoRow(1));
    }
    let [b, rest @ ..] = rest else {
        return Err(RowRefused::NoRow(2));
    };
    if !is_same(a, b) {
        return Err(RowRefused::NoRow(2));
    }
    if !rest.is_empty() {
        return Err(RowRefused::NoRow(3));
    }
    Ok(one_copy(alloc, a)?)
}

fn is_element(e: &Ty) -> bool
    ensures { result ≡ spec.is_element e.now }
{
    !is_array(e) && fits(e, 7)
}

fn array_of(alloc: Global, e: &Ty) -> Result<TyList, AllocError>
    ensures { IfOk result (λ ts. ts ≡ Ty.Arr e.now ∷ []) }
{
    let e = copy(alloc, e)?;
    one(alloc, Ty::Arr(Boxed::new(alloc, e)?))
}

/// An element and a count.
pub fn initialize_row(alloc: Global, ins: &[Ty]) -> Result<TyList, RowRefused>
    ensures gives { IfOk result (λ outs. read (spec.row op.Initialize) ins.now ≡ Some outs) }
    ensures refused { IfErr result (IsRefusal (spec.row op.Initialize) ins.now) }
{
    let [e, rest @ ..] = ins else {
        return Err(RowRefused::NoRow(1));
    };
    if !is_element(e) {
        return Err(RowRefused::NoRow(1));
    }
    let [n, rest @ ..] = rest else {
        return Err(RowRefused::NoRow(2));
    };
    if !is_num(n) {
        return Err(RowRefused::NoRow(2));
    }
    if !rest.is_empty() {
        return Err(RowRefused::NoRow(3));
    }
    Ok(array_of(alloc, e)?)
}

/// An array, an index and a count.
pub fn subset_row(alloc: Global, ins: &[Ty]) -> Result<TyList, RowRefused>
    ensures gives { IfOk result (λ outs. read (spec.row op.Subset) ins.now ≡ Some outs) }
    ensures refused { IfErr result (IsRefusal (spec.row op.Subset) ins.now) }
{
    let [a, rest @ ..] = ins else {
        return Err(RowRefused::NoRow(1));
    };
    if !is_array(a) {
        return Err(RowRefused::NoRow(1));
    }
    let [i, rest @ ..] = rest else {
        return Err(RowRefused::NoRow(2));
    };
    if !is_num(i) {
        return Err(RowRefused::NoRow(2));
    }
    let [n, rest @ ..] = rest else {
        return Err(RowRefused::NoRow(3));
    };
    if !is_num(n) {
        return Err(RowRefused::NoRow(3));
    }
    if !rest.is_empty() {
        return Err(RowRefused::NoRow(4));
    }
    Ok(one_copy(alloc, a)?)
}

/// An array, an index and a count, with two arrays.
pub fn delete_row(alloc: Global, ins: &[Ty]) -> Result<TyList, RowRefused>
    ensures gives { IfOk result (λ outs. read (spec.row op.Delete) ins.now ≡ Some outs) }
    ensures refused { IfErr result (IsRefusal (spec.row op.Delete) ins.now) }
{
    let [a, rest @ ..] = ins else {
        return Err(RowRefused::NoRow(1));
    };
    if !is_array(a) {
        return Err(RowRefused::NoRow(1));
    }
    let [i, rest @ ..] = rest else {
        return Err(RowRefused::NoRow(2));
    };
    if !is_num(i) {
        return Err(RowRefused::NoRow(2));
    }
    let [n, rest @ ..] = rest else {
        return Err(RowRefused::NoRow(3));
    };
    if !is_num(n) {
        return Err(RowRefused::NoRow(3));
    }
    if !rest.is_empty() {
        return Err(RowRefused::NoRow(4));
    }
    Ok(two_copies(alloc, a)?)
}

/// An array.
pub fn reverse_row(alloc: Global, ins: &[Ty]) -> Result<TyList, RowRefused>
    ensures gives { IfOk result (λ outs. read (spec.row op.Reverse) ins.now ≡ Some outs) }
    ensures refused { IfErr result (IsRefusal (spec.row op.Reverse) ins.now) }
{
    let [a, rest @ ..] = ins else {
        return Err(RowRefused::NoRow(1));
    };
    if !is_array(a) {
        return Err(RowRefused::NoRow(1));
    }
    if !rest.is_empty() {
        return Err(RowRefused::NoRow(2));
    }
    Ok(one_copy(alloc, a)?)
}

fn is_sortable(a: &Ty) -> bool
    ensures { result ≡ spec.is_sortable a.now }
{
    is_nums(a) || is_strs(a)
}

/// An array of numbers or strings.
pub fn sort_row(alloc: Global, ins: &[Ty]) -> Result<TyList, RowRefused>
    ensures gives { IfOk result (λ outs. read (spec.row op.Sort) ins.now ≡ Some outs) }
    ensures refused { IfErr result (IsRefusal (spec.row op.Sort) ins.now) }
{
    let [a, rest @ ..] = ins else {
        return Err(RowRefused::NoRow(1));
    };
    if !is_sortable(a) {
        return Err(RowRefused::NoRow(1));
    }
    if !rest.is_empty() {
        return Err(RowRefused::NoRow(2));
    }
    Ok(one_copy(alloc, a)?)
}

/// An array of numbers, of which a number is given.
pub fn sum_row(alloc: Global, ins: &[Ty]) -> Result<TyList, RowRefused>
    ensures gives { IfOk result (λ outs. read (spec.row op.Sum) ins.now ≡ Some outs) }
    ensures refused { IfErr result (IsRefusal (spec.row op.Sum) ins.now) }
{
    let [a, rest @ ..] = ins else {
        return Err(RowRefused::NoRow(1));
    };
    if !is_nums(a) {
        return Err(RowRefused::NoRow(1));
    }
    let Some(e) = item(alloc, a)? else {
        return Err(RowRefused::NoRow(1));
    };
    if !rest.is_empty() {
        return Err(RowRefused::NoRow(2));
    }
    Ok(one(alloc, e)?)
}

fn is_searchable(a: &Ty) -> bool
    ensures { result ≡ spec.is_searchable a.now }
{
    is_array(a) && !has_reference(a)
}

/// An array without references and an element.
pub fn search_row(alloc: Global, ins: &[Ty]) -> Result<TyList, RowRefused>
    ensures gives { IfOk result (λ outs. read (spec.row op.Search) ins.now ≡ Some outs) }
    ensures refused { IfErr result (IsRefusal (spec.row op.Search) ins.now) }
{
    let [a, rest @ ..] = ins else {
        return Err(RowRefused::NoRow(1));
    };
    if !is_searchable(a) {
        return Err(RowRefused::NoRow(1));
    }
    let [e, rest @ ..] = rest else {
        return Err(RowRefused::NoRow(2));
    };
    if !is_assignable_to_item(e, a) {
        return Err(RowRefused::NoRow(2));
    }
    if !rest.is_empty() {
        return Err(RowRefused::NoRow(3));
    }
    Ok(one(alloc, Ty::Num(Rep::I32))?)
}
