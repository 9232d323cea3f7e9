//! Rows of operations on strings.

ghost use Rattle.std.specs.Prelude.{◌≡◌, IfOk, IfErr, Some, ◌∷◌, []};
ghost use Rattle.g_prims_definitions.specs.Row.{read};
ghost use Rattle.g_prims_definitions.specs.Rows as spec;
ghost use Rattle.g_prims.specs.Refusals.{IsRefusal};
ghost use Rattle.g_values.specs.declared.primitive.Primitive.TheVariants as op;

use crate::kinds::{is_num, is_str};
use crate::outs::{numbers, one, two};
use crate::refusal::RowRefused;
use g_types::{Rep, Ty, TyList};
use std::alloc::{AllocError, Global};

/// A string, whose length is given.
pub fn str_len_row(alloc: Global, ins: &[Ty]) -> Result<TyList, RowRefused>
    ensures gives { IfOk result (λ outs. read (spec.row op.StrLen) ins.now ≡ Some outs) }
    ensures refused { IfErr result (IsRefusal (spec.row op.StrLen) ins.now) }
{
    let [s, rest @ ..] = ins else {
        return Err(RowRefused::NoRow(1));
    };
    if !is_str(s) {
        return Err(RowRefused::NoRow(1));
    }
    if !rest.is_empty() {
        return Err(RowRefused::NoRow(2));
    }
    Ok(one(alloc, Ty::Num(Rep::I32))?)
}

/// Two strings.
pub fn str_concat_row(alloc: Global, ins: &[Ty]) -> Result<TyList, RowRefused>
    ensures gives { IfOk result (λ outs. read (spec.row op.StrConcat) ins.now ≡ Some outs) }
    ensures refused { IfErr result (IsRefusal (spec.row op.StrConcat) ins.now) }
{
    let [s, rest @ ..] = ins else {
        return Err(RowRefused::NoRow(1));
    };
    if !is_str(s) {
        return Err(RowRefused::NoRow(1));
    }
    let [t, rest @ ..] = rest else {
        return Err(RowRefused::NoRow(2));
    };
    if !is_str(t) {
        return Err(RowRefused::NoRow(2));
    }
    if !rest.is_empty() {
        return Err(RowRefused::NoRow(3));
    }
    Ok(one(alloc, Ty::Str)?)
}

/// A string, an index and a count.
pub fn str_subset_row(alloc: Global, ins: &[Ty]) -> Result<TyList, RowRefused>
    ensures gives { IfOk result (λ outs. read (spec.row op.StrSubset) ins.now ≡ Some outs) }
    ensures refused { IfErr result (IsRefusal (spec.row op.StrSubset) ins.now) }
{
    let [s, rest @ ..] = ins else {
        return Err(RowRefused::NoRow(1));
    };
    if !is_str(s) {
        return Err(RowRefused::NoRow(1));
    }
    let [i, rest @ ..] = rest else {
        return Err(RowRefused::NoRow(2));
    };
    if !is_num(i) {
        return Err(RowRefused::NoRow(2));
    }
    let [n, rest @ ..] = rest else {
        return Err(RowRefused::NoRow(3));
    };
    if !is_num(n) {
        return Err(RowRefused::NoRow(3));
    }
    if !rest.is_empty() {
        return Err(RowRefused::NoRow(4));
    }
    Ok(one(alloc, Ty::Str)?)
}

fn bytes(alloc: Global) -> Result<TyList, AllocError>
    ensures { IfOk result (λ ts. ts ≡ spec.bytes ∷ []) }
{
    let ty = numbers(alloc, Rep::U8)?;
    one(alloc, ty)
}

/// A string, whose bytes are given.
pub fn str_bytes_row(alloc: Global, ins: &[Ty]) -> Result<TyList, RowRefused>
    ensures gives { IfOk result (λ outs. read (spec.row op.StrBytes) ins.now ≡ Some outs) }
    ensures refused { IfErr result (IsRefusal (spec.row op.StrBytes) ins.now) }
{
    let [s, rest @ ..] = ins else {
        return Err(RowRefused::NoRow(1));
    };
    if !is_str(s) {
        return Err(RowRefused::NoRow(1));
    }
    if !rest.is_empty() {
        return Err(RowRefused::NoRow(2));
    }
    Ok(bytes(alloc)?)
}

fn is_bytes(a: &Ty) -> bool
    ensures { result ≡ spec.is_bytes a.now }
{
    match a {
        Ty::Arr(item) => matches!(item.get(), Ty::Num(Rep::U8)),
        _ => false,
    }
}

/// An array of bytes.
pub fn bytes_str_row(alloc: Global, ins: &[Ty]) -> Result<TyList, RowRefused>
    ensures gives { IfOk result (λ outs. read (spec.row op.BytesStr) ins.now ≡ Some outs) }
    ensures refused { IfErr result (IsRefusal (spec.row op.BytesStr) ins.now) }
{
    let [a, rest @ ..] = ins else {
        return Err(RowRefused::NoRow(1));
    };
    if !is_bytes(a) {
        return Err(RowRefused::NoRow(1));
    }
    if !rest.is_empty() {
        return Err(RowRefused::NoRow(2));
    }
    Ok(one(alloc, Ty::Str)?)
}

/// A number, whose text is given.
pub fn num_str_row(alloc: Global, ins: &[Ty]) -> Result<TyList, RowRefused>
    ensures gives { IfOk result (λ outs. read (spec.row op.NumStr) ins.now ≡ Some outs) }
    ensures refused { IfErr result (IsRefusal (spec.row op.NumStr) ins.now) }
{
    let [x, rest @ ..] = ins else {
        return Err(RowRefused::NoRow(1));
    };
    if !is_num(x) {
        return Err(RowRefused::NoRow(1));
    }
    if !rest.is_empty() {
        return Err(RowRefused::NoRow(2));
    }
    Ok(one(alloc, Ty::Str)?)
}

/// A string, whose number is given.
pub fn str_num_row(alloc: Global, ins: &[Ty]) -> Result<TyList, RowRefused>
    ensures gives { IfOk result (λ outs. read (spec.row op.StrNum) ins.now ≡ Some outs) }
    ensures refused { IfErr result (IsRefusal (spec.row op.StrNum) ins.now) }
{
    let [s, rest @ ..] = ins else {
        return Err(RowRefused::NoRow(1));
    };
    if !is_str(s) {
        return Err(RowRefused::NoRow(1));
    }
    if !rest.is_empty() {
        return Err(RowRefused::NoRow(2));
    }
    Ok(two(alloc, Ty::Num(Rep::I64), Ty::Bool)?)
}
