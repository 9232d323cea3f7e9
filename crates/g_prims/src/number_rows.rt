//! Rows of operations on numbers and Booleans.

ghost use Rattle.std.specs.Prelude.{◌≡◌, IfOk, IfErr, Some};
ghost use Rattle.g_prims_definitions.specs.Row.{read};
ghost use Rattle.g_prims_definitions.specs.Rows as spec;
ghost use Rattle.g_prims.specs.Refusals.{IsRefusal};
ghost use Rattle.g_values.specs.declared.primitive.Primitive.TheVariants as op;

use crate::kinds::{
    elementwise, has_bits, has_reference, is_bool, is_num, is_numeric, is_nums, is_same, is_str,
    wide,
};
use crate::outs::{numbers, one, one_copy, two};
use crate::refusal::RowRefused;
use g_types::{Rep, Ty, TyList, copy};
use std::alloc::{AllocError, Global};

/// Two numbers or arrays of numbers.
pub fn arithmetic_row(alloc: Global, ins: &[Ty]) -> Result<TyList, RowRefused>
    ensures gives { IfOk result (λ outs. read (spec.row op.Add) ins.now ≡ Some outs) }
    ensures refused { IfErr result (IsRefusal (spec.row op.Add) ins.now) }
{
    let [x, rest @ ..] = ins else {
        return Err(RowRefused::NoRow(1));
    };
    if !is_numeric(x) {
        return Err(RowRefused::NoRow(1));
    }
    let [y, rest @ ..] = rest else {
        return Err(RowRefused::NoRow(2));
    };
    let Some(z) = elementwise(alloc, x, y)? else {
        return Err(RowRefused::NoRow(2));
    };
    if !rest.is_empty() {
        return Err(RowRefused::NoRow(3));
    }
    Ok(one(alloc, z)?)
}

/// Two numbers or arrays of numbers, or two Booleans or arrays of them.
pub fn bitwise_row(alloc: Global, ins: &[Ty]) -> Result<TyList, RowRefused>
    ensures gives { IfOk result (λ outs. read (spec.row op.And) ins.now ≡ Some outs) }
    ensures refused { IfErr result (IsRefusal (spec.row op.And) ins.now) }
{
    let [x, rest @ ..] = ins else {
        return Err(RowRefused::NoRow(1));
    };
    if !has_bits(x) {
        return Err(RowRefused::NoRow(1));
    }
    let [y, rest @ ..] = rest else {
        return Err(RowRefused::NoRow(2));
    };
    let Some(z) = elementwise(alloc, x, y)? else {
        return Err(RowRefused::NoRow(2));
    };
    if !rest.is_empty() {
        return Err(RowRefused::NoRow(3));
    }
    Ok(one(alloc, z)?)
}

/// A number or an array of numbers, which is given too.
pub fn numeric_row(alloc: Global, ins: &[Ty]) -> Result<TyList, RowRefused>
    ensures gives { IfOk result (λ outs. read (spec.row op.Inc) ins.now ≡ Some outs) }
    ensures refused { IfErr result (IsRefusal (spec.row op.Inc) ins.now) }
{
    let [x, rest @ ..] = ins else {
        return Err(RowRefused::NoRow(1));
    };
    if !is_numeric(x) {
        return Err(RowRefused::NoRow(1));
    }
    if !rest.is_empty() {
        return Err(RowRefused::NoRow(2));
    }
    Ok(one_copy(alloc, x)?)
}

/// A number, a Boolean or an array of them, which is given too.
pub fn not_row(alloc: Global, ins: &[Ty]) -> Result<TyList, RowRefused>
    ensures gives { IfOk result (λ outs. read (spec.row op.Not) ins.now ≡ Some outs) }
    ensures refused { IfErr result (IsRefusal (spec.row op.Not) ins.now) }
{
    let [x, rest @ ..] = ins else {
        return Err(RowRefused::NoRow(1));
    };
    if !has_bits(x) {
        return Err(RowRefused::NoRow(1));
    }
    if !rest.is_empty() {
        return Err(RowRefused::NoRow(2));
    }
    Ok(one_copy(alloc, x)?)
}

/// Two numbers, with two results.
pub fn pair_row(alloc: Global, ins: &[Ty]) -> Result<TyList, RowRefused>
    ensures gives { IfOk result (λ outs. read (spec.row op.QuotRem) ins.now ≡ Some outs) }
    ensures refused { IfErr result (IsRefusal (spec.row op.QuotRem) ins.now) }
{
    let [x, rest @ ..] = ins else {
        return Err(RowRefused::NoRow(1));
    };
    if !is_num(x) {
        return Err(RowRefused::NoRow(1));
    }
    let [y, rest @ ..] = rest else {
        return Err(RowRefused::NoRow(2));
    };
    let Some(z) = wide(x, y) else {
        return Err(RowRefused::NoRow(2));
    };
    if !rest.is_empty() {
        return Err(RowRefused::NoRow(3));
    }
    let other = copy(alloc, &z)?;
    Ok(two(alloc, z, other)?)
}

/// Two numbers, of which the first type is given.
pub fn shift_row(alloc: Global, ins: &[Ty]) -> Result<TyList, RowRefused>
    ensures gives { IfOk result (λ outs. read (spec.row op.Shift) ins.now ≡ Some outs) }
    ensures refused { IfErr result (IsRefusal (spec.row op.Shift) ins.now) }
{
    let [x, rest @ ..] = ins else {
        return Err(RowRefused::NoRow(1));
    };
    if !is_num(x) {
        return Err(RowRefused::NoRow(1));
    }
    let [y, rest @ ..] = rest else {
        return Err(RowRefused::NoRow(2));
    };
    if !is_num(y) {
        return Err(RowRefused::NoRow(2));
    }
    if !rest.is_empty() {
        return Err(RowRefused::NoRow(3));
    }
    Ok(one_copy(alloc, x)?)
}

fn converted(alloc: Global, rep: Rep, x: &Ty) -> Result<Option<Ty>, AllocError>
    ensures { IfOk result (λ t. spec.single t ≡ spec.converted rep x.now) }
{
    if is_num(x) {
        return Ok(Some(Ty::Num(rep)));
    }
    if is_nums(x) {
        return Ok(Some(numbers(alloc, rep)?));
    }
    Ok(None)
}

/// A number or an array of numbers, to another representation.
pub fn conversion_row(alloc: Global, rep: Rep, ins: &[Ty]) -> Result<TyList, RowRefused>
    ensures gives { IfOk result (λ outs. read (spec.conversion rep) ins.now ≡ Some outs) }
    ensures refused { IfErr result (IsRefusal (spec.conversion rep) ins.now) }
{
    let [x, rest @ ..] = ins else {
        return Err(RowRefused::NoRow(1));
    };
    let Some(z) = converted(alloc, rep, x)? else {
        return Err(RowRefused::NoRow(1));
    };
    if !rest.is_empty() {
        return Err(RowRefused::NoRow(2));
    }
    Ok(one(alloc, z)?)
}

/// A Boolean, as a number.
pub fn bool_int_row(alloc: Global, ins: &[Ty]) -> Result<TyList, RowRefused>
    ensures gives { IfOk result (λ outs. read (spec.row op.BoolInt) ins.now ≡ Some outs) }
    ensures refused { IfErr result (IsRefusal (spec.row op.BoolInt) ins.now) }
{
    let [x, rest @ ..] = ins else {
        return Err(RowRefused::NoRow(1));
    };
    if !is_bool(x) {
        return Err(RowRefused::NoRow(1));
    }
    if !rest.is_empty() {
        return Err(RowRefused::NoRow(2));
    }
    Ok(one(alloc, Ty::Num(Rep::I16))?)
}

fn is_equal_kind(x: &Ty, y: &Ty) -> bool
    ensures { result ≡ spec.is_equal_kind x.now y.now }
{
    (is_num(x) && is_num(y)) || is_same(x, y)
}

/// Two values to be compared for equality.
pub fn equality_row(alloc: Global, ins: &[Ty]) -> Result<TyList, RowRefused>
    ensures gives { IfOk result (λ outs. read (spec.row op.Eq) ins.now ≡ Some outs) }
    ensures refused { IfErr result (IsRefusal (spec.row op.Eq) ins.now) }
{
    let [x, rest @ ..] = ins else {
        return Err(RowRefused::NoRow(1));
    };
    if has_reference(x) {
        return Err(RowRefused::NoRow(1));
    }
    let [y, rest @ ..] = rest else {
        return Err(RowRefused::NoRow(2));
    };
    if !is_equal_kind(x, y) {
        return Err(RowRefused::NoRow(2));
    }
    if !rest.is_empty() {
        return Err(RowRefused::NoRow(3));
    }
    Ok(one(alloc, Ty::Bool)?)
}

fn is_ordered(x: &Ty) -> bool
    ensures { result ≡ spec.is_ordered x.now }
{
    is_num(x) || is_str(x)
}

fn is_ordered_kind(x: &Ty, y: &Ty) -> bool
    ensures { result ≡ spec.is_ordered_kind x.now y.now }
{
    (is_num(x) && is_num(y)) || (is_str(x) && is_str(y))
}

/// Two numbers or two strings to be ordered.
pub fn order_row(alloc: Global, ins: &[Ty]) -> Result<TyList, RowRefused>
    ensures gives { IfOk result (λ outs. read (spec.row op.Lt) ins.now ≡ Some outs) }
    ensures refused { IfErr result (IsRefusal (spec.row op.Lt) ins.now) }
{
    let [x, rest @ ..] = ins else {
        return Err(RowRefused::NoRow(1));
    };
    if !is_ordered(x) {
        return Err(RowRefused::NoRow(1));
    }
    let [y, rest @ ..] = rest else {
        return Err(RowRefused::NoRow(2));
    };
    if !is_ordered_kind(x, y) {
        return Err(RowRefused::NoRow(2));
    }
    if !rest.is_empty() {
        return Err(RowRefused::NoRow(3));
    }
    Ok(one(alloc, Ty::Bool)?)
}

fn selected(alloc: Global, t: &Ty, f: &Ty) -> Result<Option<Ty>, AllocError>
    ensures { IfOk result (λ z. spec.single z ≡ spec.selected t.now f.now) }
{
    if is_num(t) && is_num(f) {
        return Ok(wide(t, f));
    }
    if !is_same(t, f) {
        return Ok(None);
    }
    Ok(Some(copy(alloc, t)?))
}

/// A Boolean and two values, one of which is given.
pub fn select_row(alloc: Global, ins: &[Ty]) -> Result<TyList, RowRefused>
    ensures gives { IfOk result (λ outs. read (spec.row op.Select) ins.now ≡ Some outs) }
    ensures refused { IfErr result (IsRefusal (spec.row op.Select) ins.now) }
{
    let [s, rest @ ..] = ins else {
        return Err(RowRefused::NoRow(1));
    };
    if !is_bool(s) {
        return Err(RowRefused::NoRow(1));
    }
    let [t, rest @ ..] = rest else {
        return Err(RowRefused::NoRow(2));
    };
    let [f, rest @ ..] = rest else {
        return Err(RowRefused::NoRow(3));
    };
    let Some(z) = selected(alloc, t, f)? else {
        return Err(RowRefused::NoRow(3));
    };
    if !rest.is_empty() {
        return Err(RowRefused::NoRow(4));
    }
    Ok(one(alloc, z)?)
}
