//! Rows of operations on clusters.

ghost use Rattle.std.specs.Prelude.{◌≡◌, IfOk, IfErr, Some};
ghost use Rattle.g_prims_definitions.specs.Kinds as kinds;
ghost use Rattle.g_prims_definitions.specs.Row.{read};
ghost use Rattle.g_prims_definitions.specs.Rows as spec;
ghost use Rattle.g_prims.specs.Refusals.{IsRefusal, first_out};
ghost use Rattle.g_values.specs.declared.primitive.Primitive.TheVariants as op;

use crate::kinds::is_assignable_to_part;
use crate::outs::{one, one_copy};
use crate::refusal::RowRefused;
use g_types::{Ty, TyList, copy, copy_all, fits};
use std::alloc::{AllocError, Global};

/// The first input, from 1, that is the 65th or too deep to stand in a cluster, if there is one.
fn first_out(ins: &[Ty]) -> Option<u32>
    ensures { result ≡ first_out 0 ins.now }
{
    for i in 0..ins.len() {
        let item = &ins[i];
        if i >= 64 {
            return Some(65);
        }
        if !fits(item, 7) {
            return Some(i as u32 + 1);
        }
    }
    None
}

/// One to 64 values, as a cluster.
#[tactic(auto, using(crate::proofs::Bundles::bundles))]
pub fn bundle_row(alloc: Global, ins: &[Ty]) -> Result<TyList, RowRefused>
    ensures gives { IfOk result (λ outs. read (spec.row op.Bundle) ins.now ≡ Some outs) }
    ensures refused { IfErr result (IsRefusal (spec.row op.Bundle) ins.now) }
{
    if ins.is_empty() {
        return Err(RowRefused::NoRow(1));
    }
    if let Some(k) = first_out(ins) {
        return Err(RowRefused::NoRow(k));
    }
    let parts = copy_all(alloc, ins)?;
    Ok(one(alloc, Ty::Cluster(parts))?)
}

/// A cluster, whose elements are given.
pub fn unbundle_row(alloc: Global, ins: &[Ty]) -> Result<TyList, RowRefused>
    ensures gives { IfOk result (λ outs. read (spec.row op.Unbundle) ins.now ≡ Some outs) }
    ensures refused { IfErr result (IsRefusal (spec.row op.Unbundle) ins.now) }
{
    let [c, rest @ ..] = ins else {
        return Err(RowRefused::NoRow(1));
    };
    let Ty::Cluster(parts) = c else {
        return Err(RowRefused::NoRow(1));
    };
    if !rest.is_empty() {
        return Err(RowRefused::NoRow(2));
    }
    Ok(copy_all(alloc, parts.as_slice())?)
}

/// The type of an element of the cluster.
fn part(alloc: Global, c: &Ty, k: u8) -> Result<Option<Ty>, AllocError>
    ensures { IfOk result (λ t. t ≡ kinds.part k c.now) }
{
    match c {
        Ty::Cluster(parts) => match parts.get(usize::from(k)) {
            Some(part) => Ok(Some(copy(alloc, part)?)),
            None => Ok(None),
        },
        _ => Ok(None),
    }
}

/// A cluster, of which an element is given.
pub fn get_row(alloc: Global, k: u8, ins: &[Ty]) -> Result<TyList, RowRefused>
    ensures gives { IfOk result (λ outs. read (spec.row (op.Get k)) ins.now ≡ Some outs) }
    ensures refused { IfErr result (IsRefusal (spec.row (op.Get k)) ins.now) }
{
    let [c, rest @ ..] = ins else {
        return Err(RowRefused::NoRow(1));
    };
    let Some(e) = part(alloc, c, k)? else {
        return Err(RowRefused::NoRow(1));
    };
    if !rest.is_empty() {
        return Err(RowRefused::NoRow(2));
    }
    Ok(one(alloc, e)?)
}

/// A cluster and another value for an element.
pub fn set_row(alloc: Global, k: u8, ins: &[Ty]) -> Result<TyList, RowRefused>
    ensures gives { IfOk result (λ outs. read (spec.row (op.Set k)) ins.now ≡ Some outs) }
    ensures refused { IfErr result (IsRefusal (spec.row (op.Set k)) ins.now) }
{
    let [c, rest @ ..] = ins else {
        return Err(RowRefused::NoRow(1));
    };
    if !has_part(c, k) {
        return Err(RowRefused::NoRow(1));
    }
    let [e, rest @ ..] = rest else {
        return Err(RowRefused::NoRow(2));
    };
    if !is_assignable_to_part(e, c, k) {
        return Err(RowRefused::NoRow(2));
    }
    if !rest.is_empty() {
        return Err(RowRefused::NoRow(3));
    }
    Ok(one_copy(alloc, c)?)
}

/// Whether the type is a cluster with so many elements before another.
fn has_part(c: &Ty, k: u8) -> bool
    ensures { result ≡ spec.is_known (kinds.part k c.now) }
{
    match c {
        Ty::Cluster(parts) => match parts.get(usize::from(k)) {
            Some(_) => true,
            None => false,
        },
        _ => false,
    }
}
