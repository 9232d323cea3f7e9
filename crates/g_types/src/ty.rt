//! Types.

ghost use Rattle.std.specs.Prelude.{◌≡◌, IfOk, OnOk, ◌++◌, map, IsTrue, ◌↔◌, ◌≤◌};
ghost use Rattle.g_types.specs.Ty as spec;

use crate::lists::Bytes;
use crate::rep::Rep;
use g_lists::{Boxed, List};
use std::alloc::{AllocError, Global};

/// The type of a value. A listing writes types that are at most 8 deep, whose arrays hold no arrays
/// and whose clusters have 1 to 64 elements.
#[derive(Drop)]
pub enum Ty {
    /// A whole number.
    Num(Rep),
    /// TRUE or FALSE.
    Bool,
    /// A text of bytes.
    Str,
    /// An array of elements of one type.
    Arr(Boxed<Ty>),
    /// A fixed number of elements, each of its own type.
    Cluster(List<Ty>),
    /// A reference to a queue of elements of the type.
    QueueRef(Boxed<Ty>),
    /// A reference to a value of the type.
    ValueRef(Boxed<Ty>),
}

/// Types in an order, as those of a cluster's elements.
pub type TyList = List<Ty>;

/// Whether the types are equal. Takes no memory. As of all equality, the order of the two is no matter.
#[cycle(same)]
pub fn same(a: &Ty, b: &Ty) -> bool
    ensures { IsTrue result ↔ (a.now ≡ b.now) }
{
    match a {
        Ty::Num(x) => match b {
            Ty::Num(y) => *x == *y,
            _ => false
        },
        Ty::Bool => match b {
            Ty::Bool => true,
            _ => false
        },
        Ty::Str => match b {
            Ty::Str => true,
            _ => false
        },
        Ty::Arr(x) => match b {
            Ty::Arr(y) => same(x.get(), y.get()),
            _ => false
        },
        Ty::QueueRef(x) => match b {
            Ty::QueueRef(y) => same(x.get(), y.get()),
            _ => false
        },
        Ty::ValueRef(x) => match b {
            Ty::ValueRef(y) => same(x.get(), y.get()),
            _ => false
        },
        Ty::Cluster(x) => match b {
            Ty::Cluster(y) => same_all(x.as_slice(), y.as_slice()),
            _ => false
        },
    }
}

#[cycle(same)]
fn same_all(xs: &[Ty], ys: &[Ty]) -> bool
    ensures { IsTrue result ↔ (xs.now ≡ ys.now) }
{
    if xs.len() != ys.len() {
        return false;
    }
    for i in 0..xs.len() {
        if !same(&xs[i], &ys[i]) {
            return false;
        }
    }
    true
}

/// Another owner of the same type. Only want of memory refuses it.
#[cycle(copy)]
pub fn copy(alloc: Global, ty: &Ty) -> Result<Ty, AllocError>
    ensures { IfOk result (λ t. t ≡ ty.now) }
{
    match ty {
        Ty::Num(rep) => Ok(Ty::Num(*rep)),
        Ty::Bool => Ok(Ty::Bool),
        Ty::Str => Ok(Ty::Str),
        Ty::Arr(item) => Ok(Ty::Arr(copy_boxed(alloc, item)?)),
        Ty::QueueRef(item) => Ok(Ty::QueueRef(copy_boxed(alloc, item)?)),
        Ty::ValueRef(item) => Ok(Ty::ValueRef(copy_boxed(alloc, item)?)),
        Ty::Cluster(items) => Ok(Ty::Cluster(copy_all(alloc, items.as_slice())?)),
    }
}

#[cycle(copy)]
fn copy_boxed(alloc: Global, item: &Boxed<Ty>) -> Result<Boxed<Ty>, AllocError>
    ensures { IfOk result (λ t. t ≡ item.now) }
{
    let item = copy(alloc, item.get())?;
    Boxed::new(alloc, item)
}

/// Other owners of the same types. Only want of memory refuses it.
#[cycle(copy)]
pub fn copy_all(alloc: Global, items: &[Ty]) -> Result<TyList, AllocError>
    ensures { IfOk result (λ all. all ≡ items.now) }
{
    let mut all = Vec::with_capacity(alloc, items.len())?;
    for item in items {
        all.push(copy(alloc, item)?)?;
    }
    Ok(List::from_vec(all))
}

fn is_num(ty: &Ty) -> bool
    ensures { result ≡ spec.is_num ty.now }
{
    match ty {
        Ty::Num(_) => true,
        _ => false,
    }
}

fn is_nums(ty: &Ty) -> bool
    ensures { result ≡ spec.is_nums ty.now }
{
    match ty {
        Ty::Arr(item) => is_num(item.get()),
        _ => false,
    }
}

/// Whether a value of the first type goes where one of the second is wanted: the types are equal, both
/// are numbers, or both are arrays of numbers. So it goes one way exactly where it goes the other: the
/// contract is met with the two exchanged. Takes no memory.
pub fn assignable(from: &Ty, to: &Ty) -> bool
    ensures { IsTrue result ↔ spec.IsAssignable from.now to.now }
{
    (is_num(from) && is_num(to)) || (is_nums(from) && is_nums(to)) || same(from, to)
}

/// The canonical text, as `{i32, [str], queue(u8)}`: one space after each comma and no other. Only want
/// of memory refuses it.
pub fn type_text(alloc: Global, ty: &Ty) -> Result<Bytes, AllocError>
    ensures { IfOk result (λ text. text ≡ spec.text ty.now) }
{
    let mut out = Vec::new(alloc);
    push_text(&mut out, ty)?;
    Ok(Bytes::from_vec(out))
}

fn rep_text(rep: Rep) -> &'static [u8]
    ensures { result.now ≡ spec.rep_text rep }
{
    match rep {
        Rep::I8 => b"i8",
        Rep::I16 => b"i16",
        Rep::I32 => b"i32",
        Rep::I64 => b"i64",
        Rep::U8 => b"u8",
        Rep::U16 => b"u16",
        Rep::U32 => b"u32",
        Rep::U64 => b"u64",
    }
}

#[cycle(text)]
fn push_text(out: &mut Vec<u8>, ty: &Ty) -> Result<(), AllocError>
    ensures { OnOk result (out.new.items ≡ out.old.items ++ spec.text ty.now) }
{
    match ty {
        Ty::Num(rep) => out.extend_from_slice(rep_text(*rep)),
        Ty::Bool => out.extend_from_slice(b"bool"),
        Ty::Str => out.extend_from_slice(b"str"),
        Ty::Arr(item) => push_around(out, b"[", item.get(), b"]"),
        Ty::QueueRef(item) => push_around(out, b"queue(", item.get(), b")"),
        Ty::ValueRef(item) => push_around(out, b"ref(", item.get(), b")"),
        Ty::Cluster(items) => {
            out.extend_from_slice(b"{")?;
            push_texts(out, items.as_slice())?;
            out.extend_from_slice(b"}")
        }
    }
}

#[cycle(text)]
fn push_around(out: &mut Vec<u8>, before: &[u8], item: &Ty, after: &[u8]) -> Result<(), AllocError>
    ensures { OnOk result (out.new.items ≡ out.old.items ++ (before.now ++ (spec.text item.now ++ after.now))) }
{
    out.extend_from_slice(before)?;
    push_text(out, item)?;
    out.extend_from_slice(after)
}

#[cycle(text)]
#[tactic(auto, using(crate::proofs::Texts::joined_more))]
fn push_texts(out: &mut Vec<u8>, items: &[Ty]) -> Result<(), AllocError>
    ensures { OnOk result (out.new.items ≡ out.old.items ++ spec.joined (map spec.text items.now)) }
{
    if items.is_empty() {
        return Ok(());
    }
    push_text(out, &items[0])?;
    for i in 1..items.len() {
        out.extend_from_slice(b", ")?;
        push_text(out, &items[i])?;
    }
    Ok(())
}

/// Whether the type is at most so many deep; one without parts is 1 deep. Takes no memory, and no more
/// than so many calls within one another.
#[cycle(fits)]
#[tactic(auto, using(crate::proofs::Depths::depths))]
pub fn fits(ty: &Ty, levels: usize) -> bool
    ensures { IsTrue result ↔ (spec.depth ty.now ≤ levels) }
{
    if levels == 0 {
        return false;
    }
    match ty {
        Ty::Num(_) | Ty::Bool | Ty::Str => true,
        Ty::Arr(item) => fits(item.get(), levels - 1),
        Ty::QueueRef(item) => fits(item.get(), levels - 1),
        Ty::ValueRef(item) => fits(item.get(), levels - 1),
        Ty::Cluster(items) => all_fit(items.as_slice(), levels - 1),
    }
}

#[cycle(fits)]
#[tactic(auto, using(crate::proofs::Depths::greatests))]
fn all_fit(items: &[Ty], levels: usize) -> bool
    ensures { IsTrue result ↔ (spec.greatest (map spec.depth items.now) ≤ levels) }
{
    for i in 0..items.len() {
        if !fits(&items[i], levels) {
            return false;
        }
    }
    true
}
