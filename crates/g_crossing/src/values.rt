//! Values of frames: those of registers, and elements of arrays and clusters.

ghost use Rattle.std.specs.Prelude.{◌≡◌, ◌+◌, pos, IfOk, Some};
ghost use Rattle.std.specs.Option.{option_copied, option_map, option_map_or};
ghost use Rattle.g_border.specs.Lines as border;
ghost use Rattle.g_border.specs.Readers.{value_on};
ghost use Rattle.g_prims_definitions.specs.Arithmetic.{nothing};
ghost use Rattle.g_prims_definitions.specs.Arrays.{index_array, indexed_at, number_of};
ghost use Rattle.g_prims_definitions.specs.Clusters as clusters;
ghost use Rattle.g_prims_definitions.specs.Clusters.{or_nothing};
ghost use Rattle.g_values.specs.Value as values;
ghost use Rattle.g_values.specs.declared.value.Value.{out-Value};
ghost use Rattle.g_wire_values.specs.Wires.{reader};
ghost use Rattle.g_crossing.specs.Kept as spec;

use g_diagram::{Tunnel, Wire};
use g_prims_edits::get;
use g_prims_evaluation::index_array;
use g_types::{Rep, Ty};
use g_values::{Copies, Num, Value, coerce, copy, type_of};
use g_wire_values::Wires;
use std::alloc::{AllocError, Global};

/// The next line. One of 2^32 or more is told as want of memory, since no listing has it.
pub fn next(line: u32) -> Result<u32, AllocError>
    ensures { IfOk result (λ n. n ≡ line + 1) }
{
    line.checked_add(1).ok_or(AllocError)
}

/// The number of the kept register after a line.
pub fn next_kept(tunnel: &Tunnel, register: usize) -> Result<usize, AllocError>
    ensures { IfOk result (λ k. k ≡ spec.next_kept tunnel.now register) }
{
    match tunnel {
        Tunnel::Kept { .. } => register.checked_add(1).ok_or(AllocError),
        Tunnel::Tunnel { .. }
        | Tunnel::Register { .. }
        | Tunnel::Last { .. }
        | Tunnel::Gather { .. }
        | Tunnel::Index { .. }
        | Tunnel::Result { .. }
        | Tunnel::Carry { .. }
        | Tunnel::Ref { .. }
        | Tunnel::Element { .. }
        | Tunnel::Field { .. } => Ok(register),
    }
}

/// What a kept register had when its loop started, by its number.
pub fn kept_at(kept: &[Value], register: usize) -> Option<&Value>
    ensures { or_nothing (option_copied result) ≡ spec.kept_value kept.now register }
{
    kept.get(register)
}

/// The value at an operand in its place.
pub fn value_at<'a>(wires: &Wires<'a>, wire: &Wire) -> Option<&'a Value>
    ensures { or_nothing (option_copied result) ≡ value_on (reader wires.now) wire.now }
{
    match wire {
        Some(name) => wires.get(name.as_slice()),
        None => None,
    }
}

/// A copy of a value, and FALSE where there is none.
pub fn copied(alloc: Global, value: Option<&Value>) -> Result<Value, AllocError>
    ensures copied { IfOk result (λ v. v ≡ or_nothing (option_copied value.entry)) }
    ensures referred { IfOk result (λ v. v ≡ option_map_or (λ r. r.now) value.entry nothing) }
{
    match value {
        Some(value) => copy(alloc, value, &mut Copies { n: 0 }),
        None => Ok(Value::Bool(false)),
    }
}

fn type_on(alloc: Global, value: Option<&Value>) -> Result<Ty, AllocError>
    ensures { IfOk result (λ t. t ≡ values.type_of (or_nothing (option_copied value.entry))) }
{
    match value {
        Some(value) => type_of(alloc, value),
        None => Ok(Ty::Bool),
    }
}

/// A value in a frame, coerced to a type.
fn coerced(alloc: Global, wires: &Wires, wire: &Wire, ty: &Ty) -> Result<Value, AllocError>
    ensures { IfOk result (λ v. v ≡ border.register_value (Some (reader wires.now)) nothing ty.now wire.now) }
{
    let value = wires.value(alloc, wire)?;
    Ok(coerce(value, ty))
}

/// What a register with an initial value has.
pub fn register(
    alloc: Global,
    outer: &Wires,
    latest: Option<Wires>,
    initial: &Wire,
    next: &Wire,
) -> Result<Value, AllocError>
    ensures { IfOk result (λ v. v ≡ border.register_value (option_map reader latest.entry) (value_on (reader outer.now) initial.now) (values.type_of (value_on (reader outer.now) initial.now)) next.now) }
{
    let first = value_at(outer, initial);
    let Some(latest) = latest else {
        return copied(alloc, first);
    };
    let ty = type_on(alloc, first)?;
    coerced(alloc, &latest, next, &ty)
}

/// What a register has that keeps its value between runs of its loop.
pub fn kept_register(
    alloc: Global,
    latest: Option<Wires>,
    kept: Option<&Value>,
    ty: &Ty,
    next: &Wire,
) -> Result<Value, AllocError>
    ensures { IfOk result (λ v. v ≡ border.register_value (option_map reader latest.entry) (or_nothing (option_copied kept.entry)) ty.now next.now) }
{
    match latest {
        None => copied(alloc, kept),
        Some(latest) => coerced(alloc, &latest, next, ty),
    }
}

/// A value in the latest frame, and FALSE where there is no frame.
pub fn value_in(alloc: Global, latest: Option<Wires>, wire: &Wire) -> Result<Value, AllocError>
    ensures { IfOk result (λ v. v ≡ border.value_in (option_map reader latest.entry) wire.now nothing) }
{
    match latest {
        Some(latest) => latest.value(alloc, wire),
        None => Ok(Value::Bool(false)),
    }
}

fn whole(n: u64) -> Value
    ensures { number_of result ≡ pos n }
{
    Value::Num(Num {
        rep: Rep::U64,
        n: i128::from(n),
    })
}

/// The element of an array at an index. What is no array has none.
fn element(alloc: Global, array: Option<&Value>, index: &Value) -> Result<Value, AllocError>
    ensures { IfOk result (λ v. v ≡ index_array (or_nothing (option_copied array.entry)) index.now) }
{
    match array {
        Some(array) => index_array(alloc, array, index),
        None => Ok(Value::Bool(false)),
    }
}

/// The element that an iteration gets of an array.
pub fn element_of_iteration(
    alloc: Global,
    outer: &Wires,
    array: &Wire,
    iteration: u64,
) -> Result<Value, AllocError>
    ensures { IfOk result (λ v. v ≡ indexed_at (out-Value (value_on (reader outer.now) array.now)) (pos iteration)) }
{
    element(alloc, value_at(outer, array), &whole(iteration))
}

/// The element of an array at an index that is wired.
pub fn element_on(
    alloc: Global,
    outer: &Wires,
    array: &Wire,
    index: &Wire,
) -> Result<Value, AllocError>
    ensures { IfOk result (λ v. v ≡ index_array (value_on (reader outer.now) array.now) (value_on (reader outer.now) index.now)) }
{
    let index = outer.value(alloc, index)?;
    element(alloc, value_at(outer, array), &index)
}

/// Element k of a cluster, from 0. What is no cluster has none.
fn part(alloc: Global, k: u8, cluster: Option<&Value>) -> Result<Value, AllocError>
    ensures { IfOk result (λ v. v ≡ clusters.get k (or_nothing (option_copied cluster.entry))) }
{
    match cluster {
        Some(cluster) => get(alloc, k, cluster),
        None => Ok(Value::Bool(false)),
    }
}

/// Element k of a cluster that is wired.
pub fn part_on(alloc: Global, outer: &Wires, k: u8, cluster: &Wire) -> Result<Value, AllocError>
    ensures { IfOk result (λ v. v ≡ clusters.get k (value_on (reader outer.now) cluster.now)) }
{
    part(alloc, k, value_at(outer, cluster))
}
