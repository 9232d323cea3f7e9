//! Operations on queues and on what references name.

ghost use Rattle.std.specs.Prelude.{◌≡◌, IfOk, map};
ghost use Rattle.g_values.specs.declared.value.Value.{out-Value};
ghost use Rattle.std.specs.Option.{option_map};
ghost use Rattle.g_border.specs.Readers.{value_on};
ghost use Rattle.g_diagram_table.specs.Seen.{seen};
ghost use Rattle.g_frames.specs.Effects as effects;
ghost use Rattle.g_frames.specs.Operations.{input_at};
ghost use Rattle.g_effects.specs.Requests as spec;
ghost use Rattle.g_here.specs.Here.{IsHere};

use crate::request::{done_after, done_with, input};
use g_diagram::{SharedOp, Wire};
use g_diagram_table::Entry;
use g_effects::Plan;
use g_here::Here;
use g_lists::List;
use g_objects::Operation;
use g_shared::{QueueOp, RefOp, count, not_live};
use g_types::Ty;
use g_values::{Live, RefValue, Value, coerce, default_of};
use std::alloc::{AllocError, Global};

fn one(alloc: Global, value: Value) -> Result<List<Value>, AllocError>
    ensures { IfOk result (λ vs. vs ≡ spec.one value) }
{
    let mut values = List::new(alloc);
    values.push(value)?;
    Ok(values)
}

fn two(alloc: Global, first: Value, second: Value) -> Result<List<Value>, AllocError>
    ensures { IfOk result (λ vs. vs ≡ spec.two first second) }
{
    let mut values = List::new(alloc);
    values.push(first)?;
    values.push(second)?;
    Ok(values)
}

/// What an operation gives by the null reference to a queue.
fn of_no_queue(
    alloc: Global,
    operation: SharedOp,
    item: &Ty,
) -> Result<Option<List<Value>>, AllocError>
    ensures { IfOk result (λ vs. vs ≡ spec.of_no_queue operation item.now) }
{
    match operation {
        SharedOp::Enqueue | SharedOp::Release => Ok(Some(one(alloc, not_live())?)),
        SharedOp::Dequeue => {
            let value = default_of(alloc, item)?;
            Ok(Some(two(alloc, value, not_live())?))
        }
        SharedOp::Size => Ok(Some(two(alloc, count(0), not_live())?)),
        SharedOp::NewRef | SharedOp::DelRef => Ok(None),
    }
}

/// What an operation gives by the null reference to a value.
fn of_no_cell(
    alloc: Global,
    operation: SharedOp,
    ty: &Ty,
) -> Result<Option<List<Value>>, AllocError>
    ensures { IfOk result (λ vs. vs ≡ spec.of_no_cell operation ty.now) }
{
    match operation {
        SharedOp::DelRef => {
            let value = default_of(alloc, ty)?;
            Ok(Some(two(alloc, value, not_live())?))
        }
        SharedOp::Enqueue
        | SharedOp::Dequeue
        | SharedOp::Release
        | SharedOp::Size
        | SharedOp::NewRef => Ok(None),
    }
}

fn queue_operation(operation: SharedOp, serial: u64, item: &Ty, put: Value) -> Option<Operation>
    ensures { result ≡ spec.queue_operation operation serial item.now put }
{
    match operation {
        SharedOp::Enqueue => Some(Operation::OnQueue(QueueOp::Enqueue(serial, coerce(put, item)))),
        SharedOp::Dequeue => Some(Operation::OnQueue(QueueOp::Dequeue(serial))),
        SharedOp::Release => Some(Operation::OnQueue(QueueOp::Release(serial))),
        SharedOp::Size => Some(Operation::OnQueue(QueueOp::Size(serial))),
        SharedOp::NewRef | SharedOp::DelRef => None,
    }
}

fn cell_operation(operation: SharedOp, serial: u64) -> Option<Operation>
    ensures { result ≡ spec.cell_operation operation serial }
{
    match operation {
        SharedOp::DelRef => Some(Operation::OnCell(RefOp::Delete(serial))),
        SharedOp::Enqueue
        | SharedOp::Dequeue
        | SharedOp::Release
        | SharedOp::Size
        | SharedOp::NewRef => None,
    }
}

/// The node is done with these outputs, if there are any.
fn done_with_some(
    alloc: Global,
    entry: &Entry<'_>,
    values: Option<List<Value>>,
) -> Result<Option<Plan>, AllocError>
    ensures { IfOk result (λ plan. plan ≡ option_map (spec.done_with (seen entry.now)) values) }
{
    match values {
        Some(values) => Ok(Some(done_with(alloc, entry, values)?)),
        None => Ok(None),
    }
}

/// The operation on what a live reference names, if there is one.
fn on_live(live: Live, operation: Option<Operation>) -> Option<Plan>
    ensures { result ≡ option_map (spec.done_after live.object) operation }
{
    match operation {
        Some(operation) => Some(done_after(live.object as usize, operation)),
        None => None,
    }
}

fn by_queue(
    alloc: Global,
    entry: &Entry<'_>,
    operation: SharedOp,
    put: Value,
    reference: &RefValue,
) -> Result<Option<Plan>, AllocError>
    ensures { IfOk result (λ plan. plan ≡ spec.by_queue (seen entry.now) operation put reference.now.elem reference.now.at) }
{
    match reference.at {
        Some(live) => Ok(on_live(
            live,
            queue_operation(operation, live.serial, &reference.elem, put),
        )),
        None => done_with_some(
            alloc,
            entry,
            of_no_queue(alloc, operation, &reference.elem)?,
        ),
    }
}

fn by_cell(
    alloc: Global,
    entry: &Entry<'_>,
    operation: SharedOp,
    reference: &RefValue,
) -> Result<Option<Plan>, AllocError>
    ensures { IfOk result (λ plan. plan ≡ spec.by_cell (seen entry.now) operation reference.now.elem reference.now.at) }
{
    match reference.at {
        Some(live) => Ok(on_live(live, cell_operation(operation, live.serial))),
        None => done_with_some(alloc, entry, of_no_cell(alloc, operation, &reference.elem)?),
    }
}

/// An operation by the reference that a value is. One by any other value can't be done.
fn by_reference(
    alloc: Global,
    entry: &Entry<'_>,
    operation: SharedOp,
    put: Value,
    reference: &Value,
) -> Result<Option<Plan>, AllocError>
    ensures { IfOk result (λ plan. plan ≡ spec.by_reference (seen entry.now) operation put (out-Value reference.now)) }
{
    match reference {
        Value::Queue(queue) => by_queue(alloc, entry, operation, put, queue),
        Value::Cell(cell) => by_cell(alloc, entry, operation, cell),
        Value::Num(_)
        | Value::Bool(_)
        | Value::Str(_)
        | Value::Nums(_)
        | Value::Arr(_)
        | Value::Cluster(_) => Ok(None),
    }
}

/// A `newref` makes the reference of its own place.
fn makes(here: &Here<'_, '_>, line: u32, value: Value) -> Plan
    ensures { (h : effects.Here) → IsHere here.now h → result ≡ spec.makes h line value }
{
    let object = here.tables.cell_object(here.frame.space, line);
    done_after(object, Operation::OnCell(RefOp::Make(value)))
}

fn by_value(
    alloc: Global,
    entry: &Entry<'_>,
    operation: SharedOp,
    put: Value,
    reference: Value,
) -> Result<Option<Plan>, AllocError>
    ensures { IfOk result (λ plan. plan ≡ spec.by_reference (seen entry.now) operation put (out-Value reference)) }
{
    by_reference(alloc, entry, operation, put, &reference)
}

/// An operation by the reference that the first input is.
fn by_inputs(
    alloc: Global,
    here: &Here<'_, '_>,
    entry: &Entry<'_>,
    operation: SharedOp,
    inputs: &[Wire],
) -> Result<Option<Plan>, AllocError>
    ensures { IfOk result (λ plan. (h : effects.Here) → IsHere here.now h → plan ≡ spec.by_reference (seen entry.now) operation (input_at (map (value_on h.outer) inputs.now) 1) (out-Value (input_at (map (value_on h.outer) inputs.now) 0))) }
{
    let wires = here.outer();
    let first = input(alloc, &wires, inputs, 0)?;
    let second = input(alloc, &wires, inputs, 1)?;
    let plan = by_value(alloc, entry, operation, second, first)?;
    Ok(plan)
}

/// A `newref` refers to its input.
fn by_newref(
    alloc: Global,
    here: &Here<'_, '_>,
    line: u32,
    inputs: &[Wire],
) -> Result<Plan, AllocError>
    ensures { IfOk result (λ plan. (h : effects.Here) → IsHere here.now h → plan ≡ spec.makes h line (input_at (map (value_on h.outer) inputs.now) 0)) }
{
    let wires = here.outer();
    let first = input(alloc, &wires, inputs, 0)?;
    Ok(makes(here, line, first))
}

/// What a node asks that does an operation on a queue or on what a reference names. By the null reference
/// nothing is asked: the node is done with what there is to give. Only want of memory refuses it.
pub fn shared_plan(
    alloc: Global,
    here: &Here<'_, '_>,
    entry: &Entry<'_>,
    operation: SharedOp,
    inputs: &[Wire],
) -> Result<Option<Plan>, AllocError>
    ensures { IfOk result (λ plan. (h : effects.Here) → IsHere here.now h → plan ≡ spec.shared_plan h (seen entry.now) operation (map (value_on h.outer) inputs.now)) }
{
    match operation {
        SharedOp::NewRef => Ok(Some(by_newref(alloc, here, entry.line, inputs)?)),
        SharedOp::Enqueue => by_inputs(alloc, here, entry, SharedOp::Enqueue, inputs),
        SharedOp::Dequeue => by_inputs(alloc, here, entry, SharedOp::Dequeue, inputs),
        SharedOp::Release => by_inputs(alloc, here, entry, SharedOp::Release, inputs),
        SharedOp::Size => by_inputs(alloc, here, entry, SharedOp::Size, inputs),
        SharedOp::DelRef => by_inputs(alloc, here, entry, SharedOp::DelRef, inputs),
    }
}
