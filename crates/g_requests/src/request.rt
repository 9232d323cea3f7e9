//! Requests of operations.

ghost use Rattle.std.specs.Prelude.{◌≡◌, IfOk, map};
ghost use Rattle.g_border.specs.Readers.{value_on};
ghost use Rattle.g_diagram_table.specs.Seen.{seen};
ghost use Rattle.g_frames.specs.Operations.{input_at};
ghost use Rattle.g_wire_values.specs.Wires.{reader};
ghost use Rattle.g_effects.specs.Requests as spec;

use g_diagram::Wire;
use g_diagram_table::Entry;
use g_effects::{Advance, Plan, Request, Then, gives};
use g_lists::List;
use g_node_values::outputs_given;
use g_objects::Operation;
use g_values::Value;
use g_wire_values::Wires;
use std::alloc::{AllocError, Global};

/// An operation on an object, after which the node is done. Takes no memory.
pub fn done_after(object: usize, operation: Operation) -> Plan
    ensures { result ≡ spec.done_after object operation }
{
    Plan::Request(Request {
        object,
        operation,
        choice: 0,
        follow: Then::Done,
    })
}

/// The node is done with these outputs. Only want of memory refuses it.
pub fn done_with(alloc: Global, entry: &Entry<'_>, values: List<Value>) -> Result<Plan, AllocError>
    ensures { IfOk result (λ plan. plan ≡ spec.done_with (seen entry.now) values) }
{
    let given = outputs_given(alloc, entry, values)?;
    Ok(Plan::Effect(gives(alloc, Advance::Done, given)))
}

/// The value of input `k`, from 0, and FALSE where there is none. Only want of memory refuses it.
pub fn input(
    alloc: Global,
    wires: &Wires<'_>,
    inputs: &[Wire],
    k: usize,
) -> Result<Value, AllocError>
    ensures { IfOk result (λ v. v ≡ input_at (map (value_on (reader wires.now)) inputs.now) k) }
{
    match inputs.get(k) {
        Some(wire) => wires.value(alloc, wire),
        None => Ok(Value::Bool(false)),
    }
}
