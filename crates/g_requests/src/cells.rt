//! Cells of the panel of the node's own data space, and queues by their names.

ghost use Rattle.std.specs.Prelude.{◌≡◌, IfOk};
ghost use Rattle.std.specs.Option.{option_copied};
ghost use Rattle.g_border.specs.Cases.{coerced_to};
ghost use Rattle.g_frames.specs.Effects as effects;
ghost use Rattle.g_effects.specs.Kinds as spec;
ghost use Rattle.g_here.specs.Here.{IsHere};

use crate::request::done_after;
use g_diagram::Wire;
use g_effects::Plan;
use g_here::Here;
use g_objects::Operation;
use g_shared::{PanelOp, QueueOp};
use g_types::Ty;
use g_values::{Value, coerce};
use std::alloc::{AllocError, Global};

fn on_own_panel(here: &Here<'_, '_>, operation: PanelOp) -> Plan
    ensures { (h : effects.Here) → IsHere here.now h → result ≡ spec.on_own_panel h operation }
{
    let object = here.tables.panel_object(here.frame.space);
    done_after(object, Operation::OnPanel(operation))
}

/// A wired indicator sets its cell to the wire's value in its type. Only want of memory refuses it.
pub fn shows(
    alloc: Global,
    here: &Here<'_, '_>,
    name: &[u8],
    ty: &Ty,
    input: &Wire,
) -> Result<Plan, AllocError>
    ensures { IfOk result (λ plan. (h : effects.Here) → IsHere here.now h → plan ≡ spec.shows h name.now ty.now input.now) }
{
    let wires = here.outer();
    let value = coerce(wires.value(alloc, input)?, ty);
    let cell = here.table.cell_number(name);
    Ok(on_own_panel(here, PanelOp::Write(cell, value)))
}

/// A value in a type, if that is known.
fn coerced_to(ty: Option<&Ty>, value: Value) -> Value
    ensures { result ≡ coerced_to (option_copied ty.entry) value }
{
    match ty {
        Some(ty) => coerce(value, ty),
        None => value,
    }
}

/// A `write` sets the cell of a control or indicator to the wire's value in its type. Only want of memory
/// refuses it.
pub fn writes(
    alloc: Global,
    here: &Here<'_, '_>,
    name: &[u8],
    input: &Wire,
) -> Result<Plan, AllocError>
    ensures { IfOk result (λ plan. (h : effects.Here) → IsHere here.now h → plan ≡ spec.writes h name.now input.now) }
{
    let wires = here.outer();
    let value = coerced_to(here.table.panel_type(name), wires.value(alloc, input)?);
    let cell = here.table.cell_number(name);
    Ok(on_own_panel(here, PanelOp::Write(cell, value)))
}

/// A `read` gives the value of the cell of a control or indicator. Takes no memory.
pub fn reads(here: &Here<'_, '_>, name: &[u8]) -> Plan
    ensures { (h : effects.Here) → IsHere here.now h → result ≡ spec.reads h name.now }
{
    let cell = here.table.cell_number(name);
    on_own_panel(here, PanelOp::Read(cell))
}

/// An `obtain` makes the queue of its name live, unless it is, and gives its reference. Takes no memory.
pub fn obtains(here: &Here<'_, '_>, queue: &[u8]) -> Plan
    ensures { (h : effects.Here) → IsHere here.now h → result ≡ spec.obtains h queue.now }
{
    let object = here.tables.queue_object(queue);
    done_after(object, Operation::OnQueue(QueueOp::Obtain))
}
