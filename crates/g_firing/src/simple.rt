//! Constants and primitives.

ghost use Rattle.std.specs.Prelude.{◌≡◌, [], ◌∷◌, map, IfOk};
ghost use Rattle.g_border.specs.Readers.{value_on};
ghost use Rattle.g_diagram_table.specs.Seen.{seen};
ghost use Rattle.g_literals.specs.Values as literals;
ghost use Rattle.g_prims_definitions.specs.Values.{outputs_of};
ghost use Rattle.g_frames.specs.Effects as effects;
ghost use Rattle.g_effects.specs.Needs.{FitsPrimitive};
ghost use Rattle.g_effects.specs.Requests as spec;
ghost use Rattle.g_here.specs.Here.{IsHere};
ghost use Rattle.g_wire_values.specs.Wires.{reader};

use g_diagram::{Lit, Wire};
use g_diagram_table::Entry;
use g_effects::{Advance, Plan, gives};
use g_here::Here;
use g_lists::List;
use g_literals::literal_value;
use g_node_values::outputs_given;
use g_prims::apply;
use g_types::Ty;
use g_values::{Primitive, Value, ValueList};
use g_wire_values::Wires;
use std::alloc::{AllocError, Global};

/// The node is done with these outputs. Only want of memory refuses it.
fn done_with(alloc: Global, entry: &Entry<'_>, values: List<Value>) -> Result<Plan, AllocError>
    ensures { IfOk result (λ plan. plan ≡ spec.done_with (seen entry.now) values) }
{
    let given = outputs_given(alloc, entry, values)?;
    Ok(Plan::Effect(gives(alloc, Advance::Done, given)))
}

/// A constant gives its literal's value in its type. Only want of memory refuses it.
pub fn constant(
    alloc: Global,
    entry: &Entry<'_>,
    ty: &Ty,
    literal: &Lit,
) -> Result<Plan, AllocError>
    ensures { IfOk result (λ plan. plan ≡ spec.done_with (seen entry.now) (literals.literal_value literal.now ty.now ∷ [])) }
{
    let mut values = List::new(alloc);
    values.push(literal_value(alloc, literal, ty)?)?;
    done_with(alloc, entry, values)
}

/// The values on wires, one after another.
fn values_on(alloc: Global, wires: &Wires<'_>, inputs: &[Wire]) -> Result<List<Value>, AllocError>
    ensures { IfOk result (λ vs. vs ≡ map (value_on (reader wires.now)) inputs.now) }
{
    let mut values = List::new(alloc);
    for wire in inputs {
        values.push(wires.value(alloc, wire)?)?;
    }
    Ok(values)
}

/// A primitive gives what it makes of its inputs. Only want of memory refuses it.
pub fn applied(
    alloc: Global,
    here: &Here<'_, '_>,
    entry: &Entry<'_>,
    primitive: &Primitive,
    inputs: &[Wire],
) -> Result<Plan, AllocError>
    requires { (h : effects.Here) × (IsHere here.now h × FitsPrimitive primitive.now (map (value_on h.outer) inputs.now)) }
    ensures { IfOk result (λ plan. (h : effects.Here) → IsHere here.now h → plan ≡ spec.done_with (seen entry.now) (outputs_of primitive.now (map (value_on h.outer) inputs.now))) }
{
    let wires = here.outer();
    let values = ValueList::from_list(values_on(alloc, &wires, inputs)?);
    let outputs = apply(alloc, primitive, &values)?;
    done_with(alloc, entry, outputs.into_list())
}
