//! What panels are set to.

ghost use Rattle.std.specs.Prelude.{◌≡◌, IfOk};
ghost use Rattle.std.specs.Option.{option_map};
ghost use Rattle.g_frames.specs.Panels as panels;
ghost use Rattle.g_node_values.specs.Controls.{argument_at, control_places};
ghost use Rattle.g_wire_values.specs.Wires.{reader};

use crate::given::paired;
use crate::places::{next, push};
use g_border::WireSource;
use g_diagram::{Lit, PanelItem, Wire};
use g_lists::List;
use g_literals::literal_value;
use g_types::Ty;
use g_values::{Value, coerce};
use g_wire_values::Wires;
use std::alloc::{AllocError, Global};

/// What a control has that nothing sets: its written literal, else the default of its type. Only want of
/// memory refuses it.
pub fn default_of(alloc: Global, given: Option<&Lit>, ty: &Ty) -> Result<Value, AllocError>
    ensures { IfOk result (λ v. v ≡ panels.default_of (option_map (λ l. l.now) given.entry) ty.now) }
{
    match given {
        Some(literal) => literal_value(alloc, literal, ty),
        None => g_values::default_of(alloc, ty),
    }
}

/// What the controls of a panel have that nothing sets, in listing order. Only want of memory refuses it.
pub fn control_defaults(alloc: Global, items: &[PanelItem]) -> Result<List<Value>, AllocError>
    ensures { IfOk result (λ vs. vs ≡ panels.control_defaults items.now) }
{
    let mut values = Vec::new(alloc);
    for item in items {
        if let PanelItem::Control { ty, default, .. } = item {
            values.push(default_of(alloc, default.as_ref(), ty)?)?;
        }
    }
    Ok(List::from_vec(values))
}

/// What the indicators of a panel have that nothing has shown yet, in listing order. Only want of memory
/// refuses it.
pub fn indicator_defaults(alloc: Global, items: &[PanelItem]) -> Result<List<Value>, AllocError>
    ensures { IfOk result (λ vs. vs ≡ panels.indicator_defaults items.now) }
{
    let mut values = Vec::new(alloc);
    for item in items {
        if let PanelItem::Indicator { ty, .. } = item {
            values.push(g_values::default_of(alloc, ty)?)?;
        }
    }
    Ok(List::from_vec(values))
}

/// What a call sets a control to: its input, coerced to its type, and the default where there is none or it
/// is unwired.
fn argument(
    alloc: Global,
    wires: &Wires<'_>,
    input: Option<&Wire>,
    given: Option<&Lit>,
    ty: &Ty,
) -> Result<Value, AllocError>
    ensures { IfOk result (λ v. v ≡ argument_at (reader wires.now) (option_map (λ w. w.now) input.entry) (option_map (λ l. l.now) given.entry) ty.now) }
{
    match input {
        Some(wire) => match wire {
            Some(_) => Ok(coerce(wires.value(alloc, wire)?, ty)),
            None => default_of(alloc, given, ty),
        },
        None => default_of(alloc, given, ty),
    }
}

/// What a call sets the controls to: its inputs, coerced to their types, and the default where an input is
/// unwired. Only want of memory refuses it.
#[tactic(auto, using(crate::proofs::PanelLemmas::next_argument))]
pub fn arguments(
    alloc: Global,
    wires: &Wires<'_>,
    inputs: &[Wire],
    items: &[PanelItem],
) -> Result<List<Value>, AllocError>
    ensures { IfOk result (λ vs. vs ≡ panels.arguments (reader wires.now) inputs.now items.now) }
{
    let mut values = Vec::new(alloc);
    let mut at = 0;
    for item in items {
        if let PanelItem::Control { ty, default, .. } = item {
            let input = inputs.get(at);
            values.push(argument(alloc, wires, input, default.as_ref(), ty)?)?;
            at += 1;
        }
    }
    Ok(List::from_vec(values))
}

/// The operands at which the controls give their values.
fn places_of(alloc: Global, items: &[PanelItem]) -> Result<Vec<WireSource>, AllocError>
    ensures { IfOk result (λ places. places.items ≡ control_places 1 items.now) }
{
    let mut places = Vec::new(alloc);
    let mut line = 1;
    for item in items {
        if let PanelItem::Control { .. } = item {
            push(&mut places, line, 1)?;
        }
        line = next(line)?;
    }
    Ok(places)
}

/// Values of the controls, in listing order, at the operands of their lines. Only want of memory refuses
/// it, as which a line with a number of 2^32 or more is told too.
#[tactic(auto, using(crate::proofs::PanelLemmas::at_places))]
pub fn controls_given(
    alloc: Global,
    items: &[PanelItem],
    values: List<Value>,
) -> Result<List<(WireSource, Value)>, AllocError>
    ensures { IfOk result (λ given. given ≡ panels.controls_given 1 items.now values) }
{
    let places = places_of(alloc, items)?;
    paired(alloc, places.as_slice(), values)
}
