//! Rule 17: consumers whose type isn't assignable to that of their place.

ghost use Rattle.std.specs.Prelude.{◌≡◌, ◌+◌, ◌++◌, ◌∷◌, [], map, IfOk, OnOk, Some, is_some};
ghost use Rattle.std.specs.Option.{option_copied};
ghost use Rattle.g_diagram_table.specs.Seen as table;
ghost use Rattle.g_typing.specs.Assigned as spec;
ghost use Rattle.g_typing.specs.Types as types_spec;
ghost use Rattle.g_typing.specs.Typing as typing;
ghost use Rattle.g_rules_types.specs.Calls.{item_unlike, next_input};
ghost use Rattle.g_rules_types.specs.Known.{types_of};

use crate::kinds::{element, part, queued, referred};
use crate::places::{next, place, push_unless};
use crate::types::{WireTypes, type_at, wire_type};
use g_diagram::{PanelItem, Place, SharedOp, Tunnel, Wire};
use g_diagram_table::Arm;
use g_prims::kinds::is_assignable;
use g_types::Ty;
use std::alloc::AllocError;

/// Adds the place where both types are known and the first isn't assignable to the second.
pub fn push_unlike<'m>(
    places: &mut Vec<Place>,
    from: Option<&'m Ty>,
    to: Option<&'m Ty>,
    place: Place,
) -> Result<(), AllocError>
    ensures { OnOk result (places.new.items ≡ places.old.items ++ spec.unlike (option_copied from.entry) (option_copied to.entry) place) }
{
    let Some(from) = from else {
        return Ok(());
    };
    let Some(to) = to else {
        return Ok(());
    };
    push_unless(places, is_assignable(from, to), place)
}

/// A border line, whose structure has the diagrams `outside` and `inside`: a new value takes the type of
/// the one that it stands for.
fn push_line<'m>(
    places: &mut Vec<Place>,
    types: &WireTypes<'m>,
    vi: u32,
    outside: u32,
    inside: u32,
    line: u32,
    tunnel: &'m Tunnel,
) -> Result<(), AllocError>
    ensures { OnOk result (places.new.items ≡ places.old.items ++ spec.line_unlike (types_of types.now) vi outside inside line tunnel.now) }
{
    match tunnel {
        Tunnel::Register { initial, next, .. } => {
            let to = wire_type(types, outside, initial);
            push_unlike(
                places,
                wire_type(types, inside, next),
                to,
                place(vi, line, 3),
            )
        }
        Tunnel::Kept { ty, next, .. } => {
            push_unlike(
                places,
                wire_type(types, inside, next),
                Some(ty),
                place(vi, line, 3),
            )
        }
        Tunnel::Ref {
            reference,
            next,
            ..
        } => {
            let to = referred(wire_type(types, outside, reference));
            push_unlike(
                places,
                wire_type(types, inside, next),
                to,
                place(vi, line, 3),
            )
        }
        Tunnel::Element { array, next, .. } => {
            let to = element(wire_type(types, outside, array));
            push_unlike(
                places,
                wire_type(types, inside, next),
                to,
                place(vi, line, 4),
            )
        }
        Tunnel::Field {
            field,
            cluster,
            next,
            ..
        } => {
            let to = part(wire_type(types, outside, cluster), *field);
            push_unlike(
                places,
                wire_type(types, inside, next),
                to,
                place(vi, line, 3),
            )
        }
        Tunnel::Tunnel { .. }
        | Tunnel::Last { .. }
        | Tunnel::Gather { .. }
        | Tunnel::Index { .. }
        | Tunnel::Result { .. }
        | Tunnel::Carry { .. } => Ok(()),
    }
}

/// The border lines of a structure, from a line on.
pub fn push_new_values<'m>(
    places: &mut Vec<Place>,
    types: &WireTypes<'m>,
    vi: u32,
    outside: u32,
    inside: u32,
    first: u32,
    tunnels: &'m [Tunnel],
) -> Result<(), AllocError>
    ensures { OnOk result (places.new.items ≡ places.old.items ++ spec.lines_unlike (types_of types.now) vi outside inside first tunnels.now) }
{
    let mut line = first;
    for tunnel in tunnels {
        push_line(places, types, vi, outside, inside, line, tunnel)?;
        line = next(line)?;
    }
    Ok(())
}

/// An enqueued value.
pub fn push_shared<'m>(
    places: &mut Vec<Place>,
    types: &WireTypes<'m>,
    vi: u32,
    line: u32,
    diagram: u32,
    operation: SharedOp,
    inputs: &'m [Wire],
) -> Result<(), AllocError>
    ensures { OnOk result (places.new.items ≡ places.old.items ++ spec.shared_unlike (types_of types.now) vi line diagram operation inputs.now) }
{
    match operation {
        SharedOp::Enqueue => {
            let to = queued(type_at(types, diagram, inputs, 0));
            push_unlike(
                places,
                type_at(types, diagram, inputs, 1),
                to,
                place(vi, line, 2),
            )
        }
        _ => Ok(()),
    }
}

fn is_wired_at(wires: &[Wire], k: usize) -> bool
    ensures { result ≡ is_some (types_spec.wire_at wires.now k) }
{
    match wires.get(k) {
        None => false,
        Some(wire) => wire.is_some(),
    }
}

/// The type of a result, by its number from 0: that of the first branch in which it is wired.
#[tactic(auto, using(crate::proofs::Calls::wired_next, crate::proofs::Calls::unwired_next))]
pub fn result_type<'t, 'm>(
    types: &'t WireTypes<'m>,
    k: usize,
    arms: &'m [Arm<'m>],
) -> Option<&'t Ty>
    ensures { option_copied result ≡ typing.result_type (types_of types.now) k (map table.seen_arm arms.now) }
{
    for arm in arms {
        if is_wired_at(arm.gives, k) {
            return type_at(types, arm.body, arm.gives, k);
        }
    }
    None
}

/// What a branch gives for a result, on the line after its `when`.
fn push_give<'m>(
    places: &mut Vec<Place>,
    types: &WireTypes<'m>,
    vi: u32,
    k: u32,
    to: Option<&Ty>,
    arm: &'m Arm<'m>,
) -> Result<(), AllocError>
    ensures { OnOk result (places.new.items ≡ places.old.items ++ spec.gives_unlike (types_of types.now) vi k (option_copied to.entry) (table.seen_arm arm.now ∷ [])) }
{
    let from = type_at(types, arm.body, arm.gives, k as usize);
    let place = place(vi, next(arm.body)?, next(k)?);
    push_unlike(places, from, to, place)
}

fn push_gives<'m>(
    places: &mut Vec<Place>,
    types: &WireTypes<'m>,
    vi: u32,
    k: u32,
    to: Option<&Ty>,
    arms: &'m [Arm<'m>],
) -> Result<(), AllocError>
    ensures { OnOk result (places.new.items ≡ places.old.items ++ spec.gives_unlike (types_of types.now) vi k (option_copied to.entry) (map table.seen_arm arms.now)) }
{
    for arm in arms {
        push_give(places, types, vi, k, to, arm)?;
    }
    Ok(())
}

/// The number of the result after a line of a case.
pub fn next_result<'m>(tunnel: &'m Tunnel, k: u32) -> Result<u32, AllocError>
    ensures { IfOk result (λ m. m ≡ typing.next_result tunnel.now k) }
{
    match tunnel {
        Tunnel::Result { .. } => next(k),
        _ => Ok(k),
    }
}

fn push_result<'m>(
    places: &mut Vec<Place>,
    types: &WireTypes<'m>,
    vi: u32,
    k: u32,
    arms: &'m [Arm<'m>],
    tunnel: &'m Tunnel,
) -> Result<(), AllocError>
    ensures { OnOk result (places.new.items ≡ places.old.items ++ spec.result_unlike (types_of types.now) vi k (map table.seen_arm arms.now) tunnel.now) }
{
    match tunnel {
        Tunnel::Result { .. } => {
            let to = result_type(types, k as usize, arms);
            push_gives(places, types, vi, k, to, arms)
        }
        _ => Ok(()),
    }
}

/// What the branches of a case give.
pub fn push_results<'m>(
    places: &mut Vec<Place>,
    types: &WireTypes<'m>,
    vi: u32,
    arms: &'m [Arm<'m>],
    tunnels: &'m [Tunnel],
) -> Result<(), AllocError>
    ensures { OnOk result (places.new.items ≡ places.old.items ++ spec.results_unlike (types_of types.now) vi 0 (map table.seen_arm arms.now) tunnels.now) }
{
    let mut k = 0;
    for tunnel in tunnels {
        push_result(places, types, vi, k, arms, tunnel)?;
        k = next_result(tunnel, k)?;
    }
    Ok(())
}

/// An input of a call, counted from 0, that goes to a control of the type.
fn push_input<'m>(
    places: &mut Vec<Place>,
    types: &WireTypes<'m>,
    vi: u32,
    line: u32,
    diagram: u32,
    k: u32,
    inputs: &'m [Wire],
    ty: &Ty,
) -> Result<(), AllocError>
    ensures { OnOk result (places.new.items ≡ places.old.items ++ spec.unlike (types_spec.wire_type (types_of types.now) diagram (types_spec.wire_at inputs.now k)) (Some ty.now) (types_spec.place vi line (k + 1))) }
{
    let from = type_at(types, diagram, inputs, k as usize);
    push_unlike(places, from, Some(ty), place(vi, line, next(k)?))
}

/// The input of a call that goes to a panel object, if that is a control: input k from 0. Gives the
/// number of the next input.
fn push_item<'m>(
    places: &mut Vec<Place>,
    types: &WireTypes<'m>,
    vi: u32,
    line: u32,
    diagram: u32,
    k: u32,
    inputs: &'m [Wire],
    item: &PanelItem,
) -> Result<u32, AllocError>
    ensures places { OnOk result (places.new.items ≡ places.old.items ++ item_unlike (types_of types.now) vi line diagram k inputs.now item.now) }
    ensures next { IfOk result (λ m. m ≡ next_input item.now k) }
{
    match item {
        PanelItem::Control { ty, .. } => {
            push_input(places, types, vi, line, diagram, k, inputs, ty)?;
            next(k)
        }
        PanelItem::Indicator { .. } => Ok(k),
    }
}

/// The inputs of a call of a VI with this panel.
#[tactic(auto, using(crate::proofs::Calls::item_step, crate::proofs::Calls::no_control))]
pub fn push_inputs<'m>(
    places: &mut Vec<Place>,
    types: &WireTypes<'m>,
    vi: u32,
    line: u32,
    diagram: u32,
    inputs: &'m [Wire],
    panel: &[PanelItem],
) -> Result<(), AllocError>
    ensures { OnOk result (places.new.items ≡ places.old.items ++ spec.inputs_unlike (types_of types.now) vi line diagram 1 inputs.now (typing.control_types panel.now)) }
{
    let mut k = 0;
    for item in panel {
        k = push_item(places, types, vi, line, diagram, k, inputs, item)?;
    }
    Ok(())
}
