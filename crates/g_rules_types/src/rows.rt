//! Rule 16: the places at which the types of the inputs have no row.

ghost use Rattle.std.specs.Prelude.{◌≡◌, ◌++◌, IfOk, OnOk};
ghost use Rattle.std.specs.Option.{option_copied, option_map};
ghost use Rattle.g_prims_definitions.specs.Kinds as kinds;
ghost use Rattle.g_prims_definitions.specs.Rows as rows;
ghost use Rattle.g_types.specs.Ty as the_types;
ghost use Rattle.g_typing.specs.Rows as spec;
ghost use Rattle.g_typing.specs.Types as types_spec;
ghost use Rattle.g_rules_types.specs.Known.{types_of};

use crate::kinds::{element, is_element, is_shallow, part, queued, referred};
use crate::places::{next, place, push_unless};
use crate::types::{WireTypes, wire_type};
use g_diagram::{Place, SharedOp, Tunnel, Wire};
use g_lists::List;
use g_operations::{Count, primitive_row};
use g_prims::kinds::{is_bool, is_num};
use g_prims::{RowRefused, type_row};
use g_types::{Ty, TyList, copy};
use g_values::Primitive;
use std::alloc::{AllocError, Global};

fn may_be_num(ty: Option<&Ty>) -> bool
    ensures { result ≡ spec.may_be (option_copied ty.entry) the_types.is_num }
{
    match ty {
        None => true,
        Some(ty) => is_num(ty),
    }
}

fn may_be_bool(ty: Option<&Ty>) -> bool
    ensures { result ≡ spec.may_be (option_copied ty.entry) kinds.is_bool }
{
    match ty {
        None => true,
        Some(ty) => is_bool(ty),
    }
}

fn may_be_element(ty: Option<&Ty>) -> bool
    ensures { result ≡ spec.may_be (option_copied ty.entry) rows.is_element }
{
    match ty {
        None => true,
        Some(ty) => is_element(ty),
    }
}

fn may_have_elements(ty: Option<&Ty>) -> bool
    ensures { result ≡ spec.may_be (option_copied ty.entry) spec.has_elements }
{
    ty.is_none() || element(ty).is_some()
}

fn may_name_value(ty: Option<&Ty>) -> bool
    ensures { result ≡ spec.may_be (option_copied ty.entry) spec.names_value }
{
    ty.is_none() || referred(ty).is_some()
}

fn may_name_queue(ty: Option<&Ty>) -> bool
    ensures { result ≡ spec.may_be (option_copied ty.entry) spec.names_queue }
{
    ty.is_none() || queued(ty).is_some()
}

fn may_have_part(ty: Option<&Ty>, k: u8) -> bool
    ensures { result ≡ spec.may_be (option_copied ty.entry) (spec.has_part k) }
{
    ty.is_none() || part(ty, k).is_some()
}

fn may_be_shallow(ty: Option<&Ty>) -> bool
    ensures { result ≡ spec.may_be (option_copied ty.entry) rows.is_shallow }
{
    match ty {
        None => true,
        Some(ty) => is_shallow(ty),
    }
}

/// Whether a shared operation may have a first operand of the type.
pub fn may_fit(operation: SharedOp, ty: Option<&Ty>) -> bool
    ensures { result ≡ spec.may_be (option_copied ty.entry) (spec.fits_shared operation) }
{
    match operation {
        SharedOp::NewRef => may_be_shallow(ty),
        SharedOp::DelRef => may_name_value(ty),
        SharedOp::Enqueue | SharedOp::Dequeue | SharedOp::Release | SharedOp::Size => {
            may_name_queue(ty)
        }
    }
}

/// The types at operands, where all are known.
#[tactic(auto, using(crate::proofs::Calls::after_one, crate::proofs::Calls::after_none, crate::proofs::Calls::before_all))]
pub fn wire_types<'m>(
    alloc: Global,
    types: &WireTypes<'m>,
    diagram: u32,
    wires: &'m [Wire],
) -> Result<Option<TyList>, AllocError>
    ensures { IfOk result (λ ts. ts ≡ types_spec.wire_types (types_of types.now) diagram wires.now) }
{
    let mut all = Vec::new(alloc);
    for wire in wires {
        let Some(ty) = wire_type(types, diagram, wire) else {
            return Ok(None);
        };
        all.push(copy(alloc, ty)?)?;
    }
    Ok(Some(List::from_vec(all)))
}

/// Whether there are as many outputs as the types give, where an operation's form leaves it open.
fn given_fit(count: Count, outputs: usize, given: usize) -> bool
    ensures { result ≡ spec.given_fit count outputs given }
{
    match count {
        Count::Exactly(_) | Count::Between(_, _) => true,
        Count::Any => outputs == given,
    }
}

fn outputs_fit(primitive: Primitive, outputs: usize, given: usize) -> bool
    ensures { result ≡ spec.outputs_fit primitive outputs given }
{
    let row = primitive_row(primitive);
    given_fit(row.outputs, outputs, given)
}

/// A primitive with so many outputs and inputs of these types.
fn push_row(
    alloc: Global,
    places: &mut Vec<Place>,
    vi: u32,
    line: u32,
    primitive: Primitive,
    outputs: usize,
    inputs: &TyList,
) -> Result<(), AllocError>
    ensures { OnOk result (places.new.items ≡ places.old.items ++ spec.row_misses vi line primitive outputs inputs.now (rows.row_of primitive inputs.now)) }
{
    match type_row(alloc, &primitive, inputs) {
        Ok(given) => {
            let fits = outputs_fit(primitive, outputs, given.len());
            push_unless(places, fits, place(vi, line, 1))
        }
        Err(RowRefused::NoRow(k)) => push_unless(places, false, place(vi, line, k)),
        Err(RowRefused::Memory(e)) => Err(e),
    }
}

/// A primitive, where the types of its inputs are known.
pub fn push_primitive(
    alloc: Global,
    places: &mut Vec<Place>,
    vi: u32,
    line: u32,
    primitive: Primitive,
    outputs: usize,
    inputs: &Option<TyList>,
) -> Result<(), AllocError>
    ensures { OnOk result (places.new.items ≡ places.old.items ++ spec.primitive_misses vi line primitive outputs inputs.now) }
{
    match inputs {
        None => Ok(()),
        Some(inputs) => push_row(alloc, places, vi, line, primitive, outputs, inputs),
    }
}

/// A border line of a structure with the diagrams `outside` and `inside`.
fn push_line<'m>(
    places: &mut Vec<Place>,
    types: &WireTypes<'m>,
    vi: u32,
    outside: u32,
    inside: u32,
    line: u32,
    tunnel: &'m Tunnel,
) -> Result<(), AllocError>
    ensures { OnOk result (places.new.items ≡ places.old.items ++ spec.line_misses (types_of types.now) vi outside inside line tunnel.now) }
{
    match tunnel {
        Tunnel::Index { array, .. } => {
            let holds = may_have_elements(wire_type(types, outside, array));
            push_unless(places, holds, place(vi, line, 1))
        }
        Tunnel::Gather { inner, .. } => {
            let holds = may_be_element(wire_type(types, inside, inner));
            push_unless(places, holds, place(vi, line, 1))
        }
        Tunnel::Ref { reference, .. } => {
            let holds = may_name_value(wire_type(types, outside, reference));
            push_unless(places, holds, place(vi, line, 1))
        }
        Tunnel::Element { array, index, .. } => {
            let holds = may_have_elements(wire_type(types, outside, array));
            push_unless(places, holds, place(vi, line, 1))?;
            let holds = may_be_num(wire_type(types, outside, index));
            push_unless(places, holds, place(vi, line, 2))
        }
        Tunnel::Field { field, cluster, .. } => {
            let holds = may_have_part(wire_type(types, outside, cluster), *field);
            push_unless(places, holds, place(vi, line, 1))
        }
        Tunnel::Tunnel { .. }
        | Tunnel::Register { .. }
        | Tunnel::Kept { .. }
        | Tunnel::Last { .. }
        | Tunnel::Result { .. }
        | Tunnel::Carry { .. } => Ok(()),
    }
}

/// The border lines of a structure, from a line on.
pub fn push_lines<'m>(
    places: &mut Vec<Place>,
    types: &WireTypes<'m>,
    vi: u32,
    outside: u32,
    inside: u32,
    first: u32,
    tunnels: &'m [Tunnel],
) -> Result<(), AllocError>
    ensures { OnOk result (places.new.items ≡ places.old.items ++ spec.lines_miss (types_of types.now) vi outside inside first tunnels.now) }
{
    let mut line = first;
    for tunnel in tunnels {
        push_line(places, types, vi, outside, inside, line, tunnel)?;
        line = next(line)?;
    }
    Ok(())
}

/// The count of a loop.
pub fn push_count(places: &mut Vec<Place>, ty: Option<&Ty>, place: Place) -> Result<(), AllocError>
    ensures { OnOk result (places.new.items ≡ places.old.items ++ spec.unless (option_copied ty.entry) the_types.is_num place) }
{
    push_unless(places, may_be_num(ty), place)
}

/// The operand of a loop's stop wire, which stands after its count.
pub fn stop_operand(count: Option<&Wire>) -> u32
    ensures { result ≡ spec.stop_operand (option_map (λ w. w.now) count.entry) }
{
    match count {
        None => 1,
        Some(_) => 2,
    }
}

/// The stop wire of a loop.
pub fn push_stop(places: &mut Vec<Place>, ty: Option<&Ty>, place: Place) -> Result<(), AllocError>
    ensures { OnOk result (places.new.items ≡ places.old.items ++ spec.unless (option_copied ty.entry) kinds.is_bool place) }
{
    push_unless(places, may_be_bool(ty), place)
}
