//! What lines give to their sources, by the types of their inputs.

ghost use Rattle.std.specs.Prelude.{◌≡◌, ◌++◌, ◌∷◌, [], map, IfOk, OnOk, Some, None, true};
ghost use Rattle.std.specs.Option.{option_copied};
ghost use Rattle.g_prims_definitions.specs.Kinds as kinds;
ghost use Rattle.g_diagram_table.specs.Seen.{seen, seen_arm, seen_part, seen_kind};
ghost use Rattle.g_typing.specs.Rows.{has_rows};
ghost use Rattle.g_typing.specs.Types as types_spec;
ghost use Rattle.g_typing.specs.Typing as spec;
ghost use Rattle.g_infer.specs.Given.{seen_given};
ghost use Rattle.g_rules_types.specs.Known.{types_of};
ghost use Rattle.g_rules_types.specs.Panels.{callees_in, objects_in};

use g_diagram::{PanelItem, SharedOp, Tunnel, Wire};
use g_diagram_table::{Arm, Entry, Kind, Part};
use g_lists::{Boxed, List};
use g_prims::{RowRefused, type_row};
use g_rules_types::assigned::{next_result, result_type};
use g_rules_types::kinds::{element, part, queued, referred};
use g_rules_types::panels::{ObjectTypes, Panels, called, object};
use g_rules_types::passes::push_misses;
use g_rules_types::rows::wire_types;
use g_rules_types::types::{WireTypes, type_at, wire_type};
use g_types::{Rep, Ty, TyList, copy};
use g_values::Primitive;
use std::alloc::{AllocError, Global};

/// A named source with what its line gives it, if that is known.
#[derive(Drop)]
pub struct Given<'a> {
    pub diagram: u32,
    pub name: &'a [u8],
    pub ty: Option<Ty>,
}

/// Adds what is given to an operand; `_` is no source.
pub fn push<'m>(
    givens: &mut Vec<Given<'m>>,
    diagram: u32,
    wire: &'m Wire,
    ty: Option<Ty>,
) -> Result<(), AllocError>
    ensures { OnOk result (map seen_given givens.new.items ≡ map seen_given givens.old.items ++ spec.given diagram wire.now ty) }
{
    let Some(name) = wire else {
        return Ok(());
    };
    givens.push(Given {
        diagram,
        name: name.as_slice(),
        ty,
    })?;
    Ok(())
}

fn copied(alloc: Global, ty: Option<&Ty>) -> Result<Option<Ty>, AllocError>
    ensures { IfOk result (λ t. t ≡ option_copied ty.entry) }
{
    match ty {
        None => Ok(None),
        Some(ty) => Ok(Some(copy(alloc, ty)?)),
    }
}

fn push_copy<'m>(
    alloc: Global,
    givens: &mut Vec<Given<'m>>,
    diagram: u32,
    wire: &'m Wire,
    ty: Option<&Ty>,
) -> Result<(), AllocError>
    ensures { OnOk result (map seen_given givens.new.items ≡ map seen_given givens.old.items ++ spec.given diagram wire.now (option_copied ty.entry)) }
{
    let ty = copied(alloc, ty)?;
    push(givens, diagram, wire, ty)
}

/// Types to outputs, one after another; an output without one is unknown.
#[tactic(auto, using(crate::proofs::Outputs::each_step))]
fn push_each<'m>(
    alloc: Global,
    givens: &mut Vec<Given<'m>>,
    diagram: u32,
    wires: &'m [Wire],
    types: &TyList,
) -> Result<(), AllocError>
    ensures { OnOk result (map seen_given givens.new.items ≡ map seen_given givens.old.items ++ spec.given_each diagram wires.now types.now) }
{
    for k in 0..wires.len() {
        push_copy(alloc, givens, diagram, &wires[k], types.get(k))?;
    }
    Ok(())
}

fn kept_if(ok: bool, ty: Option<&Ty>) -> Option<&Ty>
    ensures { option_copied result ≡ spec.kept_if ok (option_copied ty.entry) }
{
    if ok { ty } else { None }
}

fn all_kept_if(alloc: Global, ok: bool, types: Option<TyList>) -> TyList
    ensures { result ≡ spec.all_kept_if ok types }
{
    if !ok {
        return List::new(alloc);
    }
    match types {
        None => List::new(alloc),
        Some(types) => types,
    }
}

/// The outputs of a primitive, where the types of the inputs are known and have a row.
fn row_after(
    alloc: Global,
    primitive: Primitive,
    inputs: &Option<TyList>,
) -> Result<Option<TyList>, AllocError>
    ensures { IfOk result (λ ts. ts ≡ spec.row_after primitive inputs.now) }
{
    let Some(inputs) = inputs else {
        return Ok(None);
    };
    match type_row(alloc, &primitive, inputs) {
        Ok(outputs) => Ok(Some(outputs)),
        Err(RowRefused::NoRow(_)) => Ok(None),
        Err(RowRefused::Memory(e)) => Err(e),
    }
}

/// The type of codes, counts, sizes and positions.
pub fn whole() -> Ty
    ensures { result ≡ types_spec.whole }
{
    Ty::Num(Rep::I32)
}

fn with_code(alloc: Global, ty: Option<&Ty>) -> Result<Option<TyList>, AllocError>
    ensures { IfOk result (λ ts. ts ≡ spec.with_code (option_copied ty.entry)) }
{
    let Some(ty) = ty else {
        return Ok(None);
    };
    let mut all = Vec::new(alloc);
    all.push(copy(alloc, ty)?)?;
    all.push(whole())?;
    Ok(Some(List::from_vec(all)))
}

fn one(alloc: Global, ty: Ty) -> Result<Option<TyList>, AllocError>
    ensures { IfOk result (λ ts. ts ≡ Some (ty ∷ [])) }
{
    let mut all = Vec::new(alloc);
    all.push(ty)?;
    Ok(Some(List::from_vec(all)))
}

fn two_codes(alloc: Global) -> Result<Option<TyList>, AllocError>
    ensures { IfOk result (λ ts. ts ≡ Some (types_spec.whole ∷ types_spec.whole ∷ [])) }
{
    let mut all = Vec::new(alloc);
    all.push(whole())?;
    all.push(whole())?;
    Ok(Some(List::from_vec(all)))
}

/// The outputs of a shared operation, by the type of its first operand.
fn shared_after(
    alloc: Global,
    operation: SharedOp,
    ty: Option<&Ty>,
) -> Result<Option<TyList>, AllocError>
    ensures { IfOk result (λ ts. ts ≡ spec.shared_after operation (option_copied ty.entry)) }
{
    let Some(first) = ty else {
        return Ok(None);
    };
    match operation {
        SharedOp::Enqueue | SharedOp::Release => one(alloc, whole()),
        SharedOp::Dequeue => with_code(alloc, queued(ty)),
        SharedOp::Size => two_codes(alloc),
        SharedOp::NewRef => {
            let item = Boxed::new(alloc, copy(alloc, first)?)?;
            one(alloc, Ty::ValueRef(item))
        }
        SharedOp::DelRef => with_code(alloc, referred(ty)),
    }
}

/// The type of what stands at an operand in the diagram of the frame before, if there is one.
fn carried<'t, 'm>(types: &'t WireTypes<'m>, before: Option<u32>, wire: &'m Wire) -> Option<&'t Ty>
    ensures { option_copied result ≡ spec.carried (types_of types.now) before wire.now }
{
    match before {
        None => None,
        Some(diagram) => wire_type(types, diagram, wire),
    }
}

/// What a border line gives inside, in the diagram `inside`; `before` is that of the frame before.
fn push_line_inside<'m>(
    alloc: Global,
    givens: &mut Vec<Given<'m>>,
    types: &WireTypes<'m>,
    outside: u32,
    inside: u32,
    before: Option<u32>,
    tunnel: &'m Tunnel,
) -> Result<(), AllocError>
    ensures { OnOk result (map seen_given givens.new.items ≡ map seen_given givens.old.items ++ spec.line_inside (types_of types.now) outside inside before tunnel.now) }
{
    match tunnel {
        Tunnel::Tunnel { outer, inner } => {
            push_copy(
                alloc,
                givens,
                inside,
                inner,
                wire_type(types, outside, outer),
            )
        }
        Tunnel::Register { initial, inner, .. } => {
            push_copy(
                alloc,
                givens,
                inside,
                inner,
                wire_type(types, outside, initial),
            )
        }
        Tunnel::Kept { ty, inner, .. } => push_copy(alloc, givens, inside, inner, Some(ty)),
        Tunnel::Index { array, inner } => {
            let ty = element(wire_type(types, outside, array));
            push_copy(alloc, givens, inside, inner, ty)
        }
        Tunnel::Carry {
            before: earlier,
            inner,
        } => {
            push_copy(
                alloc,
                givens,
                inside,
                inner,
                carried(types, before, earlier),
            )
        }
        Tunnel::Ref {
            reference,
            inner,
            ..
        } => {
            let ty = referred(wire_type(types, outside, reference));
            push_copy(alloc, givens, inside, inner, ty)
        }
        Tunnel::Element { array, inner, .. } => {
            let ty = element(wire_type(types, outside, array));
            push_copy(alloc, givens, inside, inner, ty)
        }
        Tunnel::Field {
            field,
            cluster,
            inner,
            ..
        } => {
            let ty = part(wire_type(types, outside, cluster), *field);
            push_copy(alloc, givens, inside, inner, ty)
        }
        Tunnel::Last { .. } | Tunnel::Gather { .. } | Tunnel::Result { .. } => Ok(()),
    }
}

fn array_of(alloc: Global, ty: Option<&Ty>) -> Result<Option<Ty>, AllocError>
    ensures { IfOk result (λ t. t ≡ kinds.array_of (option_copied ty.entry)) }
{
    match ty {
        None => Ok(None),
        Some(ty) => {
            let item = copy(alloc, ty)?;
            Ok(Some(Ty::Arr(Boxed::new(alloc, item)?)))
        }
    }
}

fn push_kept<'m>(
    alloc: Global,
    givens: &mut Vec<Given<'m>>,
    ok: bool,
    diagram: u32,
    wire: &'m Wire,
    ty: Option<&Ty>,
) -> Result<(), AllocError>
    ensures { OnOk result (map seen_given givens.new.items ≡ map seen_given givens.old.items ++ spec.given diagram wire.now (spec.kept_if ok (option_copied ty.entry))) }
{
    push_copy(alloc, givens, diagram, wire, kept_if(ok, ty))
}

/// An array of what is inside.
fn push_gathered<'m>(
    alloc: Global,
    givens: &mut Vec<Given<'m>>,
    ok: bool,
    diagram: u32,
    wire: &'m Wire,
    ty: Option<&Ty>,
) -> Result<(), AllocError>
    ensures { OnOk result (map seen_given givens.new.items ≡ map seen_given givens.old.items ++ spec.given diagram wire.now (spec.kept_if ok (kinds.array_of (option_copied ty.entry)))) }
{
    if !ok {
        return push(givens, diagram, wire, None);
    }
    let ty = array_of(alloc, ty)?;
    push(givens, diagram, wire, ty)
}

/// The code of a reference, where the type of the reference is known.
fn push_code<'m>(
    givens: &mut Vec<Given<'m>>,
    ok: bool,
    diagram: u32,
    wire: &'m Wire,
    ty: Option<&Ty>,
) -> Result<(), AllocError>
    ensures { OnOk result (map seen_given givens.new.items ≡ map seen_given givens.old.items
        ++ spec.given diagram wire.now (spec.kept_if ok (types_spec.then_type (option_copied ty.entry) (λ t. Some types_spec.whole)))) }
{
    if !ok {
        return push(givens, diagram, wire, None);
    }
    match ty {
        None => push(givens, diagram, wire, None),
        Some(_) => push(givens, diagram, wire, Some(whole())),
    }
}

/// What a border line gives outside, if its structure breaks no rule 16.
fn push_line_outside<'m>(
    alloc: Global,
    givens: &mut Vec<Given<'m>>,
    types: &WireTypes<'m>,
    ok: bool,
    outside: u32,
    inside: u32,
    tunnel: &'m Tunnel,
) -> Result<(), AllocError>
    ensures { OnOk result (map seen_given givens.new.items ≡ map seen_given givens.old.items ++ spec.line_outside (types_of types.now) ok outside inside tunnel.now) }
{
    match tunnel {
        Tunnel::Last { inner, outer } => {
            push_kept(
                alloc,
                givens,
                ok,
                outside,
                outer,
                wire_type(types, inside, inner),
            )
        }
        Tunnel::Gather { inner, outer } => {
            push_gathered(
                alloc,
                givens,
                ok,
                outside,
                outer,
                wire_type(types, inside, inner),
            )
        }
        Tunnel::Register { initial, last, .. } => {
            push_kept(
                alloc,
                givens,
                ok,
                outside,
                last,
                wire_type(types, outside, initial),
            )
        }
        Tunnel::Kept { ty, last, .. } => push_kept(alloc, givens, ok, outside, last, Some(ty)),
        Tunnel::Ref {
            reference,
            same,
            code,
            ..
        } => {
            let ty = wire_type(types, outside, reference);
            push_kept(alloc, givens, ok, outside, same, ty)?;
            push_code(givens, ok, outside, code, ty)
        }
        Tunnel::Element { array, outer, .. } => {
            push_kept(
                alloc,
                givens,
                ok,
                outside,
                outer,
                wire_type(types, outside, array),
            )
        }
        Tunnel::Field { cluster, outer, .. } => {
            push_kept(
                alloc,
                givens,
                ok,
                outside,
                outer,
                wire_type(types, outside, cluster),
            )
        }
        Tunnel::Tunnel { .. }
        | Tunnel::Index { .. }
        | Tunnel::Result { .. }
        | Tunnel::Carry { .. } => Ok(()),
    }
}

/// What border lines give inside.
pub fn push_inside<'m>(
    alloc: Global,
    givens: &mut Vec<Given<'m>>,
    types: &WireTypes<'m>,
    outside: u32,
    inside: u32,
    before: Option<u32>,
    tunnels: &'m [Tunnel],
) -> Result<(), AllocError>
    ensures { OnOk result (map seen_given givens.new.items ≡ map seen_given givens.old.items ++ spec.lines_inside (types_of types.now) outside inside before tunnels.now) }
{
    for tunnel in tunnels {
        push_line_inside(alloc, givens, types, outside, inside, before, tunnel)?;
    }
    Ok(())
}

/// What border lines give outside, if their structure breaks no rule 16.
pub fn push_outside<'m>(
    alloc: Global,
    givens: &mut Vec<Given<'m>>,
    types: &WireTypes<'m>,
    ok: bool,
    outside: u32,
    inside: u32,
    tunnels: &'m [Tunnel],
) -> Result<(), AllocError>
    ensures { OnOk result (map seen_given givens.new.items ≡ map seen_given givens.old.items ++ spec.lines_outside (types_of types.now) ok outside inside tunnels.now) }
{
    for tunnel in tunnels {
        push_line_outside(alloc, givens, types, ok, outside, inside, tunnel)?;
    }
    Ok(())
}

/// What border lines give, if their structure breaks no rule 16.
fn push_border<'m>(
    alloc: Global,
    givens: &mut Vec<Given<'m>>,
    types: &WireTypes<'m>,
    ok: bool,
    outside: u32,
    inside: u32,
    tunnels: &'m [Tunnel],
) -> Result<(), AllocError>
    ensures { OnOk result (map seen_given givens.new.items ≡ map seen_given givens.old.items ++ spec.border_given (types_of types.now) ok outside inside tunnels.now) }
{
    push_inside(alloc, givens, types, outside, inside, None, tunnels)?;
    push_outside(alloc, givens, types, ok, outside, inside, tunnels)?;
    Ok(())
}

/// What a loop gives.
fn push_loop<'m>(
    alloc: Global,
    givens: &mut Vec<Given<'m>>,
    types: &WireTypes<'m>,
    ok: bool,
    outside: u32,
    inside: u32,
    iteration: &'m Wire,
    tunnels: &'m [Tunnel],
) -> Result<(), AllocError>
    ensures { OnOk result (map seen_given givens.new.items ≡ map seen_given givens.old.items
        ++ (spec.given inside iteration.now (Some types_spec.whole) ++ spec.border_given (types_of types.now) ok outside inside tunnels.now)) }
{
    push(givens, inside, iteration, Some(whole()))?;
    push_border(alloc, givens, types, ok, outside, inside, tunnels)?;
    Ok(())
}

/// What a case's tunnels give in each branch.
pub fn push_arms<'m>(
    alloc: Global,
    givens: &mut Vec<Given<'m>>,
    types: &WireTypes<'m>,
    outside: u32,
    tunnels: &'m [Tunnel],
    arms: &'m [Arm<'m>],
) -> Result<(), AllocError>
    ensures { OnOk result (map seen_given givens.new.items ≡ map seen_given givens.old.items ++ spec.arms_inside (types_of types.now) outside tunnels.now (map seen_arm arms.now)) }
{
    for arm in arms {
        push_inside(alloc, givens, types, outside, arm.body, None, tunnels)?;
    }
    Ok(())
}

/// What a result tunnel gives outside.
pub fn push_result<'m>(
    alloc: Global,
    givens: &mut Vec<Given<'m>>,
    types: &WireTypes<'m>,
    outside: u32,
    k: u32,
    arms: &'m [Arm<'m>],
    tunnel: &'m Tunnel,
) -> Result<(), AllocError>
    ensures { OnOk result (map seen_given givens.new.items ≡ map seen_given givens.old.items ++ spec.result_given (types_of types.now) outside k (map seen_arm arms.now) tunnel.now) }
{
    match tunnel {
        Tunnel::Result { outer, .. } => {
            push_copy(
                alloc,
                givens,
                outside,
                outer,
                result_type(types, k as usize, arms),
            )
        }
        _ => Ok(()),
    }
}

/// The results of a case.
fn push_results<'m>(
    alloc: Global,
    givens: &mut Vec<Given<'m>>,
    types: &WireTypes<'m>,
    outside: u32,
    arms: &'m [Arm<'m>],
    tunnels: &'m [Tunnel],
) -> Result<(), AllocError>
    ensures { OnOk result (map seen_given givens.new.items ≡ map seen_given givens.old.items ++ spec.results_given (types_of types.now) outside 0 (map seen_arm arms.now) tunnels.now) }
{
    let mut k = 0;
    for tunnel in tunnels {
        push_result(alloc, givens, types, outside, k, arms, tunnel)?;
        k = next_result(tunnel, k)?;
    }
    Ok(())
}

/// What a frame gives, after the frame of the diagram `before`.
fn push_part<'m>(
    alloc: Global,
    givens: &mut Vec<Given<'m>>,
    types: &WireTypes<'m>,
    outside: u32,
    before: Option<u32>,
    part: &'m Part<'m>,
) -> Result<(), AllocError>
    ensures { OnOk result (map seen_given givens.new.items ≡ map seen_given givens.old.items
        ++ (spec.lines_inside (types_of types.now) outside part.now.body before part.now.lines.now ++ spec.lines_outside (types_of types.now) true outside part.now.body part.now.lines.now)) }
{
    push_inside(alloc, givens, types, outside, part.body, before, part.lines)?;
    push_outside(alloc, givens, types, true, outside, part.body, part.lines)?;
    Ok(())
}

/// What the frames of a sequence give.
fn push_parts<'m>(
    alloc: Global,
    givens: &mut Vec<Given<'m>>,
    types: &WireTypes<'m>,
    outside: u32,
    parts: &'m [Part<'m>],
) -> Result<(), AllocError>
    ensures { OnOk result (map seen_given givens.new.items ≡ map seen_given givens.old.items ++ spec.parts_given (types_of types.now) outside None (map seen_part parts.now)) }
{
    let mut before = None;
    for part in parts {
        push_part(alloc, givens, types, outside, before, part)?;
        before = Some(part.body);
    }
    Ok(())
}

/// The types of the indicators of a panel.
fn indicator_types(alloc: Global, panel: &[PanelItem]) -> Result<TyList, AllocError>
    ensures { IfOk result (λ ts. ts ≡ spec.indicator_types panel.now) }
{
    let mut all = Vec::new(alloc);
    for item in panel {
        if let PanelItem::Indicator { ty, .. } = item {
            all.push(copy(alloc, ty)?)?;
        }
    }
    Ok(List::from_vec(all))
}

/// Whether a node breaks no rule 16.
pub fn has_rows<'m>(
    alloc: Global,
    types: &WireTypes<'m>,
    entry: &'m Entry<'m>,
) -> Result<bool, AllocError>
    ensures { IfOk result (λ ok. ok ≡ has_rows (types_of types.now) (seen entry.now)) }
{
    let mut misses = Vec::new(alloc);
    push_misses(alloc, &mut misses, types, 0, entry)?;
    Ok(misses.is_empty())
}

/// What a node gives, if its types have rows where `ok`.
fn push_kind<'p, 'm>(
    alloc: Global,
    givens: &mut Vec<Given<'m>>,
    panels: &Panels<'p>,
    objects: &ObjectTypes<'p>,
    types: &WireTypes<'m>,
    ok: bool,
    entry: &'m Entry<'m>,
) -> Result<(), AllocError>
    ensures { OnOk result (map seen_given givens.new.items ≡ map seen_given givens.old.items
        ++ spec.kind_given (callees_in panels.now) (objects_in objects.now) (types_of types.now) ok entry.now.diagram (seen_kind entry.now.kind)) }
{
    let outside = entry.diagram;
    match &entry.kind {
        Kind::Const { ty, out, .. } => push_copy(alloc, givens, outside, *out, Some(*ty)),
        Kind::Apply {
            primitive,
            inputs,
            outputs,
        } => {
            let inputs = wire_types(alloc, types, outside, *inputs)?;
            let row = row_after(alloc, *primitive, &inputs)?;
            push_each(
                alloc,
                givens,
                outside,
                *outputs,
                &all_kept_if(alloc, ok, row),
            )
        }
        Kind::Shared {
            operation,
            inputs,
            outputs,
        } => {
            let first = type_at(types, outside, *inputs, 0);
            let row = shared_after(alloc, *operation, first)?;
            push_each(
                alloc,
                givens,
                outside,
                *outputs,
                &all_kept_if(alloc, ok, row),
            )
        }
        Kind::Obtain { item, out, .. } => push_queue(alloc, givens, ok, outside, *out, *item),
        Kind::Read { object: name, out } => {
            push_copy(alloc, givens, outside, *out, object(objects, *name))
        }
        Kind::Call { vi, outputs, .. } => {
            let given = indicator_types(alloc, called(panels, *vi))?;
            push_each(alloc, givens, outside, *outputs, &given)
        }
        Kind::Loop {
            iteration,
            lines,
            body,
            ..
        } => push_loop(alloc, givens, types, ok, outside, *body, *iteration, *lines),
        Kind::Case { lines, arms, .. } => {
            push_arms(alloc, givens, types, outside, *lines, arms.as_slice())?;
            push_results(alloc, givens, types, outside, arms.as_slice(), *lines)
        }
        Kind::Sequence { parts } => push_parts(alloc, givens, types, outside, parts.as_slice()),
        Kind::InPlace { lines, body, .. } => {
            push_border(alloc, givens, types, ok, outside, *body, *lines)
        }
        Kind::Shows { .. } | Kind::Write { .. } => Ok(()),
    }
}

/// A reference to a queue of items of the type.
fn push_queue<'m>(
    alloc: Global,
    givens: &mut Vec<Given<'m>>,
    ok: bool,
    diagram: u32,
    wire: &'m Wire,
    item: &Ty,
) -> Result<(), AllocError>
    ensures { OnOk result (map seen_given givens.new.items ≡ map seen_given givens.old.items ++ spec.given diagram wire.now (spec.kept_if ok (Some (Ty.QueueRef item.now)))) }
{
    if !ok {
        return push(givens, diagram, wire, None);
    }
    let item = Boxed::new(alloc, copy(alloc, item)?)?;
    push(givens, diagram, wire, Some(Ty::QueueRef(item)))
}

/// What a node gives.
pub fn push_node<'p, 'm>(
    alloc: Global,
    givens: &mut Vec<Given<'m>>,
    panels: &Panels<'p>,
    objects: &ObjectTypes<'p>,
    types: &WireTypes<'m>,
    entry: &'m Entry<'m>,
) -> Result<(), AllocError>
    ensures { OnOk result (map seen_given givens.new.items ≡ map seen_given givens.old.items
        ++ spec.entry_given (callees_in panels.now) (objects_in objects.now) (types_of types.now) (seen entry.now)) }
{
    let ok = has_rows(alloc, types, entry)?;
    push_kind(alloc, givens, panels, objects, types, ok, entry)
}

fn push_control<'m>(
    alloc: Global,
    givens: &mut Vec<Given<'m>>,
    item: &'m PanelItem,
) -> Result<(), AllocError>
    ensures { OnOk result (map seen_given givens.new.items ≡ map seen_given givens.old.items ++ spec.controls_given (item.now ∷ [])) }
{
    match item {
        PanelItem::Control { ty, out, .. } => push_copy(alloc, givens, 0, out, Some(ty)),
        PanelItem::Indicator { .. } => Ok(()),
    }
}

/// What the controls give.
pub fn push_controls<'m>(
    alloc: Global,
    givens: &mut Vec<Given<'m>>,
    panel: &'m [PanelItem],
) -> Result<(), AllocError>
    ensures { OnOk result (map seen_given givens.new.items ≡ map seen_given givens.old.items ++ spec.controls_given panel.now) }
{
    for item in panel {
        push_control(alloc, givens, item)?;
    }
    Ok(())
}
