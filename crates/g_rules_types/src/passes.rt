//! The rules on types over the table of a VI's nodes.

ghost use Rattle.std.specs.Prelude.{◌≡◌, ◌++◌, map, OnOk};
ghost use Rattle.g_diagram_table.specs.Seen.{seen, seen_kind};
ghost use Rattle.g_typing.specs.Assigned as assigned;
ghost use Rattle.g_typing.specs.Breaks.{broken, breaks_by};
ghost use Rattle.g_typing.specs.Literals as literals;
ghost use Rattle.g_typing.specs.Rows as rows;
ghost use Rattle.g_typing.specs.Selected as selected;
ghost use Rattle.g_rules_types.specs.Known.{types_of};
ghost use Rattle.g_rules_types.specs.Panels.{callees_in, objects_in};

use crate::assigned::{push_inputs, push_new_values, push_results, push_shared, push_unlike};
use crate::kinds::is_shallow;
use crate::literals::{is_value_of, push_case, push_panel};
use crate::panels::{ObjectTypes, Panels, called, object};
use crate::places::{next, place, push_unless};
use crate::rows::{
    may_fit, push_count, push_lines, push_primitive, push_stop, stop_operand, wire_types,
};
use crate::selected::push_selection;
use crate::types::{WireTypes, optional_type, type_at, wire_type};
use g_diagram::{Break, PanelItem, Place};
use g_diagram_table::{Entry, Kind};
use std::alloc::{AllocError, Global};

/// Rule 15 at a node.
fn push_mistakes<'m>(
    places: &mut Vec<Place>,
    types: &WireTypes<'m>,
    vi: u32,
    entry: &'m Entry<'m>,
) -> Result<(), AllocError>
    ensures { OnOk result (places.new.items ≡ places.old.items ++ literals.kind_mistakes (types_of types.now) vi entry.now.line entry.now.diagram (seen_kind entry.now.kind)) }
{
    match &entry.kind {
        Kind::Const { ty, literal, .. } => {
            push_unless(places, is_value_of(*literal, *ty), place(vi, entry.line, 0))
        }
        Kind::Case { selector, arms, .. } => {
            let ty = wire_type(types, entry.diagram, *selector);
            push_case(places, vi, ty, arms.as_slice())
        }
        _ => Ok(()),
    }
}

/// Rule 15 at all nodes.
pub fn push_all_mistakes<'m>(
    places: &mut Vec<Place>,
    types: &WireTypes<'m>,
    vi: u32,
    entries: &'m [Entry<'m>],
) -> Result<(), AllocError>
    ensures { OnOk result (places.new.items ≡ places.old.items ++ literals.nodes_mistake (types_of types.now) vi (map seen entries.now)) }
{
    for entry in entries {
        push_mistakes(places, types, vi, entry)?;
    }
    Ok(())
}

/// Rule 16 at a node.
pub fn push_misses<'m>(
    alloc: Global,
    places: &mut Vec<Place>,
    types: &WireTypes<'m>,
    vi: u32,
    entry: &'m Entry<'m>,
) -> Result<(), AllocError>
    ensures { OnOk result (places.new.items ≡ places.old.items ++ rows.kind_misses (types_of types.now) vi entry.now.line entry.now.diagram (seen_kind entry.now.kind)) }
{
    let (line, outside) = (entry.line, entry.diagram);
    match &entry.kind {
        Kind::Apply {
            primitive,
            inputs,
            outputs,
        } => {
            let inputs = wire_types(alloc, types, outside, *inputs)?;
            push_primitive(alloc, places, vi, line, *primitive, outputs.len(), &inputs)
        }
        Kind::Shared {
            operation,
            inputs,
            ..
        } => {
            let fits = may_fit(*operation, type_at(types, outside, *inputs, 0));
            push_unless(places, fits, place(vi, line, 1))
        }
        Kind::Obtain { item, .. } => { push_unless(places, is_shallow(*item), place(vi, line, 0)) }
        Kind::Loop {
            count,
            stop,
            lines,
            body,
            ..
        } => {
            let (counted, stopped) = (place(vi, line, 1), place(vi, line, stop_operand(*count)));
            push_count(places, optional_type(types, outside, *count), counted)?;
            push_stop(places, optional_type(types, *body, *stop), stopped)?;
            push_lines(places, types, vi, outside, *body, next(line)?, *lines)
        }
        Kind::InPlace { lines, body, .. } => {
            push_lines(places, types, vi, outside, *body, next(line)?, *lines)
        }
        _ => Ok(()),
    }
}

/// Rule 16 at all nodes.
pub fn push_all_misses<'m>(
    alloc: Global,
    places: &mut Vec<Place>,
    types: &WireTypes<'m>,
    vi: u32,
    entries: &'m [Entry<'m>],
) -> Result<(), AllocError>
    ensures { OnOk result (places.new.items ≡ places.old.items ++ rows.rowless (types_of types.now) vi (map seen entries.now)) }
{
    for entry in entries {
        push_misses(alloc, places, types, vi, entry)?;
    }
    Ok(())
}

/// Rule 17 at a node.
fn push_unlikes<'p, 'm>(
    places: &mut Vec<Place>,
    panels: &Panels<'p>,
    objects: &ObjectTypes<'p>,
    types: &WireTypes<'m>,
    vi: u32,
    entry: &'m Entry<'m>,
) -> Result<(), AllocError>
    ensures { OnOk result (places.new.items ≡ places.old.items ++ assigned.kind_unlike (callees_in panels.now) (objects_in objects.now) (types_of types.now) vi entry.now.line entry.now.diagram (seen_kind entry.now.kind)) }
{
    let (line, outside) = (entry.line, entry.diagram);
    match &entry.kind {
        Kind::Shows { ty, input, .. } => {
            let from = wire_type(types, outside, *input);
            push_unlike(places, from, Some(*ty), place(vi, line, 1))
        }
        Kind::Write {
            object: name,
            input,
        } => {
            let from = wire_type(types, outside, *input);
            push_unlike(places, from, object(objects, *name), place(vi, line, 1))
        }
        Kind::Call {
            vi: name,
            inputs,
            ..
        } => push_inputs(
            places,
            types,
            vi,
            line,
            outside,
            *inputs,
            called(panels, *name),
        ),
        Kind::Shared {
            operation,
            inputs,
            ..
        } => push_shared(places, types, vi, line, outside, *operation, *inputs),
        Kind::Loop { lines, body, .. } => {
            push_new_values(places, types, vi, outside, *body, next(line)?, *lines)
        }
        Kind::InPlace { lines, body, .. } => {
            push_new_values(places, types, vi, outside, *body, next(line)?, *lines)
        }
        Kind::Case { lines, arms, .. } => {
            push_results(places, types, vi, arms.as_slice(), *lines)
        }
        _ => Ok(()),
    }
}

/// Rule 17 at all nodes.
pub fn push_all_unlike<'p, 'm>(
    places: &mut Vec<Place>,
    panels: &Panels<'p>,
    objects: &ObjectTypes<'p>,
    types: &WireTypes<'m>,
    vi: u32,
    entries: &'m [Entry<'m>],
) -> Result<(), AllocError>
    ensures { OnOk result (places.new.items ≡ places.old.items ++ assigned.unassignable (callees_in panels.now) (objects_in objects.now) (types_of types.now) vi (map seen entries.now)) }
{
    for entry in entries {
        push_unlikes(places, panels, objects, types, vi, entry)?;
    }
    Ok(())
}

/// Rule 18 at a node.
fn push_selections<'m>(
    alloc: Global,
    places: &mut Vec<Place>,
    types: &WireTypes<'m>,
    vi: u32,
    entry: &'m Entry<'m>,
) -> Result<(), AllocError>
    ensures { OnOk result (places.new.items ≡ places.old.items ++ selected.kind_unselected (types_of types.now) vi entry.now.line entry.now.diagram (seen_kind entry.now.kind)) }
{
    match &entry.kind {
        Kind::Case { selector, arms, .. } => {
            let ty = wire_type(types, entry.diagram, *selector);
            push_selection(alloc, places, vi, entry.line, ty, arms.as_slice())
        }
        _ => Ok(()),
    }
}

/// Rule 18 at all nodes.
pub fn push_all_selections<'m>(
    alloc: Global,
    places: &mut Vec<Place>,
    types: &WireTypes<'m>,
    vi: u32,
    entries: &'m [Entry<'m>],
) -> Result<(), AllocError>
    ensures { OnOk result (places.new.items ≡ places.old.items ++ selected.unselected (types_of types.now) vi (map seen entries.now)) }
{
    for entry in entries {
        push_selections(alloc, places, types, vi, entry)?;
    }
    Ok(())
}

/// The places as breaks of a rule.
pub fn push_breaks(breaks: &mut Vec<Break>, rule: u8, places: &[Place]) -> Result<(), AllocError>
    ensures { OnOk result (breaks.new.items ≡ breaks.old.items ++ map (broken rule) places.now) }
{
    for place in places {
        breaks.push(Break {
            place: *place,
            rule,
        })?;
    }
    Ok(())
}

/// The breaks of rules 15 to 18 in a VI with this panel and these nodes, whose wires have these types.
pub fn push_type_breaks<'p, 'm>(
    alloc: Global,
    breaks: &mut Vec<Break>,
    panels: &Panels<'p>,
    objects: &ObjectTypes<'p>,
    types: &WireTypes<'m>,
    vi: u32,
    panel: &'m [PanelItem],
    entries: &'m [Entry<'m>],
) -> Result<(), AllocError>
    ensures { OnOk result (breaks.new.items ≡ breaks.old.items ++ breaks_by (callees_in panels.now) (objects_in objects.now) panel.now (types_of types.now) vi (map seen entries.now)) }
{
    let mut mistaken = Vec::new(alloc);
    push_panel(&mut mistaken, vi, panel)?;
    push_all_mistakes(&mut mistaken, types, vi, entries)?;
    push_breaks(breaks, 15, mistaken.as_slice())?;
    let mut rowless = Vec::new(alloc);
    push_all_misses(alloc, &mut rowless, types, vi, entries)?;
    push_breaks(breaks, 16, rowless.as_slice())?;
    let mut unlike = Vec::new(alloc);
    push_all_unlike(&mut unlike, panels, objects, types, vi, entries)?;
    push_breaks(breaks, 17, unlike.as_slice())?;
    let mut unselected = Vec::new(alloc);
    push_all_selections(alloc, &mut unselected, types, vi, entries)?;
    push_breaks(breaks, 18, unselected.as_slice())?;
    Ok(())
}
