//! What a structure in place does, by what its reference names.

ghost use Rattle.std.specs.Prelude.{◌≡◌, ◌+◌, ◌∷◌, ◌++◌, [], slice_get, IfOk};
ghost use Rattle.std.specs.Option.{option_and_then, option_copied};
ghost use Rattle.g_prims_definitions.specs.Arithmetic.{nothing};
ghost use Rattle.g_values.specs.Coerce.{coerced};
ghost use Rattle.g_values.specs.Default.{default};
ghost use Rattle.g_values.specs.declared.value.Value.{out-Value, Value as Item};
ghost use Rattle.g_values.specs.declared.value.Value.TheOpen.{Value-F};
ghost use Rattle.g_border.specs.Lines as border;
ghost use Rattle.g_border.specs.Readers as readers;
ghost use Rattle.g_border.specs.Readers.{value_on};
ghost use Rattle.g_crossing.specs.Crossing.{seen_reference};
ghost use Rattle.g_diagram.specs.Lines.{Entry as Node};
ghost use Rattle.g_diagram_table.specs.Seen.{seen};
ghost use Rattle.g_frames.specs.Effects as effects;
ghost use Rattle.g_objects.specs.Operations.{given_to};
ghost use Rattle.g_effects.specs.Kinds as spec;
ghost use Rattle.g_effects.specs.Needs.{FitsPlace};
ghost use Rattle.g_effects.specs.Requests as requests;
ghost use Rattle.g_needs.specs.Bodies.{PlaceNeeds};
ghost use Rattle.g_here.specs.Here.{IsHere};
ghost use Rattle.g_vi_tables.specs.Tables.{reader_at};
ghost use Rattle.g_places.specs.Places.{GivesProper, IsReady, LiveFits, PlaceFits, reader_of};

use crate::body::{BodyValues, Place, others, outside, values_alone, values_by};
use g_border::WireSource;
use g_crossing::{Given, Reference, other_places, reference_in};
use g_diagram::{Tunnel, Wire};
use g_diagram_table::Entry;
use g_effects::{Advance, Placement, Plan, gives};
use g_here::Here;
use g_lists::List;
use g_node_values::paired;
use g_objects::Object;
use g_shared::not_live;
use g_types::Ty;
use g_values::{Live, RefValue, Value, ValueList, coerce, default_of};
use std::alloc::{AllocError, Global};

/// A structure without a reference gives what its lines give.
fn plain_place(alloc: Global, here: &Here<'_, '_>, place: &Place<'_>) -> Result<Plan, AllocError>
    requires { IsReady here.now place.now nothing }
    ensures { IfOk result (λ plan. (h : effects.Here) (e : Node) → IsHere here.now h → place.now.first ≡ e.line + 1 → plan ≡ spec.plain_place h e place.now.lines.now place.now.body place.now.finish) }
{
    let values = values_alone(alloc, here, place)?;
    let given = outside(alloc, here, place, values)?;
    Ok(Plan::Effect(gives(alloc, Advance::Done, given)))
}

/// The reference as an output, with its place.
fn same_reference(
    alloc: Global,
    here: &Here<'_, '_>,
    reference: &Reference<'_>,
) -> Result<(WireSource, Value), AllocError>
    ensures { IfOk result (λ same. (h : effects.Here) → IsHere here.now h → same ≡ (reference.now.same, value_on h.outer reference.now.from.now)) }
{
    let wires = here.outer();
    let value = wires.value(alloc, reference.from)?;
    Ok((reference.same, value))
}

/// The places of the other outputs, that of the code last.
fn places_of(
    alloc: Global,
    place: &Place<'_>,
    code: WireSource,
) -> Result<List<WireSource>, AllocError>
    ensures { IfOk result (λ places. places ≡ border.other_places place.now.first place.now.lines.now ++ code ∷ []) }
{
    let mut places = other_places(alloc, place.first, place.lines)?;
    places.push(code)?;
    Ok(places)
}

/// The reference, what the other lines give, and the code, at their places.
fn given_with(
    alloc: Global,
    here: &Here<'_, '_>,
    place: &Place<'_>,
    reference: &Reference<'_>,
    outputs: List<Value>,
) -> Result<Given, AllocError>
    ensures { IfOk result (λ given. (h : effects.Here) → IsHere here.now h → given ≡ (reference.now.same, value_on h.outer reference.now.from.now) ∷ readers.paired (border.other_places place.now.first place.now.lines.now ++ reference.now.code ∷ []) outputs) }
{
    let same = same_reference(alloc, here, reference)?;
    let places = places_of(alloc, place, reference.code)?;
    let others = paired(alloc, places.as_slice(), outputs)?;
    let mut given = List::new(alloc);
    given.push(same)?;
    given.append(others)?;
    Ok(given)
}

/// By the null reference the default goes in, and nothing comes of the new value.
fn null_place(
    alloc: Global,
    here: &Here<'_, '_>,
    place: &Place<'_>,
    reference: &Reference<'_>,
    elem: &Ty,
) -> Result<Plan, AllocError>
    requires { IsReady here.now place.now (default elem.now) }
    ensures { IfOk result (λ plan. (h : effects.Here) (e : Node) → IsHere here.now h → place.now.first ≡ e.line + 1 → plan ≡ spec.null_place h e place.now.lines.now place.now.body place.now.finish (seen_reference reference.now) elem.now) }
{
    let value = default_of(alloc, elem)?;
    let values = values_by(alloc, here, place, value)?;
    let mut outputs = others(alloc, here, place, values)?;
    outputs.push(not_live())?;
    let given = given_with(alloc, here, place, reference, outputs)?;
    Ok(Plan::Effect(gives(alloc, Advance::Done, given)))
}

/// The new value, in the reference's type.
fn new_value(
    alloc: Global,
    here: &Here<'_, '_>,
    body: u32,
    values: &BodyValues,
    next: &Wire,
    elem: &Ty,
) -> Result<Value, AllocError>
    ensures { IfOk result (λ v. (h : effects.Here) → IsHere here.now h → v ≡ coerced (value_on (reader_at h.vi body values.now) next.now) elem.now) }
{
    let wires = here.table.wires(body, values.as_slice());
    let value = wires.value(alloc, next)?;
    Ok(coerce(value, elem))
}

/// What the body makes of what a live reference refers to.
fn placement(
    alloc: Global,
    here: &Here<'_, '_>,
    place: &Place<'_>,
    reference: &Reference<'_>,
    elem: &Ty,
    live: Live,
    values: BodyValues,
) -> Result<Placement, AllocError>
    requires { (h : effects.Here) × (IsHere here.now h × GivesProper h place.now (reader_at h.vi place.now.body values)) }
    ensures { IfOk result (λ q. (h : effects.Here) (e : Node) (v : Item) → IsHere here.now h → place.now.first ≡ e.line + 1 → reader_at h.vi place.now.body values ≡ reader_of h place.now.first place.now.lines.now place.now.body place.now.finish v → q ≡ requests.placement h e place.now.lines.now place.now.body place.now.finish (seen_reference reference.now) elem.now live v) }
{
    let value = new_value(alloc, here, place.body, &values, reference.next, elem)?;
    let outputs = others(alloc, here, place, values)?;
    let same = same_reference(alloc, here, reference)?;
    let places = places_of(alloc, place, reference.code)?;
    Ok(Placement {
        object: live.object as usize,
        serial: live.serial,
        value,
        outputs: ValueList::from_list(outputs),
        same,
        places,
    })
}

/// The object of a number, if there is one.
fn object_at<'a>(here: &Here<'a, '_>, number: u32) -> Option<&'a Object>
    ensures { (h : effects.Here) → IsHere here.now h → option_copied result ≡ slice_get h.objects number }
{
    here.state.objects().get(number as usize)
}

/// What a live reference refers to, where its object is a value.
fn referred_to(alloc: Global, here: &Here<'_, '_>, live: Live) -> Result<Option<Value>, AllocError>
    ensures { IfOk result (λ v. (h : effects.Here) → IsHere here.now h → v ≡ option_and_then (λ c. given_to c live.serial) (slice_get h.objects live.object)) }
{
    match object_at(here, live.object) {
        Some(object) => object.value_for(alloc, live.serial),
        None => Ok(None),
    }
}

/// Where the object is a value, the body makes a new one of what the reference refers to.
fn live_place(
    alloc: Global,
    here: &Here<'_, '_>,
    place: &Place<'_>,
    reference: &Reference<'_>,
    elem: &Ty,
    live: Live,
) -> Result<Option<Plan>, AllocError>
    requires { (h : effects.Here) × (IsHere here.now h × LiveFits h place.now live) }
    ensures { IfOk result (λ plan. (h : effects.Here) (e : Node) → IsHere here.now h → place.now.first ≡ e.line + 1 → plan ≡ spec.live_place h e place.now.lines.now place.now.body place.now.finish (seen_reference reference.now) elem.now live) }
{
    let Some(referred) = referred_to(alloc, here, live)? else {
        return Ok(None);
    };
    let values = values_by(alloc, here, place, referred)?;
    let placement = placement(alloc, here, place, reference, elem, live, values)?;
    Ok(Some(Plan::Placement(placement)))
}

/// By a reference to a value.
fn by_cell(
    alloc: Global,
    here: &Here<'_, '_>,
    place: &Place<'_>,
    reference: &Reference<'_>,
    cell: &RefValue,
) -> Result<Option<Plan>, AllocError>
    requires { (h : effects.Here) × (IsHere here.now h × PlaceFits h place.now (Value-F.Cell cell.now)) }
    ensures { IfOk result (λ plan. (h : effects.Here) (e : Node) → IsHere here.now h → place.now.first ≡ e.line + 1 → plan ≡ spec.place_by h e place.now.lines.now place.now.body place.now.finish (seen_reference reference.now) cell.now.elem cell.now.at) }
{
    match cell.at {
        Some(live) => live_place(alloc, here, place, reference, &cell.elem, live),
        None => Ok(Some(null_place(alloc, here, place, reference, &cell.elem)?)),
    }
}

/// By the reference that a value is. One by any other value can't be done.
fn by_value(
    alloc: Global,
    here: &Here<'_, '_>,
    place: &Place<'_>,
    reference: &Reference<'_>,
    from: &Value,
) -> Result<Option<Plan>, AllocError>
    requires { (h : effects.Here) × (IsHere here.now h × PlaceFits h place.now (out-Value from.now)) }
    ensures { IfOk result (λ plan. (h : effects.Here) (e : Node) → IsHere here.now h → place.now.first ≡ e.line + 1 → plan ≡ spec.place_at h e place.now.lines.now place.now.body place.now.finish (seen_reference reference.now) (out-Value from.now)) }
{
    match from {
        Value::Cell(cell) => by_cell(alloc, here, place, reference, cell),
        Value::Num(_)
        | Value::Bool(_)
        | Value::Str(_)
        | Value::Nums(_)
        | Value::Arr(_)
        | Value::Cluster(_)
        | Value::Queue(_) => Ok(None),
    }
}

/// By what is on the wire of the structure's reference.
fn by_reference(
    alloc: Global,
    here: &Here<'_, '_>,
    place: &Place<'_>,
    reference: &Reference<'_>,
) -> Result<Option<Plan>, AllocError>
    requires { (h : effects.Here) × (IsHere here.now h × PlaceFits h place.now (out-Value (value_on h.outer reference.now.from.now))) }
    ensures { IfOk result (λ plan. (h : effects.Here) (e : Node) → IsHere here.now h → place.now.first ≡ e.line + 1 → plan ≡ spec.place_at h e place.now.lines.now place.now.body place.now.finish (seen_reference reference.now) (out-Value (value_on h.outer reference.now.from.now))) }
{
    let wires = here.outer();
    let from = wires.value(alloc, reference.from)?;
    let plan = by_value(alloc, here, place, reference, &from)?;
    Ok(plan)
}

/// The next line. One of 2^32 or more is told as want of memory, since no listing has it.
fn next(line: u32) -> Result<u32, AllocError>
    ensures { IfOk result (λ n. n ≡ line + 1) }
{
    line.checked_add(1).ok_or(AllocError)
}

/// What a structure in place does. Only want of memory refuses it, as which a line of 2^32 or more is told too.
pub fn place_plan(
    alloc: Global,
    here: &Here<'_, '_>,
    entry: &Entry<'_>,
    lines: &[Tunnel],
    body: u32,
    finish: u32,
) -> Result<Option<Plan>, AllocError>
    requires { (h : effects.Here) × (IsHere here.now h × (FitsPlace h (seen entry.now) lines.now body finish (border.reference_in (entry.now.line + 1) lines.now) × PlaceNeeds h (seen entry.now) lines.now body finish)) }
    ensures { IfOk result (λ plan. (h : effects.Here) → IsHere here.now h → plan ≡ spec.place_plan h (seen entry.now) lines.now body finish (border.reference_in (entry.now.line + 1) lines.now)) }
{
    let first = next(entry.line)?;
    let place = Place {
        first,
        lines,
        body,
        finish,
    };
    match reference_in(first, lines)? {
        Some(reference) => by_reference(alloc, here, &place, &reference),
        None => {
            let plan = plain_place(alloc, here, &place)?;
            Ok(Some(plan))
        }
    }
}
