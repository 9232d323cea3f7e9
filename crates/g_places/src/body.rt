//! The body of a structure in place, and what its lines give outside.

ghost use Rattle.std.specs.Prelude.{◌≡◌, ◌+◌, ◌∷◌, [], IfOk};
ghost use Rattle.std.specs.Option.{option_map_or};
ghost use Rattle.g_prims_definitions.specs.Arithmetic.{nothing};
ghost use Rattle.g_border.specs.Lines as border;
ghost use Rattle.g_border.specs.Lines.{entering};
ghost use Rattle.g_frames.specs.Effects as effects;
ghost use Rattle.g_here.specs.Here.{IsHere};
ghost use Rattle.g_vi_tables.specs.Tables.{IsViTable, reader_at};
ghost use Rattle.g_wire_values.specs.Wires.{reader};
ghost use Rattle.g_border.specs.Readers.{Reader};
ghost use Rattle.g_places.specs.Places.{IsReady, reader_of, leaving_of};

use g_bodies::body_values;
use g_crossing::{Entering, Given, Leaving, lines_inside, lines_outside, other_values};
use g_diagram::Tunnel;
use g_here::Here;
use g_lists::List;
use g_values::Value;
use g_vi_tables::ViTable;
use g_wire_values::Wires;
use std::alloc::{AllocError, Global};

/// A structure in place: its lines from a line on, and the lines of its `do` and its `end`.
#[derive(Clone, Copy)]
pub struct Place<'a> {
    pub first: u32,
    pub lines: &'a [Tunnel],
    pub body: u32,
    pub finish: u32,
}

/// The values of the sources of a body, by their places.
pub type BodyValues = List<Option<Value>>;

/// What the structure's lines give inside.
fn inside<'x>(
    alloc: Global,
    outer: Wires<'x>,
    place: &Place<'_>,
    referred: Option<&'x Value>,
) -> Result<Given, AllocError>
    ensures { IfOk result (λ given. (r : Reader) → reader outer.entry ≡ r → given ≡ border.lines_inside (record (entering r) { referred = option_map_or (λ v. v.now) referred.entry nothing }) place.now.first place.now.lines.now) }
{
    let entering = Entering {
        outer,
        before: None,
        iteration: 0,
        kept: &[],
        referred,
    };
    let given = lines_inside(alloc, &entering, place.first, place.lines)?;
    Ok(given)
}

/// What they give where the structure's reference refers to a value.
fn inside_by(
    alloc: Global,
    outer: Wires<'_>,
    place: &Place<'_>,
    referred: Value,
) -> Result<Given, AllocError>
    ensures { IfOk result (λ given. (r : Reader) → reader outer.entry ≡ r → given ≡ border.lines_inside (record (entering r) { referred = referred }) place.now.first place.now.lines.now) }
{
    let given = inside(alloc, outer, place, Some(&referred))?;
    Ok(given)
}

/// The values of the body's sources where the structure has no reference.
pub fn values_alone(
    alloc: Global,
    here: &Here<'_, '_>,
    place: &Place<'_>,
) -> Result<BodyValues, AllocError>
    requires { IsReady here.now place.now nothing }
    ensures { IfOk result (λ values. (h : effects.Here) → IsHere here.now h → reader_at h.vi place.now.body values ≡ reader_of h place.now.first place.now.lines.now place.now.body place.now.finish nothing) }
{
    let given = inside(alloc, here.outer(), place, None)?;
    let values = body_values(alloc, here.table, place.body, place.finish, given)?;
    Ok(values)
}

/// The values of the body's sources where the structure's reference refers to a value.
pub fn values_by(
    alloc: Global,
    here: &Here<'_, '_>,
    place: &Place<'_>,
    referred: Value,
) -> Result<BodyValues, AllocError>
    requires { IsReady here.now place.now referred }
    ensures { IfOk result (λ values. (h : effects.Here) → IsHere here.now h → reader_at h.vi place.now.body values ≡ reader_of h place.now.first place.now.lines.now place.now.body place.now.finish referred) }
{
    let given = inside_by(alloc, here.outer(), place, referred)?;
    let values = body_values(alloc, here.table, place.body, place.finish, given)?;
    Ok(values)
}

/// What the structure's lines give outside the body of a VI.
fn outside_of<'x>(
    alloc: Global,
    outer: Wires<'x>,
    table: &'x ViTable<'_>,
    place: &Place<'_>,
    values: BodyValues,
) -> Result<Given, AllocError>
    ensures { IfOk result (λ given. (h : effects.Here) → IsViTable h.vi table.now → reader outer.entry ≡ h.outer → given ≡ border.lines_outside (leaving_of h place.now.body (reader_at h.vi place.now.body values)) place.now.first place.now.lines.now) }
{
    let inner = [table.wires(place.body, values.as_slice())];
    let leaving = Leaving {
        outer,
        inner: &inner,
        kept: &[],
        table,
        body: place.body,
    };
    let given = lines_outside(alloc, &leaving, place.first, place.lines)?;
    Ok(given)
}

/// What the structure's lines give outside.
pub fn outside(
    alloc: Global,
    here: &Here<'_, '_>,
    place: &Place<'_>,
    values: BodyValues,
) -> Result<Given, AllocError>
    ensures { IfOk result (λ given. (h : effects.Here) → IsHere here.now h → given ≡ border.lines_outside (leaving_of h place.now.body (reader_at h.vi place.now.body values)) place.now.first place.now.lines.now) }
{
    let given = outside_of(alloc, here.outer(), here.table, place, values)?;
    Ok(given)
}

/// What the lines beside the reference give outside the body of a VI.
fn others_of<'x>(
    alloc: Global,
    outer: Wires<'x>,
    table: &'x ViTable<'_>,
    place: &Place<'_>,
    values: BodyValues,
) -> Result<List<Value>, AllocError>
    ensures { IfOk result (λ vs. (h : effects.Here) → IsViTable h.vi table.now → reader outer.entry ≡ h.outer → vs ≡ border.other_values (leaving_of h place.now.body (reader_at h.vi place.now.body values)) place.now.first place.now.lines.now) }
{
    let inner = [table.wires(place.body, values.as_slice())];
    let leaving = Leaving {
        outer,
        inner: &inner,
        kept: &[],
        table,
        body: place.body,
    };
    let given = other_values(alloc, &leaving, place.first, place.lines)?;
    Ok(given)
}

/// What the lines beside the reference give outside.
pub fn others(
    alloc: Global,
    here: &Here<'_, '_>,
    place: &Place<'_>,
    values: BodyValues,
) -> Result<List<Value>, AllocError>
    ensures { IfOk result (λ vs. (h : effects.Here) → IsHere here.now h → vs ≡ border.other_values (leaving_of h place.now.body (reader_at h.vi place.now.body values)) place.now.first place.now.lines.now) }
{
    let given = others_of(alloc, here.outer(), here.table, place, values)?;
    Ok(given)
}
