//! What the lines of a structure give outside, once its frames are complete.

ghost use Rattle.std.specs.Prelude.{◌≡◌, ◌+◌, ◌++◌, [], ◌∷◌, ℕ, map, IfOk, OnOk};
ghost use Rattle.std.specs.Option.{option_and_then, option_copied, option_map, option_to_list};
ghost use Rattle.g_border.specs.Lines as border;
ghost use Rattle.g_border.specs.Readers.{value_on};
ghost use Rattle.g_diagram_table.specs.Seen.{seen_part};
ghost use Rattle.g_frames.specs.Program.{FlatVi};
ghost use Rattle.g_prims_definitions.specs.Arithmetic.{nothing};
ghost use Rattle.g_prims_definitions.specs.Arrays as arrays;
ghost use Rattle.g_prims_definitions.specs.Clusters as clusters;
ghost use Rattle.g_prims_definitions.specs.Clusters.{or_nothing};
ghost use Rattle.g_vi_tables.specs.Tables.{IsViTable};
ghost use Rattle.g_wire_values.specs.Wires.{reader};
ghost use Rattle.g_crossing.specs.Crossing.{IsLeaving, kept_given, kept_on};
ghost use Rattle.g_crossing.specs.Kept.{kept_from, kept_value, left, outside_from, placed, valued, values_from};

use crate::gather::gathered;
use crate::inside::{Given, place};
use crate::values::{kept_at, kept_register, next, next_kept, register, value_in};
use g_diagram::{Tunnel, Wire};
use g_diagram_table::Part;
use g_lists::List;
use g_prims_edits::{put, replace};
use g_types::Ty;
use g_values::{Value, default_of};
use g_vi_tables::ViTable;
use g_wire_values::Wires;
use std::alloc::{AllocError, Global};
use std::slice;

/// Frames that are complete: what the lines of their structure read.
#[derive(Clone, Copy)]
pub struct Leaving<'a, 'm> {
    /// The values of the diagram that holds the structure.
    pub outer: Wires<'a>,
    /// Those of the frames inside, in the order of their opening.
    pub inner: &'a [Wires<'a>],
    /// What the kept registers had when the loop started, in the order of their lines.
    pub kept: &'a [Value],
    /// The VI, for the types of its wires.
    pub table: &'a ViTable<'m>,
    /// The diagram of the frames.
    pub body: u32,
}

#[tactic(auto, using(crate::proofs::OutsideLemmas::last_mapped))]
fn latest<'a>(inner: &[Wires<'a>]) -> Option<Wires<'a>>
    ensures { option_map reader result ≡ border.latest (map reader inner.now) }
{
    inner.last().copied()
}

/// The type of a wire inside.
fn type_inside<'a, 'm>(leaving: &Leaving<'a, 'm>, wire: &Wire) -> Option<&'m Ty>
    ensures { (vi : FlatVi) → IsViTable vi leaving.now.table.now → option_copied result ≡ option_and_then (vi.types leaving.now.body) wire.now }
{
    match wire {
        Some(name) => leaving.table.type_of(leaving.body, name.as_slice()),
        None => None,
    }
}

/// The default of a type, and FALSE where it is unknown.
pub fn default_at(alloc: Global, ty: Option<&Ty>) -> Result<Value, AllocError>
    ensures { IfOk result (λ v. v ≡ border.default_at (option_copied ty.entry)) }
{
    match ty {
        Some(ty) => default_of(alloc, ty),
        None => Ok(Value::Bool(false)),
    }
}

/// A value in the latest frame, or the default of a type.
fn last_or_default(
    alloc: Global,
    latest: Option<Wires>,
    wire: &Wire,
    ty: Option<&Ty>,
) -> Result<Value, AllocError>
    ensures { IfOk result (λ v. v ≡ border.value_in (option_map reader latest.entry) wire.now (border.default_at (option_copied ty.entry))) }
{
    match latest {
        Some(latest) => latest.value(alloc, wire),
        None => default_at(alloc, ty),
    }
}

/// An array of what a wire inside had in each frame.
fn all_values(alloc: Global, leaving: &Leaving, wire: &Wire) -> Result<Value, AllocError>
    ensures { IfOk result (λ v. (vi : FlatVi) → IsViTable vi leaving.now.table.now → v ≡ border.gathered (option_and_then (vi.types leaving.now.body) wire.now) (map (λ r. value_on r wire.now) (map reader leaving.now.inner.now))) }
{
    let ty = type_inside(leaving, wire);
    let array = gathered(alloc, ty, leaving.inner, wire)?;
    Ok(array)
}

/// An array with another element, as the latest frame gives it.
fn with_element(
    alloc: Global,
    leaving: &Leaving,
    array: &Wire,
    index: &Wire,
    next: &Wire,
) -> Result<Value, AllocError>
    ensures { IfOk result (λ v. v ≡ arrays.replace (value_on (reader leaving.now.outer) array.now) (value_on (reader leaving.now.outer) index.now) (border.value_in (border.latest (map reader leaving.now.inner.now)) next.now nothing)) }
{
    let array = leaving.outer.value(alloc, array)?;
    let index = leaving.outer.value(alloc, index)?;
    let element = value_in(alloc, latest(leaving.inner), next)?;
    Ok(replace(array, &index, element))
}

/// A cluster with another element, as the latest frame gives it.
fn with_part(
    alloc: Global,
    leaving: &Leaving,
    field: u8,
    cluster: &Wire,
    next: &Wire,
) -> Result<Value, AllocError>
    ensures { IfOk result (λ v. v ≡ clusters.put field (value_on (reader leaving.now.outer) cluster.now) (border.value_in (border.latest (map reader leaving.now.inner.now)) next.now nothing)) }
{
    let cluster = leaving.outer.value(alloc, cluster)?;
    let part = value_in(alloc, latest(leaving.inner), next)?;
    put(alloc, field, cluster, part)
}

/// The value that a line gives outside, with its operand. A kept register had this value when its loop started.
fn value_outside(
    alloc: Global,
    leaving: &Leaving,
    kept: Option<&Value>,
    tunnel: &Tunnel,
) -> Result<Option<(u32, Value)>, AllocError>
    ensures given { IfOk result (λ g. (vi : FlatVi) → IsViTable vi leaving.now.table.now → (l : ℕ) → placed l g ≡ border.line_outside (left vi leaving.now (or_nothing (option_copied kept.entry))) l tunnel.now) }
    ensures values { IfOk result (λ g. (vi : FlatVi) → IsViTable vi leaving.now.table.now → valued g ≡ border.values_outside (left vi leaving.now (or_nothing (option_copied kept.entry))) 0 tunnel.now) }
{
    let inner = leaving.inner;
    match tunnel {
        Tunnel::Register { initial, next, .. } => Ok(Some((
            4,
            register(alloc, &leaving.outer, latest(inner), initial, next)?,
        ))),
        Tunnel::Kept { ty, next, .. } => Ok(Some((
            4,
            kept_register(alloc, latest(inner), kept, ty, next)?,
        ))),
        Tunnel::Last { inner: wire, .. } => Ok(Some((
            2,
            last_or_default(alloc, latest(inner), wire, type_inside(leaving, wire))?,
        ))),
        Tunnel::Gather { inner: wire, .. } => Ok(Some((2, all_values(alloc, leaving, wire)?))),
        Tunnel::Element {
            array,
            index,
            next,
            ..
        } => { Ok(Some((5, with_element(alloc, leaving, array, index, next)?))) }
        Tunnel::Field {
            field,
            cluster,
            next,
            ..
        } => { Ok(Some((4, with_part(alloc, leaving, *field, cluster, next)?))) }
        Tunnel::Tunnel { .. }
        | Tunnel::Index { .. }
        | Tunnel::Result { .. }
        | Tunnel::Carry { .. }
        | Tunnel::Ref { .. } => Ok(None),
    }
}

/// What a line gives outside, by the number of the kept register that comes next.
fn push_line(
    alloc: Global,
    given: &mut Given,
    leaving: &Leaving,
    register: usize,
    line: u32,
    tunnel: &Tunnel,
) -> Result<(), AllocError>
    ensures { OnOk result ((vi : FlatVi) → IsViTable vi leaving.now.table.now → given.new ≡ given.old ++ border.line_outside (left vi leaving.now (kept_value leaving.now.kept.now register)) line tunnel.now) }
{
    let kept = kept_at(leaving.kept, register);
    let value = value_outside(alloc, leaving, kept, tunnel)?;
    place(given, line, value)
}

/// What lines, from one on, give outside, one after another.
fn push_lines(
    alloc: Global,
    given: &mut Given,
    leaving: &Leaving,
    first: u32,
    lines: &[Tunnel],
) -> Result<(), AllocError>
    ensures { OnOk result ((vi : FlatVi) → IsViTable vi leaving.now.table.now → given.new ≡ given.old ++ outside_from vi leaving.now 0 first lines.now) }
{
    let (mut line, mut register) = (first, 0);
    for tunnel in lines {
        push_line(alloc, given, leaving, register, line, tunnel)?;
        register = next_kept(tunnel, register)?;
        line = next(line)?;
    }
    Ok(())
}

/// What lines, from one on, give outside. Only want of memory refuses it, or a line of 2^32 or more, which no
/// listing has.
pub fn lines_outside(
    alloc: Global,
    leaving: &Leaving,
    first: u32,
    lines: &[Tunnel],
) -> Result<Given, AllocError>
    ensures { IfOk result (λ g. (vi : FlatVi) (e : border.Leaving) → IsViTable vi leaving.now.table.now → IsLeaving first lines.now leaving.now vi e → g ≡ border.lines_outside e first lines.now) }
{
    let mut given = List::new(alloc);
    push_lines(alloc, &mut given, leaving, first, lines)?;
    Ok(given)
}

/// Adds a value, if there is one.
fn push_value(values: &mut List<Value>, value: Option<(u32, Value)>) -> Result<(), AllocError>
    ensures { OnOk result (values.new ≡ values.old ++ valued value) }
{
    if let Some((_, value)) = value {
        values.push(value)?;
    }
    Ok(())
}

/// The value that a line gives outside, by the number of the kept register that comes next.
fn push_other(
    alloc: Global,
    values: &mut List<Value>,
    leaving: &Leaving,
    register: usize,
    tunnel: &Tunnel,
) -> Result<(), AllocError>
    ensures { OnOk result ((vi : FlatVi) → IsViTable vi leaving.now.table.now → values.new ≡ values.old ++ border.values_outside (left vi leaving.now (kept_value leaving.now.kept.now register)) 0 tunnel.now) }
{
    let kept = kept_at(leaving.kept, register);
    let value = value_outside(alloc, leaving, kept, tunnel)?;
    push_value(values, value)
}

/// The values that lines give outside, one after another.
fn push_others(
    alloc: Global,
    values: &mut List<Value>,
    leaving: &Leaving,
    lines: &[Tunnel],
) -> Result<(), AllocError>
    ensures { OnOk result ((vi : FlatVi) → IsViTable vi leaving.now.table.now → values.new ≡ values.old ++ values_from vi leaving.now 0 lines.now) }
{
    let mut register = 0;
    for tunnel in lines {
        push_other(alloc, values, leaving, register, tunnel)?;
        register = next_kept(tunnel, register)?;
    }
    Ok(())
}

/// The values that lines, from one on, give outside, without their places. Only want of memory refuses it.
pub fn other_values(
    alloc: Global,
    leaving: &Leaving,
    first: u32,
    lines: &[Tunnel],
) -> Result<List<Value>, AllocError>
    ensures { IfOk result (λ g. (vi : FlatVi) (e : border.Leaving) → IsViTable vi leaving.now.table.now → IsLeaving first lines.now leaving.now vi e → g ≡ border.other_values e first lines.now) }
{
    let mut values = List::new(alloc);
    push_others(alloc, &mut values, leaving, lines)?;
    Ok(values)
}

/// What a kept register has after its loop, with its line. Other lines have none.
fn push_kept(
    alloc: Global,
    values: &mut List<(u32, Value)>,
    leaving: &Leaving,
    register: usize,
    line: u32,
    tunnel: &Tunnel,
) -> Result<(), AllocError>
    ensures { OnOk result ((vi : FlatVi) → IsViTable vi leaving.now.table.now → values.new ≡ values.old ++ kept_on (left vi leaving.now (kept_value leaving.now.kept.now register)) line tunnel.now) }
{
    let Tunnel::Kept { ty, next, .. } = tunnel else {
        return Ok(());
    };
    let kept = kept_at(leaving.kept, register);
    let value = kept_register(alloc, latest(leaving.inner), kept, ty, next)?;
    values.push((line, value))?;
    Ok(())
}

/// What kept registers have after their loop, each with its line. Only want of memory refuses it, or a line of
/// 2^32 or more.
pub fn kept_values(
    alloc: Global,
    leaving: &Leaving,
    first: u32,
    lines: &[Tunnel],
) -> Result<List<(u32, Value)>, AllocError>
    ensures { IfOk result (λ g. (vi : FlatVi) (e : border.Leaving) → IsViTable vi leaving.now.table.now → IsLeaving first lines.now leaving.now vi e → g ≡ kept_given e first lines.now) }
{
    let mut values = List::new(alloc);
    push_kept_all(alloc, &mut values, leaving, first, lines)?;
    Ok(values)
}

/// What kept registers have after their loop, one after another.
fn push_kept_all(
    alloc: Global,
    values: &mut List<(u32, Value)>,
    leaving: &Leaving,
    first: u32,
    lines: &[Tunnel],
) -> Result<(), AllocError>
    ensures { OnOk result ((vi : FlatVi) → IsViTable vi leaving.now.table.now → values.new ≡ values.old ++ kept_from vi leaving.now 0 first lines.now) }
{
    let (mut line, mut register) = (first, 0);
    for tunnel in lines {
        push_kept(alloc, values, leaving, register, line, tunnel)?;
        register = next_kept(tunnel, register)?;
        line = next(line)?;
    }
    Ok(())
}

/// What the border lines of one part of a sequence give outside, once its frame is complete.
fn push_part(
    alloc: Global,
    given: &mut Given,
    table: &ViTable,
    outer: &Wires,
    part: &Part,
    inner: &Wires,
) -> Result<(), AllocError>
    ensures { OnOk result ((vi : FlatVi) → IsViTable vi table.now → given.new ≡ given.old ++ border.lines_outside (border.leaving (reader outer.now) (reader inner.now ∷ []) (vi.types part.now.body)) (part.now.body + 1) part.now.lines.now) }
{
    let leaving = Leaving {
        outer: *outer,
        inner: slice::from_ref(inner),
        kept: &[],
        table,
        body: part.body,
    };
    let lines = lines_outside(alloc, &leaving, next(part.body)?, part.lines)?;
    given.append(lines)?;
    Ok(())
}

/// The outputs of a sequence, from the values of its frames. Only want of memory refuses it, or a line of 2^32 or
/// more.
pub fn parts_outside(
    alloc: Global,
    table: &ViTable,
    outer: &Wires,
    parts: &[Part],
    inner: &[Wires],
) -> Result<Given, AllocError>
    ensures { IfOk result (λ g. (vi : FlatVi) → IsViTable vi table.now → g ≡ border.parts_outside (reader outer.now) (map seen_part parts.now) (map reader inner.now) vi.types) }
{
    let mut given = List::new(alloc);
    for i in 0..parts.len().min(inner.len()) {
        push_part(alloc, &mut given, table, outer, &parts[i], &inner[i])?;
    }
    Ok(given)
}
