//! What steps give.

ghost use Rattle.std.specs.Prelude.{◌≡◌, ◌+◌, ◌∷◌, [], map, IfOk};
ghost use Rattle.g_border.specs.Bodies.{results_of};
ghost use Rattle.g_border.specs.Cases as cases;
ghost use Rattle.g_border.specs.Lines.{entering, leaving};
ghost use Rattle.g_border.specs.Lines as border;
ghost use Rattle.g_border.specs.Readers as readers;
ghost use Rattle.g_border.specs.Readers.{value_on};
ghost use Rattle.g_diagram_table.specs.Seen.{seen, seen_arm};
ghost use Rattle.g_effects.specs.Needs.{FitsPrimitive};
ghost use Rattle.g_frames.specs.Program.{FlatVi};
ghost use Rattle.g_literals.specs.Values as literals;
ghost use Rattle.g_prims_definitions.specs.Values.{outputs_of};
ghost use Rattle.g_vi_tables.specs.Tables.{IsViTable};
ghost use Rattle.g_wire_values.specs.Wires.{reader};
ghost use Rattle.g_bodies.specs.Known.{known_in};
ghost use Rattle.g_bodies.specs.Steps.{gives_of, WorkFits};

use crate::known::{Given, Known, value, values_in, values_on};
use crate::steps::Work;
use g_crossing::{Entering, Leaving, chosen, lines_inside, lines_outside, results_outside};
use g_diagram::{Lit, Tunnel, Wire};
use g_diagram_table::{Arm, Entry};
use g_lists::List;
use g_literals::literal_value;
use g_node_values::outputs_given;
use g_prims::apply;
use g_types::Ty;
use g_values::{Primitive, Value, ValueList};
use g_vi_tables::ViTable;
use g_wire_values::Wires;
use std::alloc::{AllocError, Global};

/// The line after one. One of 2^32 or more, which no listing has, is told as want of memory.
fn next(line: u32) -> Result<u32, AllocError>
    ensures { IfOk result (λ n. n ≡ line + 1) }
{
    line.checked_add(1).ok_or(AllocError)
}

fn constant(alloc: Global, entry: &Entry<'_>, ty: &Ty, literal: &Lit) -> Result<Given, AllocError>
    ensures { IfOk result (λ g. g ≡ readers.outputs_given (seen entry.now) (literals.literal_value literal.now ty.now ∷ [])) }
{
    let mut values = List::new(alloc);
    values.push(literal_value(alloc, literal, ty)?)?;
    outputs_given(alloc, entry, values)
}

fn applied(
    alloc: Global,
    table: &ViTable<'_>,
    known: &Known,
    entry: &Entry<'_>,
    primitive: Primitive,
    inputs: &[Wire],
) -> Result<Given, AllocError>
    requires { (vi : FlatVi) × (IsViTable vi table.now × FitsPrimitive primitive (map (value_on (known_in vi known.now entry.now.diagram)) inputs.now)) }
    ensures { IfOk result (λ g. (vi : FlatVi) → IsViTable vi table.now → g ≡ readers.outputs_given (seen entry.now) (outputs_of primitive (map (value_on (known_in vi known.now entry.now.diagram)) inputs.now))) }
{
    let values = ValueList::from_list(values_on(alloc, table, known, entry.diagram, inputs)?);
    let outs = apply(alloc, &primitive, &values)?;
    outputs_given(alloc, entry, outs.into_list())
}

/// What the lines of a structure, from one on, give inside, where it has no reference.
fn inside_from(
    alloc: Global,
    outer: Wires<'_>,
    first: u32,
    lines: &[Tunnel],
) -> Result<Given, AllocError>
    ensures { IfOk result (λ g. g ≡ border.lines_inside (entering (reader outer.entry)) first lines.now) }
{
    let entering = Entering {
        outer,
        before: None,
        iteration: 0,
        kept: &[],
        referred: None,
    };
    lines_inside(alloc, &entering, first, lines)
}

fn inside(
    alloc: Global,
    table: &ViTable<'_>,
    known: &Known,
    entry: &Entry<'_>,
    lines: &[Tunnel],
) -> Result<Given, AllocError>
    ensures { IfOk result (λ g. (vi : FlatVi) → IsViTable vi table.now → g ≡ border.lines_inside (entering (known_in vi known.now entry.now.diagram)) (entry.now.line + 1) lines.now) }
{
    let first = next(entry.line)?;
    let outer = values_in(alloc, table, known, entry.diagram)?;
    let wires = table.wires(entry.diagram, outer.as_slice());
    inside_from(alloc, wires, first, lines)
}

/// What the branch that a case takes gives.
fn taken(
    alloc: Global,
    table: &ViTable<'_>,
    known: &Known,
    first: u32,
    lines: &[Tunnel],
    arms: &[Arm<'_>],
    arm: &Arm<'_>,
) -> Result<Given, AllocError>
    ensures { IfOk result (λ g. (vi : FlatVi) → IsViTable vi table.now → g ≡ cases.results_outside vi.types (map seen_arm arms.now) (seen_arm arm.now) (known_in vi known.now arm.now.body) 0 first lines.now) }
{
    let inner = values_in(alloc, table, known, arm.body)?;
    let wires = table.wires(arm.body, inner.as_slice());
    results_outside(alloc, table, &wires, arms, arm, first, lines)
}

fn results(
    alloc: Global,
    table: &ViTable<'_>,
    known: &Known,
    entry: &Entry<'_>,
    selector: &Wire,
    lines: &[Tunnel],
    arms: &[Arm<'_>],
) -> Result<Given, AllocError>
    ensures { IfOk result (λ g. (vi : FlatVi) → IsViTable vi table.now → g ≡ results_of vi.types (entry.now.line + 1) lines.now (map seen_arm arms.now) (known_in vi known.now) (cases.chosen (value_on (known_in vi known.now entry.now.diagram) selector.now) (map seen_arm arms.now))) }
{
    let value = value(alloc, table, known, entry.diagram, selector)?;
    let first = next(entry.line)?;
    match chosen(&value, arms) {
        Some(arm) => taken(alloc, table, known, first, lines, arms, arm),
        None => Ok(List::new(alloc)),
    }
}

/// What the lines of a structure in place, from one on, give outside, where it has no reference.
fn outside_from(
    alloc: Global,
    table: &ViTable<'_>,
    outer: Wires<'_>,
    inner: &[Wires<'_>],
    body: u32,
    first: u32,
    lines: &[Tunnel],
) -> Result<Given, AllocError>
    ensures { IfOk result (λ g. (vi : FlatVi) → IsViTable vi table.now → g ≡ border.lines_outside (leaving (reader outer.entry) (map reader inner.now) (vi.types body)) first lines.now) }
{
    let leaving = Leaving {
        outer,
        inner,
        kept: &[],
        table: &*table,
        body,
    };
    lines_outside(alloc, &leaving, first, lines)
}

fn outside(
    alloc: Global,
    table: &ViTable<'_>,
    known: &Known,
    entry: &Entry<'_>,
    lines: &[Tunnel],
    body: u32,
) -> Result<Given, AllocError>
    ensures { IfOk result (λ g. (vi : FlatVi) → IsViTable vi table.now → g ≡ border.lines_outside (leaving (known_in vi known.now entry.now.diagram) (known_in vi known.now body ∷ []) (vi.types body)) (entry.now.line + 1) lines.now) }
{
    let first = next(entry.line)?;
    let outer = values_in(alloc, table, known, entry.diagram)?;
    let inner = values_in(alloc, table, known, body)?;
    let wires = (&*table).wires(entry.diagram, outer.as_slice());
    let frame = (&*table).wires(body, inner.as_slice());
    outside_from(alloc, &*table, wires, &[frame], body, first, &*lines)
}

/// What a step gives. Only want of memory refuses it, as which a line of 2^32 or more is told too.
pub fn given_by(
    alloc: Global,
    table: &ViTable<'_>,
    known: &Known,
    work: &Work<'_, '_>,
) -> Result<Given, AllocError>
    requires { (vi : FlatVi) × (IsViTable vi table.now × WorkFits (known_in vi known.now) work.now) }
    ensures { IfOk result (λ g. (vi : FlatVi) → IsViTable vi table.now → g ≡ gives_of vi.types work.now (known_in vi known.now)) }
{
    match work {
        Work::Const { entry, ty, literal } => constant(alloc, *entry, *ty, *literal),
        Work::Apply {
            entry,
            primitive,
            inputs,
        } => applied(alloc, table, known, *entry, *primitive, *inputs),
        Work::Inside { entry, lines } => inside(alloc, table, known, *entry, *lines),
        Work::Results {
            entry,
            selector,
            lines,
            arms,
        } => results(alloc, table, known, *entry, *selector, *lines, *arms),
        Work::Outside { entry, lines, body } => {
            outside(alloc, table, known, *entry, *lines, *body)
        }
    }
}
