//! The turns of a body.

ghost use Rattle.std.specs.Prelude.{◌≡◌, ◌<◌, ℕ, suc, length, map, List as TheList, IfOk, IfSome, OnOk};
ghost use Rattle.g_border.specs.Bodies.{body_reader, is_known};
ghost use Rattle.g_border.specs.Readers.{value_given};
ghost use Rattle.g_border.specs.declared.place.WireSource.{WireSource as Place};
ghost use Rattle.g_frames.specs.Program.{FlatVi};
ghost use Rattle.g_needs.specs.Bodies.{BodyNeeds};
ghost use Rattle.g_vi_tables.specs.Tables.{IsViTable, reader_at};
ghost use Rattle.g_bodies.specs.Known.{found, known_in};
ghost use Rattle.g_bodies.specs.Steps.{step_of};
ghost use Rattle.g_bodies.specs.Turns.{after, first_from, StepsFit};

use crate::known::{Given, Known, give, has, values_in};
use crate::steps::{Step, steps_of};
use crate::work::given_by;
use g_border::WireSource;
use g_lists::List;
use g_values::Value;
use g_vi_tables::ViTable;
use std::alloc::{AllocError, Global};
use std::collections::BTreeMap;

/// Whether all wires that a step reads have values.
fn is_known(table: &ViTable<'_>, known: &Known, step: &Step<'_, '_>) -> bool
    ensures { (vi : FlatVi) → IsViTable vi table.now → result ≡ is_known (known_in vi known.now) (step_of vi.types step.now) }
{
    for read in step.reads.as_slice() {
        if !has(table, known, read.0, read.1) {
            return false;
        }
    }
    true
}

/// The place of the first step whose wires all have values.
fn first_known(table: &ViTable<'_>, known: &Known, steps: &[Step<'_, '_>]) -> Option<usize>
    ensures within { IfSome result (λ at. at < length steps.now) }
    ensures place { (vi : FlatVi) → IsViTable vi table.now → result ≡ first_from 0 (λ s. is_known (known_in vi known.now) (step_of vi.types s)) steps.now }
{
    for at in 0..steps.len() {
        if is_known(table, known, &steps[at]) {
            return Some(at);
        }
    }
    None
}

/// Takes the first step whose wires all have values, if there is one.
fn take_turn(
    alloc: Global,
    table: &ViTable<'_>,
    steps: &mut Vec<Step<'_, '_>>,
    known: &mut Known,
) -> Result<(), AllocError>
    requires { (vi : FlatVi) × (IsViTable vi table.now × StepsFit vi steps.old.items (found known.old)) }
    ensures turn { OnOk result ((vi : FlatVi) → IsViTable vi table.now → (m : ℕ) → after vi steps.new.items (found known.new) m ≡ after vi steps.old.items (found known.old) (suc m)) }
    ensures fits { OnOk result ((vi : FlatVi) → IsViTable vi table.now → StepsFit vi steps.old.items (found known.old) → StepsFit vi steps.new.items (found known.new)) }
{
    let Some(at) = first_known(table, known, steps.as_slice()) else {
        return Ok(());
    };
    let step = steps.remove(at);
    let given = given_by(alloc, table, known, &step.work)?;
    give(known, given)
}

/// Takes as many turns as there are steps.
fn take_turns(
    alloc: Global,
    table: &ViTable<'_>,
    steps: Vec<Step<'_, '_>>,
    known: &mut Known,
) -> Result<(), AllocError>
    requires { (vi : FlatVi) × (IsViTable vi table.now × StepsFit vi steps.items (found known.old)) }
    ensures { OnOk result ((vi : FlatVi) → IsViTable vi table.now → found known.new ≡ after vi steps.entry.items (found known.old) (length steps.entry.items)) }
{
    let mut steps = steps;
    for _ in 0..steps.len() {
        take_turn(alloc, table, &mut steps, known)?;
    }
    Ok(())
}

fn known_from(alloc: Global, inside: Given) -> Result<Known, AllocError>
    ensures { IfOk result (λ known. (p : Place) → found known p ≡ value_given inside p) }
{
    let mut known = BTreeMap::new(alloc);
    give(&mut known, inside)?;
    Ok(known)
}

/// The values of a body's own sources, in the order of their places, where its structure's lines give these
/// values inside. Only want of memory refuses it, as which a line of 2^32 or more is told too.
pub fn body_values(
    alloc: Global,
    table: &ViTable<'_>,
    body: u32,
    finish: u32,
    inside: List<(WireSource, Value)>,
) -> Result<List<Option<Value>>, AllocError>
    requires { (vi : FlatVi) × (IsViTable vi table.now × BodyNeeds vi body finish inside) }
    ensures { IfOk result (λ values. (vi : FlatVi) → IsViTable vi table.now → (name : TheList ℕ) → reader_at vi body values name ≡ body_reader vi.ports vi.types vi.entries body finish inside name) }
{
    let steps = steps_of(alloc, table.inside(body, finish))?;
    let mut known = known_from(alloc, inside)?;
    take_turns(alloc, table, steps, &mut known)?;
    values_in(alloc, table, &known, body)
}
