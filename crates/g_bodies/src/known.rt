//! The values that are given so far, by their sources.

ghost use Rattle.std.specs.Prelude.{◌≡◌, ◌∷◌, ◌++◌, ℕ, [], map, IfOk, OnOk, if◌then◌else◌, Some, None};
ghost use Rattle.std.specs.Option.{option_copied, option_map, option_or};
ghost use Rattle.g_border.specs.Readers.{has_value, value_on, value_given, same_source};
ghost use Rattle.g_border.specs.declared.place.WireSource.{WireSource as Place};
ghost use Rattle.g_frames.specs.Program.{FlatVi};
ghost use Rattle.g_prims_definitions.specs.Clusters.{or_nothing};
ghost use Rattle.g_vi_tables.specs.Tables.{IsViTable, reader_at};
ghost use Rattle.g_bodies.specs.Known.{found, known_in, with_more};

use g_border::WireSource;
use g_diagram::Wire;
use g_lists::List;
use g_values::{Copies, Value, copy};
use g_vi_tables::ViTable;
use std::alloc::{AllocError, Global};
use std::collections::BTreeMap;

/// The values that are given so far.
pub type Known = BTreeMap<WireSource, Value>;

/// Values at sources.
pub type Given = List<(WireSource, Value)>;

/// Gives a value at a source. One that stands there stays.
fn give_one(known: &mut Known, source: WireSource, value: Value) -> Result<(), AllocError>
    ensures { OnOk result ((p : Place) → found known.new p ≡ option_or (found known.old p) (if same_source source p then Some value else None)) }
{
    if known.contains_key(&source) {
        return Ok(());
    }
    known.insert(source, value)?;
    Ok(())
}

/// Gives values at sources, one after another. A first value stays.
pub fn give(known: &mut Known, given: Given) -> Result<(), AllocError>
    ensures { OnOk result ((p : Place) → found known.new p ≡ with_more (found known.old) given p) }
{
    for (source, value) in given.into_vec() {
        give_one(known, source, value)?;
    }
    Ok(())
}

/// The value on the wire of a name in a diagram, where there is one.
fn named<'k>(table: &ViTable<'_>, known: &'k Known, diagram: u32, name: &[u8]) -> Option<&'k Value>
    ensures { (vi : FlatVi) → IsViTable vi table.now → option_copied result ≡ known_in vi known.now diagram name.now }
{
    match table.source_of(diagram, name) {
        Some(source) => known.get(&source),
        None => None,
    }
}

/// Whether an operand in a diagram has its value. An unwired one needs none.
pub fn has(table: &ViTable<'_>, known: &Known, diagram: u32, wire: Option<&[u8]>) -> bool
    ensures { (vi : FlatVi) → IsViTable vi table.now → result ≡ has_value (known_in vi known.now diagram) (option_map (λ name. name.now) wire.entry) }
{
    match wire {
        Some(name) => named(table, known, diagram, name).is_some(),
        None => true,
    }
}

fn copy_or_false(alloc: Global, value: Option<&Value>) -> Result<Value, AllocError>
    ensures { IfOk result (λ v. v ≡ or_nothing (option_copied value.entry)) }
{
    match value {
        Some(value) => copy(alloc, value, &mut Copies { n: 0 }),
        None => Ok(Value::Bool(false)),
    }
}

/// The value at an operand in a diagram, and FALSE where there is none.
pub fn value(
    alloc: Global,
    table: &ViTable<'_>,
    known: &Known,
    diagram: u32,
    wire: &Wire,
) -> Result<Value, AllocError>
    ensures { IfOk result (λ v. (vi : FlatVi) → IsViTable vi table.now → v ≡ value_on (known_in vi known.now diagram) wire.now) }
{
    match wire {
        Some(name) => copy_or_false(alloc, named(table, known, diagram, name.as_slice())),
        None => Ok(Value::Bool(false)),
    }
}

/// The values at operands in a diagram, in their order.
pub fn values_on(
    alloc: Global,
    table: &ViTable<'_>,
    known: &Known,
    diagram: u32,
    wires: &[Wire],
) -> Result<List<Value>, AllocError>
    ensures { IfOk result (λ vs. (vi : FlatVi) → IsViTable vi table.now → vs ≡ map (value_on (known_in vi known.now diagram)) wires.now) }
{
    let mut values = Vec::new(alloc);
    for wire in wires {
        values.push(value(alloc, table, known, diagram, wire)?)?;
    }
    Ok(List::from_vec(values))
}

/// Adds a copy of the value at a source, where there is one.
fn push_at(
    alloc: Global,
    known: &Known,
    values: &mut Vec<Option<Value>>,
    source: &WireSource,
) -> Result<(), AllocError>
    ensures { OnOk result (values.new.items ≡ values.old.items ++ found known.now source.now ∷ []) }
{
    match known.get(source) {
        Some(value) => values.push(Some(copy(alloc, value, &mut Copies { n: 0 })?))?,
        None => values.push(None)?,
    }
    Ok(())
}

/// The values at sources, in their order.
fn values_at(
    alloc: Global,
    known: &Known,
    sources: &[WireSource],
) -> Result<List<Option<Value>>, AllocError>
    ensures { IfOk result (λ vs. vs ≡ map (found known.now) sources.now) }
{
    let mut values = Vec::new(alloc);
    for source in sources {
        push_at(alloc, known, &mut values, source)?;
    }
    Ok(List::from_vec(values))
}

/// The values of a diagram's sources, in the order of their places.
pub fn values_in(
    alloc: Global,
    table: &ViTable<'_>,
    known: &Known,
    diagram: u32,
) -> Result<List<Option<Value>>, AllocError>
    ensures { IfOk result (λ vs. (vi : FlatVi) → IsViTable vi table.now → reader_at vi diagram vs ≡ known_in vi known.now diagram) }
{
    values_at(alloc, known, table.sources(diagram))
}
