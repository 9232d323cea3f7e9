//! What happens in a frame.

ghost use Rattle.std.specs.Prelude.{◌≡◌, [], ◌∷◌, ◌++◌, Some, map, slice_get, slice_set, OnOk, IfOk};
ghost use Rattle.std.specs.Option.{option_map_or};
ghost use Rattle.g_diagram_table.specs.Seen.{seen};
ghost use Rattle.g_frames.specs.declared.state.Progress.TheVariants as progress;
ghost use Rattle.g_frames.specs.Program.{FlatVi};
ghost use Rattle.g_frames.specs.State.{no_values, nodes_in, opened, sources_in, with_given, with_value};
ghost use Rattle.g_frames.specs.Effects.{gives};
ghost use Rattle.g_frames.specs.Fire.{fired_in};
ghost use Rattle.g_effects.specs.Advance.{advanced};
ghost use Rattle.g_effects.specs.Effects.{seen_opening};
ghost use Rattle.g_vi_tables.specs.Tables.{IsViTable};
ghost use Rattle.g_states.specs.States.{progress_in, put_at, stepped_at, stepped_on};

use g_border::WireSource;
use g_diagram_table::Entry;
use g_effects::{Advance, Given, Opening, take_step};
use g_frames::{Frame, FrameNode, Progress};
use g_lists::List;
use g_values::Value;
use g_vi_tables::ViTable;
use std::alloc::{AllocError, Global};

/// The frame that opens, in which nothing was fired. Only want of memory refuses it.
pub fn open(
    alloc: Global,
    table: &ViTable,
    opener: Option<FrameNode>,
    opening: Opening,
) -> Result<Frame, AllocError>
    ensures { IfOk result (λ f. (flat : FlatVi) → IsViTable flat table.now → f ≡ opened opener (seen_opening opening) flat) }
{
    let Opening {
        vi,
        space,
        diagram,
        iteration,
        gives,
    } = opening;
    let mut values = empty(alloc, table.sources(diagram))?;
    give(&mut values, table, diagram, gives);
    let nodes = idle(alloc, table.entries(diagram))?;
    Ok(Frame {
        vi,
        space,
        diagram,
        opener,
        iteration,
        values,
        nodes,
    })
}

/// No value for each source.
fn empty(alloc: Global, sources: &[WireSource]) -> Result<List<Option<Value>>, AllocError>
    ensures { IfOk result (λ vs. vs ≡ no_values sources.now) }
{
    let mut values = Vec::new(alloc);
    for _source in sources {
        values.push(None)?;
    }
    Ok(List::from_vec(values))
}

/// Nothing that each node has done.
fn idle(alloc: Global, entries: &[Entry]) -> Result<List<Progress>, AllocError>
    ensures { IfOk result (λ ps. ps ≡ map (λ e. progress.Idle) (map seen entries.now)) }
{
    let mut nodes = Vec::new(alloc);
    for _entry in entries {
        nodes.push(Progress::Idle)?;
    }
    Ok(List::from_vec(nodes))
}

/// What a node does in its frame: it takes a step, and gives values at sources. Where no node has the line only
/// the values are given. Only want of memory refuses it, or a line of 2^32 or more, which no node has.
#[tactic(auto, using(crate::proofs::StepLemmas::fired))]
pub(crate) fn fire_in(
    alloc: Global,
    frame: &mut Frame,
    table: &ViTable,
    line: u64,
    advance: Advance,
    given: Given,
    next: u64,
) -> Result<(), AllocError>
    ensures { OnOk result ((flat : FlatVi) → IsViTable flat table.now → frame.new ≡ fired_in line (gives (advanced (progress_in line frame.old flat) advance next) given) frame.old flat) }
{
    let line = u32::try_from(line).ok().ok_or(AllocError)?;
    let diagram = frame.diagram;
    step(alloc, &mut frame.nodes, table, diagram, line, advance, next)?;
    give(&mut frame.values, table, diagram, given);
    Ok(())
}

/// The node on a line takes a step, where there is the node.
fn step(
    alloc: Global,
    nodes: &mut List<Progress>,
    table: &ViTable,
    diagram: u32,
    line: u32,
    advance: Advance,
    next: u64,
) -> Result<(), AllocError>
    ensures { OnOk result ((flat : FlatVi) → IsViTable flat table.now → nodes.new ≡ stepped_on line (nodes_in flat diagram) advance next nodes.old) }
{
    match table.find(diagram, line) {
        Some(at) => step_node(alloc, nodes, at, advance, next),
        None => Ok(()),
    }
}

/// The node at a place takes a step.
#[tactic(auto, using(crate::proofs::StepLemmas::node_steps))]
fn step_node(
    alloc: Global,
    nodes: &mut List<Progress>,
    at: usize,
    advance: Advance,
    next: u64,
) -> Result<(), AllocError>
    ensures { OnOk result (nodes.new ≡ stepped_at advance next nodes.old at) }
{
    if at >= nodes.len() {
        return Ok(());
    }
    let done = nodes.replace(at, Progress::Idle);
    let progress = take_step(alloc, done, advance, next)?;
    nodes.set(at, progress);
    Ok(())
}

/// Gives values at sources of a diagram. A source that has a value keeps it.
pub(crate) fn give(values: &mut List<Option<Value>>, table: &ViTable, diagram: u32, given: Given)
    ensures { (flat : FlatVi) → IsViTable flat table.now → values.new ≡ with_given (sources_in diagram flat.ports) values.old given }
{
    for (source, value) in given.into_vec() {
        give_at(values, table, diagram, source, value);
    }
}

#[tactic(auto, using(crate::proofs::GiveLemmas::given))]
fn give_at(
    values: &mut List<Option<Value>>,
    table: &ViTable,
    diagram: u32,
    source: WireSource,
    value: Value,
)
    ensures { (flat : FlatVi) → IsViTable flat table.now → values.new ≡ with_value (sources_in diagram flat.ports) values.old source value }
{
    if let Some(at) = table.source_place(diagram, source) {
        put(values, at, value);
    }
}

/// Puts a value at a place that has none.
fn put(values: &mut List<Option<Value>>, at: usize, value: Value)
    ensures { values.new ≡ put_at values.old at value }
{
    if let Some(None) = values.get(at) {
        values.set(at, Some(value));
    }
}
