//! The sources of a VI, line by line and operand by operand.

ghost use Rattle.std.specs.Prelude.{◌≡◌, ◌+◌, ◌++◌, ◌∷◌, [], map, length, IfOk, OnOk};
ghost use Rattle.std.specs.Option.{option_map};
ghost use Rattle.g_diagram_table.specs.Seen as node;
ghost use Rattle.g_vi_tables.specs.Sources as spec;
ghost use Rattle.g_vi_tables.specs.Sources.{seen, source_in, outputs_from, in_each, border_sources, border_all, parts_sources, count_wired, kind_sources, nodes_sources, panel_sources};

use g_border::WireSource;
use g_diagram::{PanelItem, Tunnel, Vi, Wire};
use g_diagram_table::{Arm, Entry, Kind, Part};
use g_types::Name;
use std::alloc::{AllocError, Global};

/// A source of a diagram.
#[derive(Clone, Copy)]
pub struct Source<'m> {
    pub diagram: u32,
    pub place: WireSource,
    pub wire: Option<&'m Name>,
}

/// The next line or operand. Want of memory tells that there is none, since no place has such a number.
fn next(n: u32) -> Result<u32, AllocError>
    ensures { IfOk result (λ m. m ≡ n + 1) }
{
    n.checked_add(1).ok_or(AllocError)
}

/// The operand after so many.
fn operand_after(count: usize) -> Result<u32, AllocError>
    ensures { IfOk result (λ operand. operand ≡ count + 1) }
{
    match u32::try_from(count) {
        Ok(count) => next(count),
        Err(_) => Err(AllocError),
    }
}

fn push<'m>(
    sources: &mut Vec<Source<'m>>,
    diagram: u32,
    line: u32,
    operand: u32,
    wire: &'m Wire,
) -> Result<(), AllocError>
    ensures { OnOk result (map seen sources.new.items ≡ map seen sources.old.items ++ source_in diagram line operand wire.now ∷ []) }
{
    sources.push(Source {
        diagram,
        place: WireSource { line, operand },
        wire: wire.as_ref(),
    })?;
    Ok(())
}

/// The outputs of a node that has so many inputs.
fn push_outputs<'m>(
    sources: &mut Vec<Source<'m>>,
    diagram: u32,
    line: u32,
    inputs: usize,
    outputs: &'m [Wire],
) -> Result<(), AllocError>
    ensures { OnOk result (map seen sources.new.items ≡ map seen sources.old.items ++ outputs_from diagram line (inputs + 1) outputs.now) }
{
    let mut operand = operand_after(inputs)?;
    for wire in outputs {
        push(sources, diagram, line, operand, wire)?;
        operand = next(operand)?;
    }
    Ok(())
}

/// An operand once in each of some diagrams.
fn push_each<'m>(
    sources: &mut Vec<Source<'m>>,
    diagrams: &[u32],
    line: u32,
    operand: u32,
    wire: &'m Wire,
) -> Result<(), AllocError>
    ensures { OnOk result (map seen sources.new.items ≡ map seen sources.old.items ++ in_each diagrams.now line operand wire.now) }
{
    for diagram in diagrams {
        push(sources, *diagram, line, operand, wire)?;
    }
    Ok(())
}

/// The sources of a border line.
fn push_tunnel<'m>(
    sources: &mut Vec<Source<'m>>,
    outside: u32,
    inside: &[u32],
    line: u32,
    tunnel: &'m Tunnel,
) -> Result<(), AllocError>
    ensures { OnOk result (map seen sources.new.items ≡ map seen sources.old.items ++ border_sources outside inside.now line tunnel.now) }
{
    match tunnel {
        Tunnel::Tunnel { inner, .. } | Tunnel::Index { inner, .. } | Tunnel::Carry { inner, .. } =>
            push_each(sources, inside, line, 2, inner),
        Tunnel::Register { inner, last, .. } | Tunnel::Kept { inner, last, .. } => {
            push_each(sources, inside, line, 2, inner)?;
            push(sources, outside, line, 4, last)
        }
        Tunnel::Last { outer, .. } | Tunnel::Gather { outer, .. } => {
            push(sources, outside, line, 2, outer)
        }
        Tunnel::Result { outer, .. } => push(sources, outside, line, 1, outer),
        Tunnel::Ref {
            inner,
            same,
            code,
            ..
        } => {
            push_each(sources, inside, line, 2, inner)?;
            push(sources, outside, line, 4, same)?;
            push(sources, outside, line, 5, code)
        }
        Tunnel::Element { inner, outer, .. } => {
            push_each(sources, inside, line, 3, inner)?;
            push(sources, outside, line, 5, outer)
        }
        Tunnel::Field { inner, outer, .. } => {
            push_each(sources, inside, line, 2, inner)?;
            push(sources, outside, line, 4, outer)
        }
    }
}

/// The sources of border lines, from a line on.
fn push_border<'m>(
    sources: &mut Vec<Source<'m>>,
    outside: u32,
    inside: &[u32],
    first: u32,
    lines: &'m [Tunnel],
) -> Result<(), AllocError>
    ensures { OnOk result (map seen sources.new.items ≡ map seen sources.old.items ++ border_all outside inside.now first lines.now) }
{
    let mut line = first;
    for tunnel in lines {
        push_tunnel(sources, outside, inside, line, tunnel)?;
        line = next(line)?;
    }
    Ok(())
}

fn push_parts<'m>(
    sources: &mut Vec<Source<'m>>,
    outside: u32,
    parts: &[Part<'m>],
) -> Result<(), AllocError>
    ensures { OnOk result (map seen sources.new.items ≡ map seen sources.old.items ++ parts_sources outside (map node.seen_part parts.now)) }
{
    for part in parts {
        push_border(sources, outside, &[part.body], next(part.body)?, part.lines)?;
    }
    Ok(())
}

/// The diagrams of the branches of a case.
fn bodies_of(alloc: Global, arms: &[Arm<'_>]) -> Result<Vec<u32>, AllocError>
    ensures { IfOk result (λ bodies. bodies.items ≡ map (λ a. a.body) (map node.seen_arm arms.now)) }
{
    let mut bodies = Vec::with_capacity(alloc, arms.len())?;
    for arm in arms {
        bodies.push(arm.body)?;
    }
    Ok(bodies)
}

fn push_case<'m>(
    alloc: Global,
    sources: &mut Vec<Source<'m>>,
    entry: &Entry<'m>,
    lines: &'m [Tunnel],
    arms: &[Arm<'m>],
) -> Result<(), AllocError>
    ensures { OnOk result (map seen sources.new.items ≡ map seen sources.old.items ++ border_all entry.now.diagram (map (λ a. a.body) (map node.seen_arm arms.now)) (entry.now.line + 1) lines.now) }
{
    let bodies = bodies_of(alloc, arms)?;
    push_border(
        sources,
        entry.diagram,
        bodies.as_slice(),
        next(entry.line)?,
        lines,
    )
}

/// The operand of a loop's iteration, after those that its form has.
fn iteration_operand(count: Option<&Wire>, stop: Option<&Wire>) -> u32
    ensures { result ≡ count_wired (option_map (λ w. w.now) count.entry) + count_wired (option_map (λ w. w.now) stop.entry) + 1 }
{
    match (count, stop) {
        (None, None) => 1,
        (Some(_), None) | (None, Some(_)) => 2,
        (Some(_), Some(_)) => 3,
    }
}

/// The sources of the lines of a node.
fn push_entry<'m>(
    alloc: Global,
    sources: &mut Vec<Source<'m>>,
    entry: &Entry<'m>,
) -> Result<(), AllocError>
    ensures { OnOk result (map seen sources.new.items ≡ map seen sources.old.items ++ kind_sources (node.seen entry.now) (node.seen_kind entry.now.kind)) }
{
    let diagram = entry.diagram;
    let line = entry.line;
    match &entry.kind {
        Kind::Const { out, .. } | Kind::Obtain { out, .. } | Kind::Read { out, .. } => {
            push(sources, diagram, line, 1, *out)
        }
        Kind::Apply {
            inputs,
            outputs,
            ..
        }
        | Kind::Shared {
            inputs,
            outputs,
            ..
        }
        | Kind::Call {
            inputs,
            outputs,
            ..
        } => push_outputs(sources, diagram, line, inputs.len(), *outputs),
        Kind::Shows { .. } | Kind::Write { .. } => Ok(()),
        Kind::Loop {
            count,
            stop,
            iteration,
            lines,
            body,
        } => {
            push(
                sources,
                *body,
                line,
                iteration_operand(*count, *stop),
                *iteration,
            )?;
            push_border(sources, diagram, &[*body], next(line)?, *lines)
        }
        Kind::Case { lines, arms, .. } => push_case(alloc, sources, entry, *lines, arms.as_slice()),
        Kind::Sequence { parts } => push_parts(sources, diagram, parts.as_slice()),
        Kind::InPlace { lines, body, .. } => {
            push_border(sources, diagram, &[*body], next(line)?, *lines)
        }
    }
}

fn push_entries<'m>(
    alloc: Global,
    sources: &mut Vec<Source<'m>>,
    entries: &[Entry<'m>],
) -> Result<(), AllocError>
    ensures { OnOk result (map seen sources.new.items ≡ map seen sources.old.items ++ nodes_sources (map node.seen entries.now)) }
{
    for entry in entries {
        push_entry(alloc, sources, entry)?;
    }
    Ok(())
}

fn push_panel<'m>(sources: &mut Vec<Source<'m>>, panel: &'m [PanelItem]) -> Result<(), AllocError>
    ensures { OnOk result (map seen sources.new.items ≡ map seen sources.old.items ++ panel_sources 1 panel.now) }
{
    let mut line = 1;
    for item in panel {
        if let PanelItem::Control { out, .. } = item {
            push(sources, 0, line, 1, out)?;
        }
        line = next(line)?;
    }
    Ok(())
}

/// The sources of a VI with these nodes. Only want of memory refuses it, as which a line or an operand with
/// a number of 2^32 or more is told too.
pub fn sources_of<'m>(
    alloc: Global,
    vi: &'m Vi,
    entries: &[Entry<'m>],
) -> Result<Vec<Source<'m>>, AllocError>
    ensures { IfOk result (λ sources. map seen sources.items ≡ spec.sources_of vi.now.panel (map node.seen entries.now)) }
{
    let mut sources = Vec::new(alloc);
    push_panel(&mut sources, vi.panel.as_slice())?;
    push_entries(alloc, &mut sources, entries)?;
    Ok(sources)
}
