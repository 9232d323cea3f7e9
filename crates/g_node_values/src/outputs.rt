//! The outputs of nodes.

ghost use Rattle.std.specs.Prelude.{◌≡◌, ◌+◌, ◌++◌, map, IfOk, OnOk};
ghost use Rattle.g_border.specs.Readers as readers;
ghost use Rattle.g_diagram.specs.Operands.{Outside};
ghost use Rattle.g_diagram_table.specs.Seen as node;
ghost use Rattle.g_node_values.specs.Outputs.{outputs_from, border_places, borders_places, parts_places, kind_places};

use crate::given::paired;
use crate::places::{next, push};
use g_border::WireSource;
use g_diagram::{Tunnel, Wire};
use g_diagram_table::{Entry, Kind, Part};
use g_lists::List;
use g_values::Value;
use std::alloc::{AllocError, Global};

/// The operand after so many.
fn operand_after(count: usize) -> Result<u32, AllocError>
    ensures { IfOk result (λ operand. operand ≡ count + 1) }
{
    match u32::try_from(count) {
        Ok(count) => next(count),
        Err(_) => Err(AllocError),
    }
}

/// The outputs of a node that has so many inputs.
fn push_outputs(
    places: &mut Vec<WireSource>,
    line: u32,
    inputs: usize,
    outputs: &[Wire],
) -> Result<(), AllocError>
    ensures { OnOk result (places.new.items ≡ places.old.items ++ outputs_from line (inputs + 1) outputs.now) }
{
    let mut operand = operand_after(inputs)?;
    for _wire in outputs {
        push(places, line, operand)?;
        operand = next(operand)?;
    }
    Ok(())
}

/// What a border line gives outside.
fn push_border(places: &mut Vec<WireSource>, line: u32, tunnel: &Tunnel) -> Result<(), AllocError>
    ensures { OnOk result (places.new.items ≡ places.old.items ++ border_places line tunnel.now) }
{
    match tunnel {
        Tunnel::Tunnel { .. } | Tunnel::Index { .. } | Tunnel::Carry { .. } => Ok(()),
        Tunnel::Register { .. } | Tunnel::Kept { .. } | Tunnel::Field { .. } => {
            push(places, line, 4)
        }
        Tunnel::Last { .. } | Tunnel::Gather { .. } => push(places, line, 2),
        Tunnel::Result { .. } => push(places, line, 1),
        Tunnel::Ref { .. } => {
            push(places, line, 4)?;
            push(places, line, 5)
        }
        Tunnel::Element { .. } => push(places, line, 5),
    }
}

/// What border lines give outside, from a line on.
fn push_borders(
    places: &mut Vec<WireSource>,
    first: u32,
    lines: &[Tunnel],
) -> Result<(), AllocError>
    ensures { OnOk result (places.new.items ≡ places.old.items ++ borders_places first lines.now) }
{
    let mut line = first;
    for tunnel in lines {
        push_border(places, line, tunnel)?;
        line = next(line)?;
    }
    Ok(())
}

fn push_parts(places: &mut Vec<WireSource>, parts: &[Part<'_>]) -> Result<(), AllocError>
    ensures { OnOk result (places.new.items ≡ places.old.items ++ parts_places (map node.seen_part parts.now)) }
{
    for part in parts {
        push_borders(places, next(part.body)?, part.lines)?;
    }
    Ok(())
}

/// The places of a node's outputs, on all its lines.
fn push_places(places: &mut Vec<WireSource>, entry: &Entry<'_>) -> Result<(), AllocError>
    ensures { OnOk result (places.new.items ≡ places.old.items ++ kind_places (node.seen entry.now) (node.seen_kind entry.now.kind)) }
{
    let line = entry.line;
    match &entry.kind {
        Kind::Const { .. } | Kind::Obtain { .. } | Kind::Read { .. } => push(places, line, 1),
        Kind::Apply {
            inputs,
            outputs,
            ..
        }
        | Kind::Shared {
            inputs,
            outputs,
            ..
        }
        | Kind::Call {
            inputs,
            outputs,
            ..
        } => push_outputs(places, line, inputs.len(), *outputs),
        Kind::Shows { .. } | Kind::Write { .. } => Ok(()),
        Kind::Loop { lines, .. } | Kind::Case { lines, .. } | Kind::InPlace { lines, .. } => {
            push_borders(places, next(line)?, *lines)
        }
        Kind::Sequence { parts } => push_parts(places, parts.as_slice()),
    }
}

/// The places of a node's outputs, in order.
fn places_of(alloc: Global, entry: &Entry<'_>) -> Result<Vec<WireSource>, AllocError>
    ensures { IfOk result (λ places. places.items ≡ readers.lines_sources Outside (readers.node_lines (node.seen entry.now))) }
{
    let mut places = Vec::new(alloc);
    push_places(&mut places, entry)?;
    Ok(places)
}

/// The values of a node's outputs, in order, at their places. Only want of memory refuses it, as which a
/// line or an operand with a number of 2^32 or more is told too.
pub fn outputs_given(
    alloc: Global,
    entry: &Entry<'_>,
    values: List<Value>,
) -> Result<List<(WireSource, Value)>, AllocError>
    ensures { IfOk result (λ given. given ≡ readers.outputs_given (node.seen entry.now) values) }
{
    let places = places_of(alloc, entry)?;
    paired(alloc, places.as_slice(), values)
}
