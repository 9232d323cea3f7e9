//! Whether nodes have their inputs.

ghost use Rattle.std.specs.Prelude.{◌≡◌, map};
ghost use Rattle.std.specs.Option.{option_map};
ghost use Rattle.std.specs.List.{list_all};
ghost use Rattle.g_border.specs.Readers.{has_value};
ghost use Rattle.g_diagram_table.specs.Seen as node;
ghost use Rattle.g_frames.specs.Fire as fire;
ghost use Rattle.g_node_values.specs.Inputs.{border_has, borders_have, parts_have, structure_has, kind_has};
ghost use Rattle.g_wire_values.specs.Wires.{reader};

use g_diagram::{Tunnel, Wire};
use g_diagram_table::{Entry, Kind, Part};
use g_wire_values::Wires;

/// Whether all of these operands have values.
fn has_all(wires: &Wires<'_>, operands: &[Wire]) -> bool
    ensures { result ≡ list_all (has_value (reader wires.now)) operands.now }
{
    for wire in operands {
        if !wires.has(wire) {
            return false;
        }
    }
    true
}

/// Whether the operands that a border line takes from outside have values.
fn has_border(wires: &Wires<'_>, line: &Tunnel) -> bool
    ensures { result ≡ border_has (reader wires.now) line.now }
{
    match line {
        Tunnel::Tunnel { outer, .. } => wires.has(outer),
        Tunnel::Register { initial, .. } => wires.has(initial),
        Tunnel::Index { array, .. } => wires.has(array),
        Tunnel::Ref { reference, .. } => wires.has(reference),
        Tunnel::Element { array, index, .. } => {
            if !wires.has(array) {
                return false;
            }
            wires.has(index)
        }
        Tunnel::Field { cluster, .. } => wires.has(cluster),
        Tunnel::Kept { .. }
        | Tunnel::Last { .. }
        | Tunnel::Gather { .. }
        | Tunnel::Result { .. }
        | Tunnel::Carry { .. } => true,
    }
}

fn has_borders(wires: &Wires<'_>, lines: &[Tunnel]) -> bool
    ensures { result ≡ borders_have (reader wires.now) lines.now }
{
    for line in lines {
        if !has_border(wires, line) {
            return false;
        }
    }
    true
}

fn has_parts(wires: &Wires<'_>, parts: &[Part<'_>]) -> bool
    ensures { result ≡ parts_have (reader wires.now) (map node.seen_part parts.now) }
{
    for part in parts {
        if !has_borders(wires, part.lines) {
            return false;
        }
    }
    true
}

/// Whether the operands of a first line, where it has one, and those of the border lines have values.
fn has_structure(wires: &Wires<'_>, first: Option<&Wire>, lines: &[Tunnel]) -> bool
    ensures { result ≡ structure_has (reader wires.now) (option_map (λ w. w.now) first.entry) lines.now }
{
    match first {
        Some(wire) => {
            if !wires.has(wire) {
                return false;
            }
            has_borders(wires, lines)
        }
        None => has_borders(wires, lines),
    }
}

/// Whether the operands that a node of a kind takes from its own diagram have values.
fn has_kind(wires: &Wires<'_>, kind: &Kind<'_>) -> bool
    ensures { result ≡ kind_has (reader wires.now) (node.seen_kind kind.now) }
{
    match kind {
        Kind::Const { .. } | Kind::Obtain { .. } | Kind::Read { .. } => true,
        Kind::Apply { inputs, .. } | Kind::Shared { inputs, .. } | Kind::Call { inputs, .. } => {
            has_all(wires, *inputs)
        }
        Kind::Shows { input, .. } | Kind::Write { input, .. } => wires.has(*input),
        Kind::Loop { count, lines, .. } => has_structure(wires, *count, *lines),
        Kind::Case {
            selector,
            lines,
            ..
        } => has_structure(wires, Some(*selector), *lines),
        Kind::Sequence { parts } => has_parts(wires, parts.as_slice()),
        Kind::InPlace { lines, .. } => has_borders(wires, *lines),
    }
}

/// Whether all wired operands that a node takes from its own diagram have values, on all lines of a
/// structure.
pub fn has_inputs(wires: &Wires<'_>, entry: &Entry<'_>) -> bool
    ensures { result ≡ fire.has_inputs (reader wires.now) (node.seen entry.now) }
{
    has_kind(wires, &entry.kind)
}
