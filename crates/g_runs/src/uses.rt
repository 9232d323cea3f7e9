//! The wires that a node takes and gives in its own diagram.

use g_diagram::{Tunnel, Wire};
use g_diagram_table::{Entry, Kind, Part};
use std::alloc::{AllocError, Global};

fn push_all<'m>(into: &mut Vec<&'m Wire>, wires: &'m [Wire]) -> Result<(), AllocError> {
    for wire in wires {
        into.push(wire)?;
    }
    Ok(())
}

/// The wires that a border line takes from outside.
fn push_taken<'m>(into: &mut Vec<&'m Wire>, line: &'m Tunnel) -> Result<(), AllocError> {
    match line {
        Tunnel::Tunnel { outer, .. } => into.push(outer)?,
        Tunnel::Register { initial, .. } => into.push(initial)?,
        Tunnel::Index { array, .. } => into.push(array)?,
        Tunnel::Ref { reference, .. } => into.push(reference)?,
        Tunnel::Element { array, index, .. } => {
            into.push(array)?;
            into.push(index)?;
        }
        Tunnel::Field { cluster, .. } => into.push(cluster)?,
        Tunnel::Kept { .. }
        | Tunnel::Last { .. }
        | Tunnel::Gather { .. }
        | Tunnel::Result { .. }
        | Tunnel::Carry { .. } => {}
    }
    Ok(())
}

fn push_all_taken<'m>(into: &mut Vec<&'m Wire>, lines: &'m [Tunnel]) -> Result<(), AllocError> {
    for line in lines {
        push_taken(into, line)?;
    }
    Ok(())
}

fn push_parts_taken<'m>(into: &mut Vec<&'m Wire>, parts: &[Part<'m>]) -> Result<(), AllocError> {
    for part in parts {
        push_all_taken(into, part.lines)?;
    }
    Ok(())
}

/// The wires that a first line, where it has one, and border lines take from outside.
fn push_structure<'m>(
    into: &mut Vec<&'m Wire>,
    first: Option<&'m Wire>,
    lines: &'m [Tunnel],
) -> Result<(), AllocError> {
    if let Some(wire) = first {
        into.push(wire)?;
    }
    push_all_taken(into, lines)
}

/// The wires that a node takes from its own diagram.
pub(crate) fn taken<'m>(alloc: Global, entry: &Entry<'m>) -> Result<Vec<&'m Wire>, AllocError> {
    let mut wires = Vec::new(alloc);
    match &entry.kind {
        Kind::Const { .. } | Kind::Obtain { .. } | Kind::Read { .. } => {}
        Kind::Apply { inputs, .. } | Kind::Shared { inputs, .. } | Kind::Call { inputs, .. } => {
            push_all(&mut wires, *inputs)?
        }
        Kind::Shows { input, .. } | Kind::Write { input, .. } => wires.push(*input)?,
        Kind::Loop { count, lines, .. } => push_structure(&mut wires, *count, *lines)?,
        Kind::Case {
            selector,
            lines,
            ..
        } => push_structure(&mut wires, Some(*selector), *lines)?,
        Kind::Sequence { parts } => push_parts_taken(&mut wires, parts.as_slice())?,
        Kind::InPlace { lines, .. } => push_all_taken(&mut wires, *lines)?,
    }
    Ok(wires)
}

/// The wires that a border line gives outside.
fn push_given<'m>(into: &mut Vec<&'m Wire>, line: &'m Tunnel) -> Result<(), AllocError> {
    match line {
        Tunnel::Register { last, .. } | Tunnel::Kept { last, .. } => into.push(last)?,
        Tunnel::Last { outer, .. }
        | Tunnel::Gather { outer, .. }
        | Tunnel::Result { outer, .. }
        | Tunnel::Element { outer, .. }
        | Tunnel::Field { outer, .. } => into.push(outer)?,
        Tunnel::Ref { same, code, .. } => {
            into.push(same)?;
            into.push(code)?;
        }
        Tunnel::Tunnel { .. } | Tunnel::Index { .. } | Tunnel::Carry { .. } => {}
    }
    Ok(())
}

fn push_all_given<'m>(into: &mut Vec<&'m Wire>, lines: &'m [Tunnel]) -> Result<(), AllocError> {
    for line in lines {
        push_given(into, line)?;
    }
    Ok(())
}

fn push_parts_given<'m>(into: &mut Vec<&'m Wire>, parts: &[Part<'m>]) -> Result<(), AllocError> {
    for part in parts {
        push_all_given(into, part.lines)?;
    }
    Ok(())
}

/// The wires that a node gives in its own diagram.
pub(crate) fn given<'m>(alloc: Global, entry: &Entry<'m>) -> Result<Vec<&'m Wire>, AllocError> {
    let mut wires = Vec::new(alloc);
    match &entry.kind {
        Kind::Const { out, .. } | Kind::Obtain { out, .. } | Kind::Read { out, .. } => {
            wires.push(*out)?
        }
        Kind::Apply { outputs, .. } | Kind::Shared { outputs, .. } | Kind::Call { outputs, .. } =>
            push_all(&mut wires, *outputs)?,
        Kind::Shows { .. } | Kind::Write { .. } => {}
        Kind::Loop { lines, .. } | Kind::Case { lines, .. } | Kind::InPlace { lines, .. } => {
            push_all_given(&mut wires, *lines)?
        }
        Kind::Sequence { parts } => push_parts_given(&mut wires, parts.as_slice())?,
    }
    Ok(wires)
}
