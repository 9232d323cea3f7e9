//! Which nodes read which sources of a diagram.

use crate::uses::taken;
use g_diagram::Wire;
use g_diagram_table::Entry;
use g_vi_tables::ViTable;
use g_wire_values::SourceNames;
use std::alloc::{AllocError, Global};

/// The lines of the nodes that read each source, in the order of the sources.
pub(crate) type Readers = Vec<Vec<u32>>;

/// The number of the source of a wire in its diagram.
pub(crate) fn number_on(names: &SourceNames<'_>, wire: &Wire) -> Option<usize> {
    match wire {
        Some(name) => names.find(name.as_slice()),
        None => None,
    }
}

fn add_line(readers: &mut Readers, number: Option<usize>, line: u32) -> Result<(), AllocError> {
    let Some(number) = number else {
        return Ok(());
    };
    if let Some(lines) = readers.get_mut(number) {
        lines.push(line)?;
    }
    Ok(())
}

fn add_node(
    alloc: Global,
    readers: &mut Readers,
    names: &SourceNames<'_>,
    entry: &Entry<'_>,
) -> Result<(), AllocError> {
    let wires = taken(alloc, entry)?;
    for wire in wires.as_slice() {
        add_line(readers, number_on(names, *wire), entry.line)?;
    }
    Ok(())
}

fn no_readers(alloc: Global, count: usize) -> Result<Readers, AllocError> {
    let mut readers: Readers = Vec::new(alloc);
    for _ in 0..count {
        readers.push(Vec::new(alloc))?;
    }
    Ok(readers)
}

/// The readers of the sources of a diagram.
pub(crate) fn readers_of(
    alloc: Global,
    table: &ViTable<'_>,
    diagram: u32,
) -> Result<Readers, AllocError> {
    let mut readers = no_readers(alloc, table.sources(diagram).len())?;
    let Some(names) = table.names(diagram) else {
        return Ok(readers);
    };
    for entry in table.entries(diagram) {
        add_node(alloc, &mut readers, names, entry)?;
    }
    Ok(readers)
}
