//! Building the look-ups of a VI.

ghost use Rattle.std.specs.Prelude.{IfOk, List as TheList};
ghost use Rattle.g_diagram.specs.declared.hierarchy.Vi.{Vi as TheVi};
ghost use Rattle.g_frames.specs.Program.{flat_vi};
ghost use Rattle.g_vi_tables.specs.Tables.{IsViTable};
ghost use Rattle.g_vi_tables.specs.Types.{types_of};

use crate::panel::{cells_of, objects_of};
use crate::sources::sources_of;
use crate::table::ViTable;
use crate::types::WireTypes;
use crate::{names, nodes, places};
use g_diagram::Vi;
use g_diagram_table::table::table;
use std::alloc::{AllocError, Global};

/// The look-ups of a VI whose wires have these types. Only want of memory refuses it, as which a line or an
/// operand with a number of 2^32 or more, which no place can name, is told too.
pub fn vi_table<'m>(
    alloc: Global,
    vi: &'m Vi,
    types: WireTypes<'m>,
) -> Result<ViTable<'m>, AllocError>
    ensures { IfOk result (λ table. (vis : TheList TheVi) → IsViTable (flat_vi vis (types_of types.entry) vi.now) table) }
{
    let entries = table(alloc, vi)?;
    let kept = nodes::by_diagram(alloc, table(alloc, vi)?)?;
    let found = sources_of(alloc, vi, entries.as_slice())?;
    let placed = places::by_diagram(alloc, found.as_slice())?;
    let panel = vi.panel.as_slice();
    let names = names::by_diagram(alloc, &placed.places, found.as_slice())?;
    Ok(ViTable {
        vi,
        entries,
        nodes: kept.nodes,
        node_places: kept.places,
        sources: placed.sources,
        source_places: placed.places,
        names,
        types,
        cells: cells_of(alloc, panel)?,
        objects: objects_of(alloc, panel)?,
    })
}
