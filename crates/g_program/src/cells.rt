//! The values of references that a program has.

ghost use Rattle.std.specs.Prelude.{◌≡◌, ◌++◌, ℕ, List as TheList, map, [], slice_get, IfOk, OnOk};
ghost use Rattle.std.specs.Option.{option_copied, option_map_or};
ghost use Rattle.g_diagram_table.specs.Seen.{seen, seen_kind};
ghost use Rattle.g_frames.specs.Program.{FlatVi, all_on, cell_on, in_spaces};
ghost use Rattle.g_typing.specs.Types.{wire_at, wire_type};
ghost use Rattle.g_vi_tables.specs.Tables.{IsViTable};
ghost use Rattle.g_program.specs.Tables.{AreAllTables};

use crate::count::next;
use crate::table::table_at;
use g_diagram::{SharedOp, Wire};
use g_diagram_table::{Entry, Kind};
use g_frames::CellPlace;
use g_hier::Space;
use g_types::{Ty, copy};
use g_vi_tables::ViTable;
use std::alloc::{AllocError, Global};

/// The type of the wire at the first of some operands, where it is known.
fn first_type<'m>(table: &ViTable<'m>, diagram: u32, wires: &[Wire]) -> Option<&'m Ty>
    ensures { (vi : FlatVi) → IsViTable vi table.now → option_copied result ≡ wire_type vi.types diagram (wire_at wires.now 0) }
{
    match wires.first() {
        Some(Some(name)) => table.type_of(diagram, name.as_slice()),
        Some(None) | None => None,
    }
}

/// The reference that a node makes in a data space, if it makes one.
fn push_cell<'m>(
    alloc: Global,
    cells: &mut Vec<CellPlace>,
    table: &ViTable<'m>,
    space: u32,
    entry: &Entry<'m>,
) -> Result<(), AllocError>
    ensures { OnOk result ((vi : FlatVi) → IsViTable vi table.now → cells.new.items ≡ cells.old.items ++ cell_on vi.types space (seen entry.now) (seen_kind entry.now.kind)) }
{
    match &entry.kind {
        Kind::Shared {
            operation: SharedOp::NewRef,
            inputs,
            ..
        } => match first_type(table, entry.diagram, *inputs) {
            Some(ty) => {
                cells.push(CellPlace {
                    space,
                    line: entry.line,
                    content: copy(alloc, ty)?,
                })?;
                Ok(())
            }
            None => Ok(()),
        },
        Kind::Const { .. }
        | Kind::Apply { .. }
        | Kind::Shows { .. }
        | Kind::Shared { .. }
        | Kind::Obtain { .. }
        | Kind::Read { .. }
        | Kind::Write { .. }
        | Kind::Call { .. }
        | Kind::Loop { .. }
        | Kind::Case { .. }
        | Kind::Sequence { .. }
        | Kind::InPlace { .. } => Ok(()),
    }
}

fn push_vi_cells<'m>(
    alloc: Global,
    cells: &mut Vec<CellPlace>,
    table: &ViTable<'m>,
    space: u32,
) -> Result<(), AllocError>
    ensures { OnOk result ((vi : FlatVi) → IsViTable vi table.now → cells.new.items ≡ cells.old.items ++ all_on (λ e. cell_on vi.types space e e.kind) vi.entries) }
{
    let entries = table.all_entries();
    for entry in entries {
        push_cell(alloc, cells, table, space, entry)?;
    }
    Ok(())
}

fn push_space_cells<'m>(
    alloc: Global,
    cells: &mut Vec<CellPlace>,
    vis: &[ViTable<'m>],
    space: u32,
    vi: u32,
) -> Result<(), AllocError>
    ensures { OnOk result ((flat : TheList FlatVi) → AreAllTables flat vis.now → cells.new.items ≡ cells.old.items ++ option_map_or (λ f. all_on (λ e. cell_on f.types space e e.kind) f.entries) (slice_get flat vi) []) }
{
    match table_at(vis, vi as usize) {
        Some(table) => push_vi_cells(alloc, cells, table, space),
        None => Ok(()),
    }
}

/// The values of references, by data space and line.
pub fn cells_of<'m>(
    alloc: Global,
    vis: &[ViTable<'m>],
    spaces: &[Space],
) -> Result<Vec<CellPlace>, AllocError>
    ensures { IfOk result (λ cells. (flat : TheList FlatVi) → AreAllTables flat vis.now → cells.items ≡ in_spaces (λ space vi e. cell_on vi.types space e e.kind) flat 0 spaces.now) }
{
    let mut cells = Vec::new(alloc);
    let mut number = 0;
    for space in spaces {
        push_space_cells(alloc, &mut cells, vis, number, space.vi)?;
        number = next(number)?;
    }
    Ok(cells)
}

/// The data spaces and lines of values of references.
pub fn lines_of(alloc: Global, cells: &[CellPlace]) -> Result<Vec<(u32, u32)>, AllocError>
    ensures { IfOk result (λ lines. lines.items ≡ map (λ c. (c.space, c.line)) cells.now) }
{
    let mut lines = Vec::with_capacity(alloc, cells.len())?;
    for cell in cells {
        lines.push((cell.space, cell.line))?;
    }
    Ok(lines)
}
