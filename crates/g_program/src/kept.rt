//! The kept registers that a program has.

ghost use Rattle.std.specs.Prelude.{◌≡◌, ◌+◌, ◌++◌, ℕ, List as TheList, map, [], slice_get, IfOk, OnOk};
ghost use Rattle.std.specs.Option.{option_map_or};
ghost use Rattle.g_border.specs.Loops.{kept_lines, kept_registers};
ghost use Rattle.g_diagram_table.specs.Seen.{seen, seen_kind};
ghost use Rattle.g_frames.specs.Program.{FlatVi, all_on, in_spaces, kept_on};
ghost use Rattle.g_program.specs.Kept.{kept_places};
ghost use Rattle.g_program.specs.Tables.{AreAllTables};
ghost use Rattle.g_vi_tables.specs.Tables.{IsViTable};

use crate::count::next;
use crate::table::table_at;
use g_diagram::Tunnel;
use g_diagram_table::{Entry, Kind};
use g_frames::KeptPlace;
use g_hier::Space;
use g_types::copy;
use g_vi_tables::ViTable;
use std::alloc::{AllocError, Global};

/// The kept register on a border line, if there is one.
fn push_tunnel(
    alloc: Global,
    kept: &mut Vec<KeptPlace>,
    space: u32,
    line: u32,
    tunnel: &Tunnel,
) -> Result<(), AllocError>
    ensures { OnOk result (kept.new.items ≡ kept.old.items ++ kept_places space (kept_lines line tunnel.now)) }
{
    match tunnel {
        Tunnel::Kept { ty, .. } => {
            kept.push(KeptPlace {
                space,
                line,
                content: copy(alloc, ty)?,
            })?;
            Ok(())
        }
        Tunnel::Tunnel { .. }
        | Tunnel::Register { .. }
        | Tunnel::Last { .. }
        | Tunnel::Gather { .. }
        | Tunnel::Index { .. }
        | Tunnel::Result { .. }
        | Tunnel::Carry { .. }
        | Tunnel::Ref { .. }
        | Tunnel::Element { .. }
        | Tunnel::Field { .. } => Ok(()),
    }
}

/// The kept registers on border lines, from a line on.
fn push_border(
    alloc: Global,
    kept: &mut Vec<KeptPlace>,
    space: u32,
    first: u32,
    lines: &[Tunnel],
) -> Result<(), AllocError>
    ensures { OnOk result (kept.new.items ≡ kept.old.items ++ kept_places space (kept_registers first lines.now)) }
{
    let mut line = first;
    for tunnel in lines {
        push_tunnel(alloc, kept, space, line, tunnel)?;
        line = next(line)?;
    }
    Ok(())
}

/// The kept registers of a node in a data space.
fn push_entry(
    alloc: Global,
    kept: &mut Vec<KeptPlace>,
    space: u32,
    entry: &Entry<'_>,
) -> Result<(), AllocError>
    ensures { OnOk result (kept.new.items ≡ kept.old.items ++ kept_on space (seen entry.now) (seen_kind entry.now.kind)) }
{
    match &entry.kind {
        Kind::Loop { lines, .. } => push_border(alloc, kept, space, next(entry.line)?, *lines),
        Kind::Const { .. }
        | Kind::Apply { .. }
        | Kind::Shows { .. }
        | Kind::Shared { .. }
        | Kind::Obtain { .. }
        | Kind::Read { .. }
        | Kind::Write { .. }
        | Kind::Call { .. }
        | Kind::Case { .. }
        | Kind::Sequence { .. }
        | Kind::InPlace { .. } => Ok(()),
    }
}

fn push_entries(
    alloc: Global,
    kept: &mut Vec<KeptPlace>,
    space: u32,
    entries: &[Entry<'_>],
) -> Result<(), AllocError>
    ensures { OnOk result (kept.new.items ≡ kept.old.items ++ all_on (λ e. kept_on space e e.kind) (map seen entries.now)) }
{
    for entry in entries {
        push_entry(alloc, kept, space, entry)?;
    }
    Ok(())
}

fn push_space<'m>(
    alloc: Global,
    kept: &mut Vec<KeptPlace>,
    vis: &[ViTable<'m>],
    space: u32,
    vi: u32,
) -> Result<(), AllocError>
    ensures { OnOk result ((flat : TheList FlatVi) → AreAllTables flat vis.now → kept.new.items ≡ kept.old.items ++ option_map_or (λ f. all_on (λ e. kept_on space e e.kind) f.entries) (slice_get flat vi) []) }
{
    match table_at(vis, vi as usize) {
        Some(table) => push_entries(alloc, kept, space, table.all_entries()),
        None => Ok(()),
    }
}

/// The kept registers, by data space and line.
pub fn kept_of<'m>(
    alloc: Global,
    vis: &[ViTable<'m>],
    spaces: &[Space],
) -> Result<Vec<KeptPlace>, AllocError>
    ensures { IfOk result (λ kept. (flat : TheList FlatVi) → AreAllTables flat vis.now → kept.items ≡ in_spaces (λ space vi e. kept_on space e e.kind) flat 0 spaces.now) }
{
    let mut kept = Vec::new(alloc);
    let mut number = 0;
    for space in spaces {
        push_space(alloc, &mut kept, vis, number, space.vi)?;
        number = next(number)?;
    }
    Ok(kept)
}

/// The data spaces and lines of kept registers.
pub fn lines_of(alloc: Global, kept: &[KeptPlace]) -> Result<Vec<(u32, u32)>, AllocError>
    ensures { IfOk result (λ lines. lines.items ≡ map (λ k. (k.space, k.line)) kept.now) }
{
    let mut lines = Vec::with_capacity(alloc, kept.len())?;
    for register in kept {
        lines.push((register.space, register.line))?;
    }
    Ok(lines)
}
