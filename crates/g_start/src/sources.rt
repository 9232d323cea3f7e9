//! The sources of each diagram of which frames may open.

ghost use Rattle.std.specs.Prelude.{◌≡◌, ◌==◌, ◌∷◌, ◌++◌, [], ℕ, map, if◌then◌else◌, IfOk, OnOk};
ghost use Rattle.std.specs.List.{list_any};
ghost use Rattle.g_diagram_table.specs.Seen.{seen, seen_arm, seen_kind, seen_part};
ghost use Rattle.g_frames.specs.Program.{FlatVi, Program, all_on};
ghost use Rattle.g_frames.specs.State as state;
ghost use Rattle.g_frames.specs.State.{opened_by, sources_in, vi_sources};
ghost use Rattle.g_program.specs.Queues.{is_in};
ghost use Rattle.g_program.specs.Tables.{IsTableOf};
ghost use Rattle.g_vi_tables.specs.Tables.{IsViTable};

use crate::count::next;
use g_diagram_table::{Arm, Entry, Kind, Part};
use g_frames::DiagramSources;
use g_hier::Space;
use g_lists::List;
use g_program::ProgramTables;
use g_vi_tables::ViTable;
use std::alloc::{AllocError, Global};
use std::collections::BTreeSet;

/// The VIs that have data spaces.
fn vis_with_spaces(alloc: Global, spaces: &[Space]) -> Result<BTreeSet<u32>, AllocError>
    ensures { IfOk result (λ vis. (v : ℕ) → is_in vis v ≡ list_any (λ s. s.vi == v) spaces.now) }
{
    let mut vis = BTreeSet::new(alloc);
    for space in spaces {
        let _is_new = vis.insert(space.vi)?;
    }
    Ok(vis)
}

fn push_arms(diagrams: &mut Vec<u32>, arms: &[Arm<'_>]) -> Result<(), AllocError>
    ensures { OnOk result (diagrams.new.items ≡ diagrams.old.items ++ map (λ a. a.body) (map seen_arm arms.now)) }
{
    for arm in arms {
        diagrams.push(arm.body)?;
    }
    Ok(())
}

fn push_parts(diagrams: &mut Vec<u32>, parts: &[Part<'_>]) -> Result<(), AllocError>
    ensures { OnOk result (diagrams.new.items ≡ diagrams.old.items ++ map (λ p. p.body) (map seen_part parts.now)) }
{
    for part in parts {
        diagrams.push(part.body)?;
    }
    Ok(())
}

/// Adds the diagrams of which a node opens frames.
fn push_opened(diagrams: &mut Vec<u32>, kind: &Kind<'_>) -> Result<(), AllocError>
    ensures { OnOk result (diagrams.new.items ≡ diagrams.old.items ++ opened_by (seen_kind kind.now)) }
{
    match kind {
        Kind::Loop { body, .. } => {
            diagrams.push(*body)?;
            Ok(())
        }
        Kind::Case { arms, .. } => push_arms(diagrams, arms.as_slice()),
        Kind::Sequence { parts } => push_parts(diagrams, parts.as_slice()),
        Kind::Const { .. }
        | Kind::Apply { .. }
        | Kind::Shows { .. }
        | Kind::Shared { .. }
        | Kind::Obtain { .. }
        | Kind::Read { .. }
        | Kind::Write { .. }
        | Kind::Call { .. }
        | Kind::InPlace { .. } => Ok(()),
    }
}

/// Adds the diagrams of which some nodes open frames.
fn push_all_opened(diagrams: &mut Vec<u32>, entries: &[Entry<'_>]) -> Result<(), AllocError>
    ensures { OnOk result (diagrams.new.items ≡ diagrams.old.items ++ all_on (λ e. opened_by e.kind) (map seen entries.now)) }
{
    for entry in entries {
        push_opened(diagrams, &entry.kind)?;
    }
    Ok(())
}

/// The diagrams of a VI of which frames may open: its own, and those that its nodes open.
fn diagrams_with_frames(alloc: Global, table: &ViTable<'_>) -> Result<Vec<u32>, AllocError>
    ensures { IfOk result (λ diagrams. (vi : FlatVi) → IsViTable vi table.now → diagrams.items ≡ state.diagrams_with_frames vi) }
{
    let mut diagrams = Vec::new(alloc);
    diagrams.push(0)?;
    push_all_opened(&mut diagrams, table.all_entries())?;
    Ok(diagrams)
}

/// The sources of a diagram.
fn diagram_sources(
    alloc: Global,
    number: u32,
    table: &ViTable<'_>,
    diagram: u32,
) -> Result<DiagramSources, AllocError>
    ensures { IfOk result (λ sources. (vi : FlatVi) → IsViTable vi table.now → sources ≡ record { vi = number; diagram = diagram; sources = sources_in diagram vi.ports }) }
{
    Ok(DiagramSources {
        vi: number,
        diagram,
        sources: List::from_slice(alloc, table.sources(diagram))?,
    })
}

/// Adds the sources of each diagram of a VI of which frames may open.
fn push_vi_sources(
    alloc: Global,
    sources: &mut Vec<DiagramSources>,
    number: u32,
    table: &ViTable<'_>,
) -> Result<(), AllocError>
    ensures { OnOk result ((vi : FlatVi) → IsViTable vi table.now → sources.new.items ≡ sources.old.items ++ vi_sources number vi) }
{
    let diagrams = diagrams_with_frames(alloc, table)?;
    for diagram in diagrams.as_slice() {
        sources.push(diagram_sources(alloc, number, table, *diagram)?)?;
    }
    Ok(())
}

/// Adds the sources of a VI, where it has a data space.
fn push_vi(
    alloc: Global,
    sources: &mut Vec<DiagramSources>,
    used: &BTreeSet<u32>,
    number: u32,
    table: &ViTable<'_>,
) -> Result<(), AllocError>
    ensures { OnOk result ((vi : FlatVi) → IsViTable vi table.now → sources.new.items ≡ sources.old.items ++ (if is_in used.now number then vi_sources number vi else [])) }
{
    if !used.contains(&number) {
        return Ok(());
    }
    push_vi_sources(alloc, sources, number, table)
}

/// The sources of each diagram of which frames may open, of the VIs that have data spaces.
pub fn all_sources(
    alloc: Global,
    tables: &ProgramTables<'_>,
) -> Result<Vec<DiagramSources>, AllocError>
    ensures { IfOk result (λ sources. (p : Program) → IsTableOf p tables.now → sources.items ≡ state.all_sources p 0 p.vis) }
{
    let used = vis_with_spaces(alloc, tables.spaces())?;
    let vis = tables.vis();
    let mut sources = Vec::new(alloc);
    let mut number = 0;
    for table in vis {
        push_vi(alloc, &mut sources, &used, number, table)?;
        number = next(number)?;
    }
    Ok(sources)
}
