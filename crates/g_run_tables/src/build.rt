//! Building the look-ups of a program.

ghost use Rattle.std.specs.Prelude.{◌≡◌, ℕ, List as TheList, slice_get, IfOk};
ghost use Rattle.std.specs.Option.{option_copied};
ghost use Rattle.g_diagram.specs.declared.hierarchy.Vi.{Vi as TheVi};
ghost use Rattle.g_frames.specs.Program.{Program, IsProgram, flat_vi, flat_vis};
ghost use Rattle.g_hier.specs.LinkOrder.{IsLinked};
ghost use Rattle.g_hier.specs.Outlines.{outlines_of};
ghost use Rattle.g_infer.specs.Answer.{IsTyped};
ghost use Rattle.g_program.specs.Tables.{AreAllTables, IsTableOf};
ghost use Rattle.g_vi_tables.specs.Tables.{IsViTable};
ghost use Rattle.g_run_tables.specs.Types.{types_by};

use crate::types::known_types;
use g_diagram::{Hierarchy, Vi};
use g_hier::Linked;
use g_infer::{Typed, ViTypes};
use g_program::ProgramTables;
use g_program::build::program_tables;
use g_vi_tables::ViTable;
use g_vi_tables::build::vi_table;
use std::alloc::{AllocError, Global};

/// What is told of the VI of a number, if anything is.
fn told_at(typed: &[ViTypes], number: usize) -> Option<&ViTypes>
    ensures { option_copied result ≡ slice_get typed.now number }
{
    typed.get(number)
}

/// The look-ups of the VI of a number.
fn numbered_table<'m>(
    alloc: Global,
    vi: &'m Vi,
    typed: &'m [ViTypes],
    number: usize,
) -> Result<ViTable<'m>, AllocError>
    ensures { IfOk result (λ table. (all : TheList TheVi) → IsViTable (flat_vi all (types_by typed.now number) vi.now) table) }
{
    let types = known_types(alloc, told_at(typed, number))?;
    vi_table(alloc, vi, types)
}

/// The look-ups of all VIs, in listing order.
fn all_tables<'m>(
    alloc: Global,
    vis: &'m [Vi],
    typed: &'m [ViTypes],
) -> Result<Vec<ViTable<'m>>, AllocError>
    ensures { IfOk result (λ tables. (all : TheList TheVi) → AreAllTables (flat_vis all (types_by typed.now) 0 vis.now) tables.items) }
{
    let mut tables = Vec::new(alloc);
    for number in 0..vis.len() {
        tables.push(numbered_table(alloc, &vis[number], typed, number)?)?;
    }
    Ok(tables)
}

/// The look-ups of the program that a hierarchy is, by the types of its wires and its links. Only want of
/// memory refuses it, as which numbers of 2^32 and more, of lines, operands, VIs, data spaces, shared
/// objects or kept registers, are told too.
pub fn run_tables<'m>(
    alloc: Global,
    h: &'m Hierarchy,
    typed: &'m Typed,
    linked: &'m Linked,
) -> Result<ProgramTables<'m>, AllocError>
    requires typed { IsTyped h.now typed.now }
    ensures program { IfOk result (λ tables. (main : ℕ) → IsLinked (outlines_of h.now) main linked.now → (p : Program) × (IsProgram h.now main p × IsTableOf p tables)) }
    ensures tables { IfOk result (λ tables. (main : ℕ) → IsLinked (outlines_of h.now) main linked.now → (p : Program) → IsProgram h.now main p → IsTableOf p tables) }
{
    let vis = all_tables(alloc, h.vis.as_slice(), typed.vis.as_slice())?;
    program_tables(alloc, h, linked, vis)
}
