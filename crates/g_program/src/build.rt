//! Building the look-ups of a program.

ghost use Rattle.std.specs.Prelude.{◌≡◌, ℕ, map, IfOk};
ghost use Rattle.g_typing.specs.Types.{Types};
ghost use Rattle.g_frames.specs.Program.{flat_vis, program};
ghost use Rattle.g_program.specs.Tables.{AreAllTables, IsTableOf};

use crate::cells::cells_of;
use crate::kept::kept_of;
use crate::numbers::Numbers;
use crate::pools::pools_of;
use crate::queues::{names_of, owned, queues_of, vis_among};
use crate::table::ProgramTables;
use crate::{cells, kept};
use g_diagram::{Hierarchy, Vi};
use g_hier::Linked;
use g_vi_tables::{NameNumbers, ViTable};
use std::alloc::{AllocError, Global};

/// The names of VIs.
fn vi_names<'m>(alloc: Global, vis: &'m [Vi]) -> Result<Vec<&'m [u8]>, AllocError>
    ensures { IfOk result (λ names. map (λ n. n.now) names.items ≡ map (λ vi. vi.name) vis.now) }
{
    let mut names = Vec::new(alloc);
    for vi in vis {
        names.push(vi.name.as_slice())?;
    }
    Ok(names)
}

/// The look-ups of a program by the tables of its VIs. Only want of memory refuses it, as which 2^32 or more
/// VIs, data spaces, shared objects or kept registers are told too.
pub fn program_tables<'m>(
    alloc: Global,
    h: &'m Hierarchy,
    linked: &'m Linked,
    vis: Vec<ViTable<'m>>,
) -> Result<ProgramTables<'m>, AllocError>
    ensures { IfOk result (λ tables. (types : ℕ → Types) → AreAllTables (flat_vis h.now.vis types 0 h.now.vis) vis.entry.items → IsTableOf (program h.now types linked.now) tables) }
{
    let spaces = linked.spaces.as_slice();
    let names = vi_names(alloc, h.vis.as_slice())?;
    let reached = vis_among(alloc, linked.order.as_slice())?;
    let lines = queues_of(alloc, &reached, vis.as_slice())?;
    let queue_names = names_of(alloc, lines.as_slice())?;
    let cells = cells_of(alloc, vis.as_slice(), spaces)?;
    let cell_lines = cells::lines_of(alloc, cells.as_slice())?;
    let kept = kept_of(alloc, vis.as_slice(), spaces)?;
    let kept_lines = kept::lines_of(alloc, kept.as_slice())?;
    let pools = pools_of(alloc, &reached, linked.main, vis.as_slice())?;
    let pool_numbers = Numbers::of(alloc, pools.as_slice())?;
    Ok(ProgramTables {
        main: linked.main,
        vis,
        vi_numbers: NameNumbers::of(alloc, names.as_slice())?,
        spaces,
        space_numbers: Numbers::of(alloc, spaces)?,
        queues: owned(alloc, lines.as_slice())?,
        queue_numbers: NameNumbers::of(alloc, queue_names.as_slice())?,
        cells,
        cell_numbers: Numbers::of(alloc, cell_lines.as_slice())?,
        kept,
        kept_numbers: Numbers::of(alloc, kept_lines.as_slice())?,
        pools,
        pool_numbers,
    })
}
