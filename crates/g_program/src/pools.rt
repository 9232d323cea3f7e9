//! The pools of clones that a program has.

ghost use Rattle.std.specs.Prelude.{◌≡◌, ◌==◌, ◌&&◌, ◌++◌, ◌∷◌, [], List as TheList, not, if◌then◌else◌, IfOk, OnOk};
ghost use Rattle.g_frames.specs.Program.{FlatVi, takes_clone};
ghost use Rattle.g_program.specs.Pools.{pooled};
ghost use Rattle.g_program.specs.Queues.{is_in};
ghost use Rattle.g_program.specs.Tables.{AreAllTables};

use crate::count::next;
use g_diagram::Clones;
use g_vi_tables::ViTable;
use std::alloc::{AllocError, Global};
use std::collections::BTreeSet;

/// Whether calls of a VI take a clone.
fn is_taken(clones: Clones) -> bool
    ensures { result ≡ takes_clone clones }
{
    match clones {
        Clones::NonReentrant => true,
        Clones::Preallocated => false,
        Clones::Pool(_) => true,
    }
}

/// Adds a VI, where it is of a list and isn't the one that runs, and its calls take a clone.
fn push_vi(
    pools: &mut Vec<u32>,
    reached: &BTreeSet<u32>,
    main: u32,
    number: u32,
    clones: Clones,
) -> Result<(), AllocError>
    ensures { OnOk result (pools.new.items ≡ pools.old.items ++ (if is_in reached.now number && (not (number == main) && takes_clone clones) then number ∷ [] else [])) }
{
    if !reached.contains(&number) {
        return Ok(());
    }
    if number == main {
        return Ok(());
    }
    if is_taken(clones) {
        pools.push(number)?;
    }
    Ok(())
}

/// The VIs whose calls take a clone, of those of a list, in listing order.
pub fn pools_of<'m>(
    alloc: Global,
    reached: &BTreeSet<u32>,
    main: u32,
    vis: &[ViTable<'m>],
) -> Result<Vec<u32>, AllocError>
    ensures { IfOk result (λ pools. (flat : TheList FlatVi) → AreAllTables flat vis.now → pools.items ≡ pooled (is_in reached.now) main 0 flat) }
{
    let mut pools = Vec::new(alloc);
    let mut number = 0;
    for vi in vis {
        push_vi(&mut pools, reached, main, number, vi.clones())?;
        number = next(number)?;
    }
    Ok(pools)
}
