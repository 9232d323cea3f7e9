//! The pools of clones with which a run begins.

ghost use Rattle.std.specs.Prelude.{◌≡◌, ◌≤◌, ◌∷◌, ◌++◌, [], OnOk};
ghost use Rattle.std.specs.Option.{option_map_or};
ghost use Rattle.g_shared.specs.Pools.{new_pool};
ghost use Rattle.g_frames.specs.Contents as content;
ghost use Rattle.g_frames.specs.Program.{Program, vi_at};
ghost use Rattle.g_frames.specs.State.{clone_count, first_pools};
ghost use Rattle.g_program.specs.Tables.{IsTableOf};
ghost use Rattle.g_needs.specs.Starts.{StartNeeds};

use g_diagram::Clones;
use g_objects::Object;
use g_pools::Pool;
use g_program::ProgramTables;
use std::alloc::AllocError;

fn count_of(clones: Clones) -> u8
    ensures { result ≡ clone_count clones }
{
    match clones {
        Clones::NonReentrant | Clones::Preallocated => 1,
        Clones::Pool(count) => count,
    }
}

/// How many clones a VI has, and 0 where there is no such VI.
fn clones_of(tables: &ProgramTables<'_>, vi: u32) -> u8
    ensures { (p : Program) → IsTableOf p tables.now → result ≡ option_map_or (λ vi. clone_count vi.clones) (vi_at p vi) 0 }
{
    match tables.vi(vi) {
        Some(table) => count_of(table.clones()),
        None => 0,
    }
}

fn push_pool(objects: &mut Vec<Object>, clones: u8) -> Result<(), AllocError>
    requires { (1 ≤ clones) × (clones ≤ 64) }
    ensures { OnOk result (objects.new.items ≡ objects.old.items ++ content.Pool (new_pool clones) ∷ []) }
{
    objects.push(Object::of_pool(Pool::new(clones)))?;
    Ok(())
}

/// Adds the pools, all of whose clones are free.
pub fn push_pools(
    objects: &mut Vec<Object>,
    tables: &ProgramTables<'_>,
    pools: &[u32],
) -> Result<(), AllocError>
    requires { (p : Program) × ((IsTableOf p tables.now × StartNeeds p) × (pools.now ≡ p.pools)) }
    ensures { OnOk result ((p : Program) → IsTableOf p tables.now → objects.new.items ≡ objects.old.items ++ first_pools p pools.now) }
{
    for vi in pools {
        push_pool(objects, clones_of(tables, *vi))?;
    }
    Ok(())
}
