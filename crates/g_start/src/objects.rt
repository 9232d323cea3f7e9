//! The shared objects with which a run begins.

ghost use Rattle.std.specs.Prelude.{◌≡◌, IfOk};
ghost use Rattle.g_frames.specs.Program.{Program};
ghost use Rattle.g_frames.specs.State as state;
ghost use Rattle.g_program.specs.Tables.{IsTableOf};
ghost use Rattle.g_needs.specs.Starts.{StartNeeds};

use crate::cells::push_cells;
use crate::count::as_number;
use crate::panels::push_panels;
use crate::pools::push_pools;
use crate::queues::push_queues;
use g_objects::Object;
use g_program::ProgramTables;
use g_values::ValueList;
use std::alloc::{AllocError, Global};

/// The queues, the values that references name, the panels and the pools. The panel of the VI that runs has these
/// controls.
pub fn first_objects(
    alloc: Global,
    tables: &ProgramTables<'_>,
    controls: ValueList,
) -> Result<Vec<Object>, AllocError>
    requires { (p : Program) × (IsTableOf p tables.now × StartNeeds p) }
    ensures { IfOk result (λ objects. (p : Program) → IsTableOf p tables.now → objects.items ≡ state.first_objects p controls) }
{
    let mut objects = Vec::new(alloc);
    let queues = tables.queues();
    push_queues(alloc, &mut objects, queues)?;
    let first_cell = as_number(queues.len())?;
    push_cells(alloc, &mut objects, first_cell, tables.cells())?;
    push_panels(alloc, &mut objects, tables, controls)?;
    push_pools(&mut objects, tables, tables.pools())?;
    Ok(objects)
}
