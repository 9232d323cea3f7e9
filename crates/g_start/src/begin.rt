//! The start of a run.

ghost use Rattle.std.specs.Prelude.{◌≡◌, IfOk};
ghost use Rattle.g_frames.specs.Program.{Program};
ghost use Rattle.g_frames.specs.State as state;
ghost use Rattle.g_program.specs.Tables.{IsTableOf};
ghost use Rattle.g_needs.specs.Starts.{StartNeeds};

use crate::frame::first_frames;
use crate::kept::first_kept;
use crate::objects::first_objects;
use crate::sources::all_sources;
use g_program::ProgramTables;
use g_states::FireState;
use g_values::ValueList;
use std::alloc::{AllocError, Global};

/// The state in which a run of the program of these tables begins, with values for the controls of the VI that runs,
/// and a limit on how many iterations all loops together may begin. Only want of memory refuses it, as which 2^32 or
/// more VIs or shared objects are told too.
pub fn start(
    alloc: Global,
    tables: &ProgramTables<'_>,
    controls: ValueList,
    limit: u32,
) -> Result<FireState, AllocError>
    requires { (p : Program) × (IsTableOf p tables.now × StartNeeds p) }
    ensures { IfOk result (λ s. (p : Program) → IsTableOf p tables.now → s ≡ state.start p controls limit) }
{
    let frames = first_frames(alloc, tables, controls.as_slice())?;
    let objects = first_objects(alloc, tables, controls)?;
    let kept = first_kept(alloc, tables.kept())?;
    let sources = all_sources(alloc, tables)?;
    Ok(FireState::new(tables.main(), limit, frames, objects, kept, sources))
}
