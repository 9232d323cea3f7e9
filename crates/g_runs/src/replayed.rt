//! The replay of a trace.

ghost use Rattle.std.specs.Prelude.{IfOk};
ghost use Rattle.g_frames.specs.Program.{Program};
ghost use Rattle.g_program.specs.Tables.{IsTableOf};
ghost use Rattle.g_runs.specs.Needs.{RunNeeds};
ghost use Rattle.g_runs.specs.Replays.{Replays};

use g_firing::fire;
use g_frames::Firing;
use g_program::ProgramTables;
use g_start::start;
use g_states::FireState;
use g_values::ValueList;
use std::alloc::{AllocError, Global};

/// What a trace comes to.
#[derive(Drop)]
pub enum Replayed {
    /// Each firing can be done in its turn: the state after them.
    Legal(FireState),
    /// The place of the first firing that can't be done in its turn, from 0.
    Illegal(usize),
}

/// Replays a trace of the program of these tables, with values for the controls of the VI that runs and a limit on
/// how many iterations all loops together may begin. Only want of memory refuses it.
pub fn replay(
    alloc: Global,
    tables: &ProgramTables<'_>,
    controls: ValueList,
    limit: u32,
    trace: &[Firing],
) -> Result<Replayed, AllocError>
    requires { (p : Program) × (IsTableOf p tables.now × RunNeeds p controls limit) }
    ensures { IfOk result (λ replayed. (p : Program) → IsTableOf p tables.now → Replays p controls limit trace.now replayed) }
{
    let mut state = start(alloc, tables, controls, limit)?;
    for at in 0..trace.len() {
        if !fire(alloc, &mut state, tables, trace[at])? {
            return Ok(Replayed::Illegal(at));
        }
    }
    Ok(Replayed::Legal(state))
}
