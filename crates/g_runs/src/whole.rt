//! A run until nothing can fire.

ghost use Rattle.std.specs.Prelude.{◌≡◌, true, IfOk};
ghost use Rattle.g_frames.specs.Fire.{can_fire};
ghost use Rattle.g_frames.specs.Program.{Program};
ghost use Rattle.g_frames.specs.Run as spec;
ghost use Rattle.g_program.specs.Tables.{IsTableOf};
ghost use Rattle.g_runs.specs.Needs.{Lasts, RunNeeds};
ghost use Rattle.g_runs.specs.Runs.{Goes, HasRun};

use crate::agenda::{Agenda, find_hinted};
use crate::scan::find;
use g_firing::fire;
use g_frames::{End, Firing, Trace};
use g_program::ProgramTables;
use g_run_ends::end_of;
use g_start::start;
use g_states::FireState;
use g_values::ValueList;
use std::alloc::{AllocError, Global};

/// A run: its firings, the state that it came to, and how it stands there.
#[derive(Drop)]
pub struct Ran {
    pub trace: Trace,
    pub state: FireState,
    pub end: End,
}

/// Does a firing that can be done.
fn go(
    alloc: Global,
    state: &mut FireState,
    tables: &ProgramTables<'_>,
    agenda: &mut Agenda,
    firing: Firing,
) -> Result<Option<Firing>, AllocError>
    requires { (p : Program) × (IsTableOf p tables.now × Lasts p state.old) }
    ensures { IfOk result (λ fired. (p : Program) → IsTableOf p tables.now → can_fire p state.old firing ≡ true → Goes p state.old fired state.new) }
{
    let frames = state.frames().len();
    let _is_fired = fire(alloc, state, tables, firing)?;
    agenda.note(alloc, state, tables, firing, frames)?;
    Ok(Some(firing))
}

/// Fires one node, if any can fire: one that the agenda hints at, where there is one.
fn next(
    alloc: Global,
    state: &mut FireState,
    tables: &ProgramTables<'_>,
    agenda: &mut Agenda,
) -> Result<Option<Firing>, AllocError>
    requires { (p : Program) × (IsTableOf p tables.now × Lasts p state.old) }
    ensures { IfOk result (λ fired. (p : Program) → IsTableOf p tables.now → Goes p state.old fired state.new) }
{
    let has_room = state.has_room();
    if let Some(firing) = find_hinted(alloc, state, tables, has_room, agenda)? {
        return go(alloc, state, tables, agenda, firing);
    }
    match find(alloc, state, tables, has_room)? {
        Some(firing) => go(alloc, state, tables, agenda, firing),
        None => Ok(None),
    }
}

/// The run that came to a state in which nothing can fire.
fn ended(
    alloc: Global,
    tables: &ProgramTables<'_>,
    trace: Vec<Firing>,
    state: FireState,
) -> Result<Ran, AllocError>
    requires { (p : Program) × (IsTableOf p tables.now × Lasts p state) }
    ensures { IfOk result (λ ran. (ran.trace ≡ trace.items) × ((ran.state ≡ state) × ((p : Program) → IsTableOf p tables.now → ran.end ≡ spec.end_of p state))) }
{
    let end = end_of(alloc, tables, &state)?;
    let trace = Trace::from_vec(trace);
    Ok(Ran { trace, state, end })
}

/// Runs the program of these tables, with values for the controls of the VI that runs and a limit on how many
/// iterations all loops together may begin, until nothing can fire. Only want of memory refuses it.
pub fn run(
    alloc: Global,
    tables: &ProgramTables<'_>,
    controls: ValueList,
    limit: u32,
) -> Result<Ran, AllocError>
    requires { (p : Program) × (IsTableOf p tables.now × RunNeeds p controls limit) }
    ensures { IfOk result (λ ran. (p : Program) → IsTableOf p tables.now → HasRun p controls limit ran.trace ran.state ran.end) }
{
    let mut state = start(alloc, tables, controls, limit)?;
    let mut agenda = Agenda::new(alloc, &state, tables)?;
    let mut trace = Vec::new(alloc);
    for _ in 0..u64::MAX {
        match next(alloc, &mut state, tables, &mut agenda)? {
            Some(firing) => trace.push(firing)?,
            None => return ended(alloc, tables, trace, state),
        }
    }
    unreachable!()
}
