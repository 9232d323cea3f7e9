//! How a run ended.

ghost use Rattle.std.specs.Prelude.{◌≡◌, ℕ, map, nat_lt, if◌then◌else◌, IfOk};
ghost use Rattle.std.specs.List.{list_any};
ghost use Rattle.g_frames.specs.Program.{Program};
ghost use Rattle.g_frames.specs.Run as spec;
ghost use Rattle.g_frames.specs.Run.{all_nodes, is_at_rest, is_first_complete, with_room};
ghost use Rattle.g_frames.specs.declared.state.End.TheVariants as ends;
ghost use Rattle.g_needs.specs.Firings.{HasNeeds};
ghost use Rattle.g_program.specs.Tables.{IsTableOf};
ghost use Rattle.g_run_ends.specs.Verdicts.{judged};

use crate::scan::judge_all;
use crate::verdict::Verdict;
use g_frames::{End, Frame};
use g_here::is_complete;
use g_program::ProgramTables;
use g_states::FireState;
use std::alloc::{AllocError, Global};

/// Whether some node can fire.
fn some_goes(verdicts: &[Verdict]) -> bool
    ensures { result ≡ list_any (λ v. v.goes) verdicts.now }
{
    for verdict in verdicts {
        if verdict.goes {
            return true;
        }
    }
    false
}

/// Whether the first frame is there and complete.
fn is_first_complete(frames: &[Frame]) -> bool
    ensures { result ≡ is_first_complete frames.now }
{
    match frames.first() {
        Some(frame) => is_complete(frame),
        None => false,
    }
}

/// How a run ended whose last state is at rest.
fn end_at_rest(
    alloc: Global,
    tables: &ProgramTables<'_>,
    state: &FireState,
) -> Result<End, AllocError>
    requires { (p : Program) × (IsTableOf p tables.now × ((frame line : ℕ) → HasNeeds p state.now frame line)) }
    ensures { IfOk result (λ e. (p : Program) → IsTableOf p tables.now → e ≡ if is_first_complete state.now.frames then ends.Complete else (if is_at_rest p (with_room state.now) then ends.Stalled else ends.Spent)) }
{
    if is_first_complete(state.frames()) {
        return Ok(End::Complete);
    }
    let with_room = judge_all(alloc, state, tables, true)?;
    if some_goes(with_room.as_slice()) {
        return Ok(End::Spent);
    }
    Ok(End::Stalled)
}

/// How a run ended, by what a scan found of its last state.
pub(crate) fn end_by(
    alloc: Global,
    tables: &ProgramTables<'_>,
    state: &FireState,
    verdicts: &[Verdict],
) -> Result<End, AllocError>
    requires { (p : Program) × (IsTableOf p tables.now × ((frame line : ℕ) → HasNeeds p state.now frame line)) }
    ensures { IfOk result (λ e. (p : Program) → IsTableOf p tables.now → verdicts.now ≡ map (judged p (nat_lt state.now.begun state.now.limit) state.now) (all_nodes p state.now) → e ≡ spec.end_of p state.now) }
{
    if some_goes(verdicts) {
        return Ok(End::Unfinished);
    }
    end_at_rest(alloc, tables, state)
}

/// How a run ended that came to this state.
pub fn end_of(
    alloc: Global,
    tables: &ProgramTables<'_>,
    state: &FireState,
) -> Result<End, AllocError>
    requires { (p : Program) × (IsTableOf p tables.now × ((frame line : ℕ) → HasNeeds p state.now frame line)) }
    ensures { IfOk result (λ e. (p : Program) → IsTableOf p tables.now → e ≡ spec.end_of p state.now) }
{
    let verdicts = judge_all(alloc, state, tables, state.has_room())?;
    end_by(alloc, tables, state, verdicts.as_slice())
}
