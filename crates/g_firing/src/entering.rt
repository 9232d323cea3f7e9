//! Calls that take a clone of a pool, whatever clone.

ghost use Rattle.std.specs.Prelude.{◌≡◌, ℕ, Some, IfOk};
ghost use Rattle.std.specs.Option.{option_and_then};
ghost use Rattle.g_diagram_table.specs.Seen.{seen, seen_kind};
ghost use Rattle.g_frames.specs.Program.{Program, numbered};
ghost use Rattle.g_frames.specs.declared.state.Progress.TheVariants as idle;
ghost use Rattle.g_frames.specs.Effects as effects;
ghost use Rattle.g_frames.specs.Fire as step;
ghost use Rattle.g_effects.specs.Requests.{requested};
ghost use Rattle.g_program.specs.Tables.{IsTableOf};
ghost use Rattle.g_here.specs.Here.{IsHere};
ghost use Rattle.g_firing.specs.Enters as spec;

use crate::standing::{frame_at, line_of, node_in};
use g_diagram::Clones;
use g_diagram_table::{Entry, Kind};
use g_frames::{Firing, Progress};
use g_here::{Here, is_done};
use g_node_values::has_inputs;
use g_program::ProgramTables;
use g_states::FireState;
use std::alloc::{AllocError, Global};

/// A node that calls a VI, with the object that the VI's pool is.
#[derive(Drop)]
pub struct Enters<'t, 'm> {
    pub entry: &'t Entry<'m>,
    pub object: usize,
}

fn pool_of(here: &Here<'_, '_>, vi: u32, clones: Clones) -> Option<usize>
    ensures { (h : effects.Here) → IsHere here.now h → result ≡ spec.pool_of h vi clones }
{
    match clones {
        Clones::NonReentrant => None,
        Clones::Preallocated => None,
        Clones::Pool(_) => Some(here.tables.pool_object(vi)),
    }
}

fn pool_called(here: &Here<'_, '_>, name: &[u8]) -> Option<usize>
    ensures { (h : effects.Here) → IsHere here.now h → result ≡ spec.call_enters h (numbered h.program.vis name.now) idle.Idle }
{
    let vi = here.tables.number(name);
    match here.tables.vi(vi) {
        Some(table) => pool_of(here, vi, table.clones()),
        None => None,
    }
}

fn call_enters(here: &Here<'_, '_>, name: &[u8], progress: &Progress) -> Option<usize>
    ensures { (h : effects.Here) → IsHere here.now h → result ≡ spec.call_enters h (numbered h.program.vis name.now) progress.now }
{
    match progress {
        Progress::Idle => pool_called(here, name),
        Progress::Done => None,
        Progress::Loop { .. } => None,
        Progress::Case { .. } => None,
        Progress::Sequence { .. } => None,
        Progress::Call { .. } => None,
    }
}

/// The pool that a node's next firing enters, if it takes a clone.
fn entered(here: &Here<'_, '_>, entry: &Entry<'_>, progress: &Progress) -> Option<usize>
    ensures { (h : effects.Here) → IsHere here.now h → result ≡ spec.entered h (seen_kind entry.now.kind) progress.now }
{
    match &entry.kind {
        Kind::Call { vi, .. } => call_enters(here, vi.as_slice(), progress),
        Kind::Const { .. } => None,
        Kind::Apply { .. } => None,
        Kind::Shows { .. } => None,
        Kind::Shared { .. } => None,
        Kind::Obtain { .. } => None,
        Kind::Read { .. } => None,
        Kind::Write { .. } => None,
        Kind::Loop { .. } => None,
        Kind::Case { .. } => None,
        Kind::Sequence { .. } => None,
        Kind::InPlace { .. } => None,
    }
}

/// The same, if the node isn't done and has its inputs.
fn node_enters(here: &Here<'_, '_>, entry: &Entry<'_>, progress: &Progress) -> Option<usize>
    ensures { (h : effects.Here) → IsHere here.now h → (k : ℕ) → option_and_then (λ o. requested h (seen entry.now) progress.now (spec.enter o k)) result ≡ step.node_effect h (Some k) (seen entry.now) progress.now }
{
    if is_done(progress) {
        return None;
    }
    let wires = here.outer();
    if has_inputs(&wires, entry) {
        return entered(here, entry, progress);
    }
    None
}

/// The pool that a node's next firing enters, if its node is there, isn't done and has its inputs, and the
/// firing takes a clone. The firing's own choice doesn't count. Refused is a line of 2^32 or more, which no
/// node has.
pub fn enters_at<'t, 'm>(
    state: &FireState,
    tables: &'t ProgramTables<'m>,
    has_room: bool,
    firing: Firing,
) -> Result<Option<Enters<'t, 'm>>, AllocError>
    ensures { IfOk result (λ enters. (p : Program) → IsTableOf p tables.now → spec.EntersFiring p has_room state.now firing enters) }
{
    let Some(frame) = frame_at(state, firing.frame) else {
        return Ok(None);
    };
    let Some(table) = tables.vi(frame.vi) else {
        return Ok(None);
    };
    let line = line_of(firing.node)?;
    let Some((entry, progress)) = node_in(table, frame, line) else {
        return Ok(None);
    };
    let here = Here {
        tables,
        state,
        frame,
        table,
        has_room,
    };
    match node_enters(&here, entry, progress) {
        Some(object) => Ok(Some(Enters { entry, object })),
        None => Ok(None),
    }
}
