//! Plans of firings, where their nodes stand.

ghost use Rattle.std.specs.Prelude.{◌≡◌, true, Some, slice_get, IfOk};
ghost use Rattle.std.specs.Option.{option_and_then, option_copied, option_map};
ghost use Rattle.g_diagram_table.specs.Seen.{seen};
ghost use Rattle.g_frames.specs.Program.{FlatVi, Program};
ghost use Rattle.g_frames.specs.State.{nodes_in};
ghost use Rattle.g_frames.specs.Effects as effects;
ghost use Rattle.g_frames.specs.Fire as step;
ghost use Rattle.g_effects.specs.Laws.{PlanFits};
ghost use Rattle.g_effects.specs.Requests.{planned};
ghost use Rattle.g_vi_tables.specs.Tables.{IsViTable};
ghost use Rattle.g_program.specs.Tables.{IsTableOf};
ghost use Rattle.g_here.specs.Here.{IsHere};
ghost use Rattle.g_needs.specs.Firings.{HasNeeds, NodeNeeds};
ghost use Rattle.g_firing.specs.Plans.{PlansFiring};

use crate::kinds::kind_plan;
use g_diagram_table::Entry;
use g_effects::{Plan, plan_laws};
use g_frames::{Firing, Frame, Progress};
use g_here::{Here, is_done};
use g_node_values::has_inputs;
use g_program::ProgramTables;
use g_states::FireState;
use g_vi_tables::ViTable;
use std::alloc::{AllocError, Global};

/// A node with the plan of a firing of it.
#[derive(Drop)]
pub struct Planned<'t, 'm> {
    pub entry: &'t Entry<'m>,
    pub plan: Plan,
}

pub(crate) fn line_of(node: u64) -> Result<u32, AllocError>
    ensures { IfOk result (λ line. line ≡ node) }
{
    u32::try_from(node).ok().ok_or(AllocError)
}

pub(crate) fn frame_at(state: &FireState, number: u64) -> Option<&Frame>
    ensures { slice_get state.now.frames number ≡ option_copied result }
{
    state.frames().get(number as usize)
}

fn entry_at<'t, 'm>(entries: &'t [Entry<'m>], at: usize) -> Option<&'t Entry<'m>>
    ensures { slice_get entries.now at ≡ option_copied result }
{
    entries.get(at)
}

/// The node on a line of a frame, with what it has done.
pub(crate) fn node_in<'t, 'm, 'f>(
    table: &'t ViTable<'m>,
    frame: &'f Frame,
    line: u32,
) -> Option<(&'t Entry<'m>, &'f Progress)>
    ensures { (vi : FlatVi) → IsViTable vi table.now → option_map (λ n. (seen n.0.now, n.1.now)) result ≡ step.node_on line (nodes_in vi frame.now.diagram) frame.now.nodes }
{
    let at = match table.find(frame.diagram, line) {
        Some(at) => at,
        None => return None,
    };
    let entry = match entry_at(table.entries(frame.diagram), at) {
        Some(entry) => entry,
        None => return None,
    };
    match frame.nodes.get(at) {
        Some(progress) => Some((entry, progress)),
        None => None,
    }
}

/// The plan of a node's next firing, if it isn't done and has its inputs.
fn node_plan<'a>(
    alloc: Global,
    here: &Here<'a, '_>,
    entry: &Entry<'_>,
    choice: Option<u64>,
    progress: &'a Progress,
) -> Result<Option<Plan>, AllocError>
    requires { (h : effects.Here) × (IsHere here.now h × (step.has_inputs h.outer (seen entry.now) ≡ true → NodeNeeds h (seen entry.now))) }
    ensures plan { IfOk result (λ plan. (h : effects.Here) → IsHere here.now h → option_and_then (planned h (seen entry.now) progress.now) plan ≡ step.node_effect h choice (seen entry.now) progress.now) }
    ensures fits { IfOk result (PlanFits here.now.state.now.objects) }
{
    plan_laws();
    if is_done(progress) {
        return Ok(None);
    }
    let wires = here.outer();
    if has_inputs(&wires, entry) {
        let plan = kind_plan(alloc, here, entry, choice, progress)?;
        return Ok(plan);
    }
    Ok(None)
}

/// The plan of a firing, if its node is there, isn't done and has its inputs. Only want of memory refuses
/// it, or a line of 2^32 or more, which no node has.
pub fn plan_at<'t, 'm>(
    alloc: Global,
    state: &FireState,
    tables: &'t ProgramTables<'m>,
    has_room: bool,
    firing: Firing,
) -> Result<Option<Planned<'t, 'm>>, AllocError>
    requires { (p : Program) × (IsTableOf p tables.now × HasNeeds p state.now firing.frame firing.node) }
    ensures plan { IfOk result (λ plan. (p : Program) → IsTableOf p tables.now → PlansFiring p has_room state.now firing plan) }
    ensures fits { IfOk result (λ plan. PlanFits state.now.objects (option_map (λ n. n.plan) plan)) }
{
    let Some(frame) = frame_at(state, firing.frame) else {
        return Ok(None);
    };
    let Some(table) = tables.vi(frame.vi) else {
        return Ok(None);
    };
    let line = line_of(firing.node)?;
    let Some((entry, progress)) = node_in(table, frame, line) else {
        return Ok(None);
    };
    let here = Here {
        tables,
        state,
        frame,
        table,
        has_room,
    };
    match node_plan(alloc, &here, entry, firing.choice, progress)? {
        Some(plan) => Ok(Some(Planned { entry, plan })),
        None => Ok(None),
    }
}
