//! Plans are done in a state.

ghost use Rattle.std.specs.Prelude.{◌≡◌, Bool, length, Some, slice_get, IfOk, OnOk};
ghost use Rattle.g_diagram.specs.Lines.{Entry as Node};
ghost use Rattle.g_diagram_table.specs.Seen.{seen};
ghost use Rattle.g_shared.specs.declared.operations.PoolOp.TheVariants as pool;
ghost use Rattle.g_frames.specs.declared.state.Frame.{Frame as One};
ghost use Rattle.g_frames.specs.Program.{FlatVi, Program, vi_at};
ghost use Rattle.g_frames.specs.Effects.{Here};
ghost use Rattle.g_frames.specs.Fire as step;
ghost use Rattle.g_frames.specs.Fire.{applied};
ghost use Rattle.g_objects.specs.declared.operation.Operation.TheVariants as operations;
ghost use Rattle.g_effects.specs.declared.plan.Plan.TheVariants as plans;
ghost use Rattle.g_effects.specs.declared.plan.Then.TheVariants as follows;
ghost use Rattle.g_effects.specs.Effects as effects;
ghost use Rattle.g_effects.specs.Laws.{FitsRequest, FitsPlacement, PlanFits};
ghost use Rattle.g_effects.specs.Requests as requests;
ghost use Rattle.g_effects.specs.Requests.{planned, requested, placed};
ghost use Rattle.g_program.specs.Tables.{IsTableOf};
ghost use Rattle.g_states.specs.States.{progress_at};
ghost use Rattle.g_plans.specs.Plans.{CarriesOut, EntersAny};

use crate::effects::{after, after_place};
use g_diagram_table::Entry;
use g_effects::{Effect, Placement, Plan, Request, Then};
use g_frames::Firing;
use g_objects::Operation;
use g_program::ProgramTables;
use g_shared::{PoolOp, Reply, Tried};
use g_states::FireState;
use std::alloc::{AllocError, Global};

/// Does an effect that changes no object.
fn apply(
    alloc: Global,
    state: &mut FireState,
    tables: &ProgramTables<'_>,
    firing: Firing,
    effect: Effect,
) -> Result<bool, AllocError>
    ensures { IfOk result (λ done. (p : Program) (room : Bool) (f : One) (vi : FlatVi) (e : Node) → IsTableOf p tables.now → CarriesOut p state.old firing (planned (step.here p room state.old f vi) e (progress_at p state.old.frames firing) (plans.Effect effect)) done state.new) }
{
    state.apply(alloc, tables, firing, effect)?;
    Ok(true)
}

/// Does what follows an operation that was done.
fn follow_up(
    alloc: Global,
    state: &mut FireState,
    tables: &ProgramTables<'_>,
    firing: Firing,
    entry: &Entry<'_>,
    follow: Then,
    reply: Reply,
) -> Result<(), AllocError>
    ensures { OnOk result ((h : Here) → IsTableOf h.program tables.now → state.new ≡ applied h.program state.old firing (effects.seen (progress_at h.program state.old.frames firing) (length state.old.frames) (requests.after h (seen entry.now) follow reply))) }
{
    let effect = after(alloc, tables, entry, follow, reply)?;
    state.apply(alloc, tables, firing, effect)
}

/// Does an operation on a shared object with what follows it, where the object can do it.
fn ask(
    alloc: Global,
    state: &mut FireState,
    tables: &ProgramTables<'_>,
    firing: Firing,
    entry: &Entry<'_>,
    request: Request,
) -> Result<bool, AllocError>
    requires { FitsRequest state.old.objects request }
    ensures { IfOk result (λ done. (p : Program) (room : Bool) (f : One) (vi : FlatVi) → IsTableOf p tables.now → CarriesOut p state.old firing (requested (step.here p room state.old f vi) (seen entry.now) (progress_at p state.old.frames firing) request) done state.new) }
{
    let Request {
        object,
        operation,
        choice,
        follow,
    } = request;
    match state.try_op(alloc, object, operation, Some(choice)) {
        Tried::Done(reply) => {
            follow_up(alloc, state, tables, firing, entry, follow, reply)?;
            Ok(true)
        }
        Tried::NotYet(back) => {
            drop(back);
            Ok(false)
        }
        Tried::Memory => Err(AllocError),
    }
}

/// Ends a body in place, which can always be done.
fn place(
    alloc: Global,
    state: &mut FireState,
    tables: &ProgramTables<'_>,
    firing: Firing,
    placement: Placement,
) -> Result<bool, AllocError>
    requires { FitsPlacement state.old.objects placement }
    ensures { IfOk result (λ done. (p : Program) (room : Bool) (f : One) (vi : FlatVi) → IsTableOf p tables.now → CarriesOut p state.old firing (placed (step.here p room state.old f vi) (progress_at p state.old.frames firing) placement) done state.new) }
{
    let Placement {
        object,
        serial,
        value,
        outputs,
        same,
        places,
    } = placement;
    let reply = state.place(object, serial, value, outputs)?;
    let effect = after_place(alloc, same, places, reply)?;
    state.apply(alloc, tables, firing, effect)?;
    Ok(true)
}

/// Does what a plan says, where its object can do it, in the state that the program of these tables is in;
/// else the state stays. Answers whether it was done. Only want of memory refuses it, and then nothing is
/// known of the state.
pub fn carry_out(
    alloc: Global,
    state: &mut FireState,
    tables: &ProgramTables<'_>,
    firing: Firing,
    entry: &Entry<'_>,
    plan: Plan,
) -> Result<bool, AllocError>
    requires { PlanFits state.old.objects (Some plan) }
    ensures { IfOk result (λ done. (p : Program) (room : Bool) (f : One) (vi : FlatVi) (e : Node) → IsTableOf p tables.now → slice_get state.old.frames firing.frame ≡ Some f → vi_at p f.vi ≡ Some vi → e ≡ seen entry.now → CarriesOut p state.old firing (planned (step.here p room state.old f vi) e (progress_at p state.old.frames firing) plan) done state.new) }
{
    match plan {
        Plan::Effect(effect) => apply(alloc, state, tables, firing, effect),
        Plan::Request(request) => ask(alloc, state, tables, firing, entry, request),
        Plan::Placement(placement) => place(alloc, state, tables, firing, placement),
    }
}

/// Enters a pool of clones, whatever clone is free, and does what follows; else the state stays. Answers the
/// clone that it took. Only want of memory refuses it, and then nothing is known of the state.
pub fn enter_any(
    alloc: Global,
    state: &mut FireState,
    tables: &ProgramTables<'_>,
    firing: Firing,
    entry: &Entry<'_>,
    object: usize,
) -> Result<Option<u64>, AllocError>
    ensures { IfOk result (λ clone. (p : Program) (room : Bool) (f : One) (vi : FlatVi) → IsTableOf p tables.now → EntersAny p state.old firing (λ k. requested (step.here p room state.old f vi) (seen entry.now) (progress_at p state.old.frames firing) (requests.request object (operations.OnPool pool.Enter) k follows.CallEnters)) clone state.new) }
{
    match state.try_op(alloc, object, Operation::OnPool(PoolOp::Enter), None) {
        Tried::Done(reply) => {
            let clone = reply.choice as u64;
            follow_up(alloc, state, tables, firing, entry, Then::CallEnters, reply)?;
            Ok(Some(clone))
        }
        Tried::NotYet(back) => {
            drop(back);
            Ok(None)
        }
        Tried::Memory => Err(AllocError),
    }
}
