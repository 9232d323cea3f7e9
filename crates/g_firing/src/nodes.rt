//! Firings of nodes in a state.

ghost use Rattle.std.specs.Prelude.{◌≡◌, None, false, is_some, IfOk};
ghost use Rattle.g_frames.specs.Program.{Program};
ghost use Rattle.g_frames.specs.Fire as step;
ghost use Rattle.g_program.specs.Tables.{IsTableOf};
ghost use Rattle.g_needs.specs.Firings.{HasNeeds};
ghost use Rattle.g_firing.specs.Firings.{FiresNode};

use crate::able::can_do;
use crate::entering::{Enters, enters_at};
use crate::standing::{Planned, plan_at};
use g_frames::Firing;
use g_plans::{carry_out, enter_any};
use g_program::ProgramTables;
use g_states::FireState;
use std::alloc::{AllocError, Global};

/// Fires a node as a firing says. Answers whether it could; else the state stays. Only want of memory
/// refuses it, and then nothing is known of the state; that also stands for a line of 2^32 or more, which
/// no node has.
pub fn fire(
    alloc: Global,
    state: &mut FireState,
    tables: &ProgramTables<'_>,
    firing: Firing,
) -> Result<bool, AllocError>
    requires { (p : Program) × (IsTableOf p tables.now × HasNeeds p state.old firing.frame firing.node) }
    ensures { IfOk result (λ fired. (p : Program) → IsTableOf p tables.now → (fired ≡ step.can_fire p state.old firing) × (state.new ≡ step.fire p state.old firing)) }
{
    let has_room = state.has_room();
    match plan_at(alloc, state, tables, has_room, firing)? {
        Some(Planned { entry, plan }) => {
            let done = carry_out(alloc, state, tables, firing, entry, plan)?;
            Ok(done)
        }
        None => Ok(false),
    }
}

/// Whether a firing can be done in a state, where the limit leaves room for an iteration or not. Only want
/// of memory refuses it, or a line of 2^32 or more, which no node has.
pub fn can_fire(
    alloc: Global,
    state: &FireState,
    tables: &ProgramTables<'_>,
    has_room: bool,
    firing: Firing,
) -> Result<bool, AllocError>
    requires { (p : Program) × (IsTableOf p tables.now × HasNeeds p state.now firing.frame firing.node) }
    ensures { IfOk result (λ can. (p : Program) → IsTableOf p tables.now → can ≡ is_some (step.effect_with p has_room state.now firing)) }
{
    match plan_at(alloc, state, tables, has_room, firing)? {
        Some(Planned { entry: _, plan }) => Ok(can_do(state, &plan)),
        None => Ok(false),
    }
}

/// Where a node can't fire without a choice: its call takes a clone of a pool, if one is free.
fn enter_node(
    alloc: Global,
    state: &mut FireState,
    tables: &ProgramTables<'_>,
    firing: Firing,
) -> Result<Option<Firing>, AllocError>
    ensures { IfOk result (λ fired. (p : Program) → IsTableOf p tables.now → firing.choice ≡ None → step.can_fire p state.old firing ≡ false → FiresNode p state.old firing.frame firing.node fired state.new) }
{
    let has_room = state.has_room();
    match enters_at(state, tables, has_room, firing)? {
        Some(Enters { entry, object }) => {
            let clone = enter_any(alloc, state, tables, firing, entry, object)?;
            match clone {
                Some(clone) => Ok(Some(Firing {
                    frame: firing.frame,
                    node: firing.node,
                    choice: Some(clone),
                })),
                None => Ok(None),
            }
        }
        None => Ok(None),
    }
}

/// Fires a node with whatever choice it can. Answers the firing, if it could; else the state stays. Only
/// want of memory refuses it, as with `fire`.
pub fn fire_node(
    alloc: Global,
    state: &mut FireState,
    tables: &ProgramTables<'_>,
    frame: u64,
    node: u64,
) -> Result<Option<Firing>, AllocError>
    requires { (p : Program) × (IsTableOf p tables.now × HasNeeds p state.old frame node) }
    ensures { IfOk result (λ fired. (p : Program) → IsTableOf p tables.now → FiresNode p state.old frame node fired state.new) }
{
    let firing = Firing {
        frame,
        node,
        choice: None,
    };
    if fire(alloc, state, tables, firing)? {
        return Ok(Some(firing));
    }
    let fired = enter_node(alloc, state, tables, firing)?;
    Ok(fired)
}
