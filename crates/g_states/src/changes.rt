//! Changes of the parts of a state.

ghost use Rattle.std.specs.Prelude.{◌≡◌, ◌++◌, OnOk, IfOk};
ghost use Rattle.std.specs.Option.{option_and_then, option_map, option_to_list};
ghost use Rattle.g_frames.specs.Program.{Program, vi_at};
ghost use Rattle.g_frames.specs.State.{opened};
ghost use Rattle.g_frames.specs.Effects.{gives};
ghost use Rattle.g_frames.specs.Fire.{registers_after, begun_after, fired_frames};
ghost use Rattle.g_effects.specs.Advance.{advanced};
ghost use Rattle.g_effects.specs.Effects.{seen_opening};
ghost use Rattle.g_program.specs.Tables.{IsTableOf};
ghost use Rattle.g_states.specs.States.{progress_at};

use crate::frames::{fire_in, open};
use g_effects::{Advance, Given, Opening};
use g_frames::{Firing, Frame, FrameNode};
use g_lists::List;
use g_program::ProgramTables;
use g_values::Value;
use std::alloc::{AllocError, Global};

/// What the node of a firing does in its frame: it takes a step, and gives values at sources. Where there is no
/// such frame nothing changes. Only want of memory refuses it.
pub(crate) fn fire_node(
    alloc: Global,
    frames: &mut Vec<Frame>,
    tables: &ProgramTables,
    firing: Firing,
    advance: Advance,
    given: Given,
    next: u64,
) -> Result<(), AllocError>
    ensures { OnOk result ((p : Program) → IsTableOf p tables.now → frames.new.items ≡ fired_frames p firing (gives (advanced (progress_at p frames.old.items firing) advance next) given) frames.old.items) }
{
    let Some(frame) = frames.get_mut(firing.frame as usize) else {
        return Ok(());
    };
    match tables.vi(frame.vi) {
        Some(table) => fire_in(alloc, frame, table, firing.node, advance, given, next),
        None => Ok(()),
    }
}

/// Opens a frame, if one is to be opened. Only want of memory refuses it.
pub(crate) fn open_next(
    alloc: Global,
    frames: &mut Vec<Frame>,
    tables: &ProgramTables,
    opener: FrameNode,
    opens: Option<Opening>,
) -> Result<(), AllocError>
    ensures { OnOk result ((p : Program) → IsTableOf p tables.now → frames.new.items ≡ frames.old.items ++ option_to_list (option_and_then (λ o. option_map (opened (Some opener) (seen_opening o)) (vi_at p o.vi)) opens)) }
{
    let Some(opening) = opens else {
        return Ok(());
    };
    if let Some(table) = tables.vi(opening.vi) {
        let frame = open(alloc, table, Some(opener), opening)?;
        frames.push(frame)?;
    }
    Ok(())
}

/// Writes kept registers, by their numbers. A number that no register has changes nothing.
pub(crate) fn write_registers(kept: &mut Vec<Value>, keeps: List<(usize, Value)>)
    ensures { kept.new.items ≡ registers_after kept.old.items keeps }
{
    for (number, value) in keeps.into_vec() {
        if let Some(register) = kept.get_mut(number) {
            *register = value;
        }
    }
}

/// How many iterations were begun, where one more is, or not.
pub(crate) fn begin(begun: u32, begins: bool) -> Result<u32, AllocError>
    ensures { IfOk result (λ n. n ≡ begun_after begun begins) }
{
    if begins {
        return begun.checked_add(1).ok_or(AllocError);
    }
    Ok(begun)
}
