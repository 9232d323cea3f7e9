//! A scan of all nodes of all frames.

ghost use Rattle.std.specs.Prelude.{◌≡◌, ◌++◌, [], ℕ, map, IfOk, OnOk};
ghost use Rattle.std.specs.Option.{option_map_or};
ghost use Rattle.g_diagram_table.specs.Seen.{seen};
ghost use Rattle.g_frames.specs.Program.{FlatVi, Program, vi_at};
ghost use Rattle.g_frames.specs.State.{reader_in};
ghost use Rattle.g_frames.specs.Run.{all_nodes, frame_nodes, nodes_from};
ghost use Rattle.g_needs.specs.Firings.{HasNeeds};
ghost use Rattle.g_program.specs.Tables.{IsTableOf};
ghost use Rattle.g_wire_values.specs.Wires.{reader};
ghost use Rattle.g_run_ends.specs.Verdicts.{judged};

use crate::choices::goes_on;
use crate::verdict::Verdict;
use crate::waits::is_waiting;
use g_diagram_table::Entry;
use g_frames::Frame;
use g_program::ProgramTables;
use g_states::FireState;
use g_wire_values::Wires;
use std::alloc::{AllocError, Global};

/// Judges the nodes of a frame.
fn judge_nodes(
    alloc: Global,
    verdicts: &mut Vec<Verdict>,
    state: &FireState,
    tables: &ProgramTables<'_>,
    has_room: bool,
    number: u64,
    frame: &Frame,
    wires: &Wires<'_>,
    entries: &[Entry<'_>],
) -> Result<(), AllocError>
    requires { (p : Program) × (IsTableOf p tables.now × ((number line : ℕ) → HasNeeds p state.now number line)) }
    ensures { OnOk result ((p : Program) → IsTableOf p tables.now → (vi : FlatVi) → reader wires.now ≡ reader_in vi frame.now → verdicts.new.items ≡ verdicts.old.items ++ map (judged p has_room state.now) (nodes_from number frame.now vi (map seen entries.now) frame.now.nodes)) }
{
    let nodes = frame.nodes.as_slice();
    for at in 0..entries.len() {
        if at >= nodes.len() {
            return Ok(());
        }
        let entry = &entries[at];
        let goes = goes_on(alloc, state, tables, has_room, number, entry)?;
        let waits = is_waiting(tables, wires, entry, &nodes[at], goes);
        verdicts.push(Verdict {
            frame: number,
            node: entry.line as u64,
            goes,
            waits,
        })?;
    }
    Ok(())
}

/// Judges the nodes of a frame, where there is its VI.
fn judge_frame(
    alloc: Global,
    verdicts: &mut Vec<Verdict>,
    state: &FireState,
    tables: &ProgramTables<'_>,
    has_room: bool,
    number: u64,
    frame: &Frame,
) -> Result<(), AllocError>
    requires { (p : Program) × (IsTableOf p tables.now × ((number line : ℕ) → HasNeeds p state.now number line)) }
    ensures { OnOk result ((p : Program) → IsTableOf p tables.now → verdicts.new.items ≡ verdicts.old.items ++ map (judged p has_room state.now) (option_map_or (frame_nodes number frame.now) (vi_at p frame.now.vi) [])) }
{
    match tables.vi(frame.vi) {
        Some(table) => {
            let wires = table.wires(frame.diagram, frame.values.as_slice());
            let entries = table.entries(frame.diagram);
            judge_nodes(
                alloc, verdicts, state, tables, has_room, number, frame, &wires, entries,
            )
        }
        None => Ok(()),
    }
}

/// Judges all nodes, by frame and line, where the limit leaves room for an iteration or not.
pub fn judge_all(
    alloc: Global,
    state: &FireState,
    tables: &ProgramTables<'_>,
    has_room: bool,
) -> Result<Vec<Verdict>, AllocError>
    requires { (p : Program) × (IsTableOf p tables.now × ((number line : ℕ) → HasNeeds p state.now number line)) }
    ensures { IfOk result (λ verdicts. (p : Program) → IsTableOf p tables.now → verdicts.items ≡ map (judged p has_room state.now) (all_nodes p state.now)) }
{
    let mut verdicts = Vec::new(alloc);
    let frames = state.frames();
    for number in 0..frames.len() {
        judge_frame(
            alloc,
            &mut verdicts,
            state,
            tables,
            has_room,
            number as u64,
            &frames[number],
        )?;
    }
    Ok(verdicts)
}
