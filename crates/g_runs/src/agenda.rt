//! The agenda of a run: which nodes may be able to fire. No clause speaks of it: each hint is tried before it counts,
//! and where no hint is left all nodes are.

ghost use Rattle.std.specs.Prelude.{◌≡◌, IfOk};
ghost use Rattle.g_frames.specs.Program.{Program};
ghost use Rattle.g_program.specs.Tables.{IsTableOf};
ghost use Rattle.g_runs.specs.Needs.{HasAllNeeds};
ghost use Rattle.g_runs.specs.Scans.{Hints};

use crate::readers::{Readers, number_on, readers_of};
use crate::scan::find_on_line;
use crate::spot::{Spot, is_idle, role_of, spot_of, wires_at};
use crate::uses::given;
use crate::waiting::Waiting;
use g_diagram_table::Entry;
use g_frames::{Firing, Frame, FrameNode};
use g_here::is_done;
use g_node_values::has_inputs;
use g_program::ProgramTables;
use g_states::FireState;
use g_vi_tables::ViTable;
use std::alloc::{AllocError, Global};
use std::collections::BTreeMap;

/// Which nodes may be able to fire, and what tells that after a firing.
#[derive(Drop)]
pub(crate) struct Agenda {
    /// The nodes to be tried, the last one first.
    hints: Vec<FrameNode>,
    /// How many nodes of each frame aren't done.
    undone: Vec<usize>,
    /// The readers of each diagram of which a frame was opened, by VI and line.
    readers: BTreeMap<(u32, u32), Readers>,
    waiting: Waiting,
}

/// Counts one less. Answers whether none is left.
fn lower(counts: &mut Vec<usize>, at: usize) -> bool {
    match counts.get_mut(at) {
        Some(count) => {
            *count = count.saturating_sub(1);
            *count == 0
        }
        None => false,
    }
}

/// The nodes of a frame, the last one first.
fn push_nodes(
    hints: &mut Vec<FrameNode>,
    frame: u64,
    entries: &[Entry<'_>],
) -> Result<(), AllocError> {
    for done in 0..entries.len() {
        let at = entries.len() - 1 - done;
        hints.push(FrameNode {
            frame,
            node: entries[at].line as u64,
        })?;
    }
    Ok(())
}

/// The node that opened a frame, if one did.
fn push_opener(hints: &mut Vec<FrameNode>, frame: &Frame) -> Result<(), AllocError> {
    if let Some(opener) = frame.opener {
        hints.push(opener)?;
    }
    Ok(())
}

/// The nodes of a frame that read one of its sources.
fn push_readers(
    hints: &mut Vec<FrameNode>,
    readers: &Readers,
    number: Option<usize>,
    frame: u64,
) -> Result<(), AllocError> {
    let Some(number) = number else {
        return Ok(());
    };
    let Some(lines) = readers.get(number) else {
        return Ok(());
    };
    for line in lines.as_slice() {
        hints.push(FrameNode {
            frame,
            node: *line as u64,
        })?;
    }
    Ok(())
}

/// Keeps the readers of a diagram, unless they are kept.
fn keep_readers(
    alloc: Global,
    readers: &mut BTreeMap<(u32, u32), Readers>,
    table: &ViTable<'_>,
    vi: u32,
    diagram: u32,
) -> Result<(), AllocError> {
    if readers.contains_key(&(vi, diagram)) {
        return Ok(());
    }
    readers.insert((vi, diagram), readers_of(alloc, table, diagram)?)?;
    Ok(())
}

impl Agenda {
    /// The agenda of a state at the start of a run.
    pub fn new(
        alloc: Global,
        state: &FireState,
        tables: &ProgramTables<'_>,
    ) -> Result<Agenda, AllocError> {
        let mut agenda = Agenda {
            hints: Vec::new(alloc),
            undone: Vec::new(alloc),
            readers: BTreeMap::new(alloc),
            waiting: Waiting::new(alloc, state.objects().len())?,
        };
        agenda.open_from(alloc, state, tables, 0)?;
        Ok(agenda)
    }

    /// A frame has opened.
    fn open(
        &mut self,
        alloc: Global,
        tables: &ProgramTables<'_>,
        frame: &Frame,
        number: u64,
    ) -> Result<(), AllocError> {
        let Some(table) = tables.vi(frame.vi) else {
            self.undone.push(0)?;
            return Ok(());
        };
        let entries = table.entries(frame.diagram);
        self.undone.push(entries.len())?;
        keep_readers(alloc, &mut self.readers, table, frame.vi, frame.diagram)?;
        if entries.is_empty() {
            return push_opener(&mut self.hints, frame);
        }
        push_nodes(&mut self.hints, number, entries)
    }

    /// The frames from a number on have opened.
    fn open_from(
        &mut self,
        alloc: Global,
        state: &FireState,
        tables: &ProgramTables<'_>,
        first: usize,
    ) -> Result<(), AllocError> {
        let frames = state.frames();
        for number in first..frames.len() {
            if let Some(frame) = frames.get(number) {
                self.open(alloc, tables, frame, number as u64)?;
            }
        }
        Ok(())
    }

    /// The nodes that read what a node gives may fire now.
    fn hint_readers(
        &mut self,
        alloc: Global,
        spot: &Spot<'_, '_>,
        frame: u64,
    ) -> Result<(), AllocError> {
        let diagram = spot.frame.diagram;
        let Some(names) = spot.table.names(diagram) else {
            return Ok(());
        };
        let Some(readers) = self.readers.get(&(spot.frame.vi, diagram)) else {
            return Ok(());
        };
        let wires = given(alloc, spot.entry)?;
        for wire in wires.as_slice() {
            push_readers(&mut self.hints, readers, number_on(names, *wire), frame)?;
        }
        Ok(())
    }

    /// A node is done.
    fn finish(
        &mut self,
        alloc: Global,
        tables: &ProgramTables<'_>,
        spot: &Spot<'_, '_>,
        frame: u64,
    ) -> Result<(), AllocError> {
        self.waiting.wake(role_of(tables, spot), &mut self.hints)?;
        if lower(&mut self.undone, frame as usize) {
            push_opener(&mut self.hints, spot.frame)?;
        }
        self.hint_readers(alloc, spot, frame)
    }

    /// A firing was done, before which there were so many frames.
    pub fn note(
        &mut self,
        alloc: Global,
        state: &FireState,
        tables: &ProgramTables<'_>,
        firing: Firing,
        frames: usize,
    ) -> Result<(), AllocError> {
        let at = FrameNode {
            frame: firing.frame,
            node: firing.node,
        };
        let Some(spot) = spot_of(state, tables, at) else {
            return Ok(());
        };
        if is_done(spot.progress) {
            self.finish(alloc, tables, &spot, at.frame)?;
        } else {
            self.hints.push(at)?;
        }
        self.open_from(alloc, state, tables, frames)
    }

    /// A hint couldn't fire. Where its object is why, it waits there; where it has fired, another may wait no longer.
    fn put_back(
        &mut self,
        tables: &ProgramTables<'_>,
        spot: &Spot<'_, '_>,
        at: FrameNode,
    ) -> Result<(), AllocError> {
        let role = role_of(tables, spot);
        if !is_idle(spot.progress) {
            return self.waiting.wake(role, &mut self.hints);
        }
        if has_inputs(&wires_at(spot), spot.entry) {
            return self.waiting.add(role, at);
        }
        Ok(())
    }
}

/// A firing of a node that can be done, where it has any; else the agenda keeps in mind that it has none.
fn try_hint(
    alloc: Global,
    state: &FireState,
    tables: &ProgramTables<'_>,
    has_room: bool,
    at: FrameNode,
    agenda: &mut Agenda,
) -> Result<Option<Firing>, AllocError>
    requires { (p : Program) × (IsTableOf p tables.now × HasAllNeeds p state.now) }
    ensures { IfOk result (λ found. (p : Program) → IsTableOf p tables.now → Hints p has_room state.now found) }
{
    let Some(spot) = spot_of(state, tables, at) else {
        return Ok(None);
    };
    let found = find_on_line(alloc, state, tables, has_room, at.frame, spot.entry)?;
    if found.is_some() {
        return Ok(found);
    }
    agenda.put_back(tables, &spot, at)?;
    Ok(None)
}

/// A firing that can be done, of a node that the agenda hints at; none where no hint is left.
pub(crate) fn find_hinted(
    alloc: Global,
    state: &FireState,
    tables: &ProgramTables<'_>,
    has_room: bool,
    agenda: &mut Agenda,
) -> Result<Option<Firing>, AllocError>
    requires { (p : Program) × (IsTableOf p tables.now × HasAllNeeds p state.now) }
    ensures { IfOk result (λ found. (p : Program) → IsTableOf p tables.now → Hints p has_room state.now found) }
{
    for _ in 0..u64::MAX {
        let Some(at) = agenda.hints.pop() else {
            return Ok(None);
        };
        let found = try_hint(alloc, state, tables, has_room, at, agenda)?;
        if found.is_some() {
            return Ok(found);
        }
    }
    Ok(None)
}
