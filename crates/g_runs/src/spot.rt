//! Where a node stands in a state, and what it does with shared objects there.

use g_diagram::{SharedOp, Wire};
use g_diagram_table::{Entry, Kind};
use g_frames::{Frame, FrameNode, Progress};
use g_program::ProgramTables;
use g_states::FireState;
use g_values::Value;
use g_vi_tables::ViTable;
use g_wire_values::Wires;

/// A node in a frame.
#[derive(Clone, Copy)]
pub(crate) struct Spot<'a, 'm> {
    pub frame: &'a Frame,
    pub table: &'a ViTable<'m>,
    pub entry: &'a Entry<'m>,
    pub progress: &'a Progress,
}

/// What a node does with a shared object, by the object's number.
#[derive(Clone, Copy)]
pub(crate) enum Role {
    /// It takes an element of a queue or a clone of a pool.
    Takes(usize),
    /// It puts an element into a queue.
    Puts(usize),
    /// It releases a queue.
    Ends(usize),
    /// It never waits.
    Other,
}

/// The node on a line in a frame, where there is one.
pub(crate) fn spot_of<'a, 'm>(
    state: &'a FireState,
    tables: &'a ProgramTables<'m>,
    at: FrameNode,
) -> Option<Spot<'a, 'm>> {
    let line = u32::try_from(at.node).ok()?;
    let frame = state.frames().get(at.frame as usize)?;
    let table = tables.vi(frame.vi)?;
    let place = table.find(frame.diagram, line)?;
    let entry = table.entries(frame.diagram).get(place)?;
    let progress = frame.nodes.as_slice().get(place)?;
    Some(Spot {
        frame,
        table,
        entry,
        progress,
    })
}

/// The object that a value refers to, where it is a live reference to a queue.
fn queue_of(value: &Value) -> Option<usize> {
    match value {
        Value::Queue(reference) => match &reference.at {
            Some(live) => Some(live.object as usize),
            None => None,
        },
        Value::Num(_)
        | Value::Bool(_)
        | Value::Str(_)
        | Value::Nums(_)
        | Value::Arr(_)
        | Value::Cluster(_)
        | Value::Cell(_) => None,
    }
}

/// The queue that the first of some operands refers to.
fn queue_at(wires: &Wires<'_>, inputs: &[Wire]) -> Option<usize> {
    match inputs.first()? {
        Some(name) => queue_of(wires.get(name.as_slice())?),
        None => None,
    }
}

fn shared_role(operation: SharedOp, queue: Option<usize>) -> Role {
    let Some(object) = queue else {
        return Role::Other;
    };
    match operation {
        SharedOp::Dequeue => Role::Takes(object),
        SharedOp::Enqueue => Role::Puts(object),
        SharedOp::Release => Role::Ends(object),
        SharedOp::Size | SharedOp::NewRef | SharedOp::DelRef => Role::Other,
    }
}

/// The values on the wires around a node.
pub(crate) fn wires_at<'a, 'm>(spot: &Spot<'a, 'm>) -> Wires<'a> {
    let values = spot.frame.values.as_slice();
    spot.table.wires(spot.frame.diagram, values)
}

/// What a node does with a shared object.
pub(crate) fn role_of(tables: &ProgramTables<'_>, spot: &Spot<'_, '_>) -> Role {
    match &spot.entry.kind {
        Kind::Shared {
            operation,
            inputs,
            ..
        } => shared_role(*operation, queue_at(&wires_at(spot), *inputs)),
        Kind::Call { vi, .. } => Role::Takes(tables.pool_object(tables.number(vi.as_slice()))),
        Kind::Const { .. }
        | Kind::Apply { .. }
        | Kind::Shows { .. }
        | Kind::Obtain { .. }
        | Kind::Read { .. }
        | Kind::Write { .. }
        | Kind::Loop { .. }
        | Kind::Case { .. }
        | Kind::Sequence { .. }
        | Kind::InPlace { .. } => Role::Other,
    }
}

/// Whether a node has done nothing yet.
pub(crate) fn is_idle(progress: &Progress) -> bool {
    match progress {
        Progress::Idle => true,
        Progress::Done
        | Progress::Loop { .. }
        | Progress::Case { .. }
        | Progress::Sequence { .. }
        | Progress::Call { .. } => false,
    }
}
