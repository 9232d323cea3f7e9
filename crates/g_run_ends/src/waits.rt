//! Whether a node waits for another.

ghost use Rattle.std.specs.Prelude.{◌≡◌, ◌&&◌, not, false, List as TheList};
ghost use Rattle.std.specs.Option.{option_map_or};
ghost use Rattle.g_diagram.specs.Lines as lines;
ghost use Rattle.g_diagram.specs.Lines.{Wire as Wired};
ghost use Rattle.g_diagram_table.specs.Seen.{seen, seen_kind};
ghost use Rattle.g_frames.specs.Fire.{is_ready};
ghost use Rattle.g_frames.specs.Program.{Program, numbered, takes_clone, vi_at};
ghost use Rattle.g_frames.specs.Run as spec;
ghost use Rattle.g_frames.specs.declared.state.Progress.{Progress as Done};
ghost use Rattle.g_program.specs.Tables.{IsTableOf};
ghost use Rattle.g_wire_values.specs.Wires.{reader};

use g_diagram::Clones;
use g_diagram_table::{Entry, Kind};
use g_frames::Progress;
use g_here::is_done;
use g_node_values::has_inputs;
use g_operations::SharedOp;
use g_program::ProgramTables;
use g_wire_values::Wires;

/// Whether calls of a VI take a clone.
fn is_taken(clones: Clones) -> bool
    ensures { result ≡ takes_clone clones }
{
    match clones {
        Clones::NonReentrant => true,
        Clones::Preallocated => false,
        Clones::Pool(_) => true,
    }
}

/// Whether an operation may have to wait.
fn is_queued(operation: SharedOp) -> bool
    ensures { (p : Program) (inputs outputs : TheList Wired) (q : Done) → result ≡ spec.may_wait p (lines.Shared operation inputs outputs) q }
{
    match operation {
        SharedOp::Enqueue => true,
        SharedOp::Dequeue => true,
        SharedOp::Release => false,
        SharedOp::Size => false,
        SharedOp::NewRef => false,
        SharedOp::DelRef => false,
    }
}

/// Whether a call by a name takes a clone.
#[tactic(auto, using(crate::proofs::TableLemmas::taken))]
fn is_call_taken(tables: &ProgramTables<'_>, name: &[u8]) -> bool
    ensures { (p : Program) → IsTableOf p tables.now → result ≡ option_map_or (λ vi. takes_clone vi.clones) (vi_at p (numbered p.vis name.now)) false }
{
    match tables.vi(tables.number(name)) {
        Some(vi) => is_taken(vi.clones()),
        None => false,
    }
}

/// Whether a call by a name may have to wait, by what it has done.
fn is_call_waiting(tables: &ProgramTables<'_>, name: &[u8], progress: &Progress) -> bool
    ensures { (p : Program) → IsTableOf p tables.now → (inputs outputs : TheList Wired) → result ≡ spec.may_wait p (lines.Call name.now inputs outputs) progress.now }
{
    match progress {
        Progress::Idle => is_call_taken(tables, name),
        Progress::Done => false,
        Progress::Loop { .. } => false,
        Progress::Case { .. } => false,
        Progress::Sequence { .. } => false,
        Progress::Call { .. } => false,
    }
}

/// Whether a node's next firing is one that may have to wait for another node.
fn may_wait(tables: &ProgramTables<'_>, kind: &Kind<'_>, progress: &Progress) -> bool
    ensures { (p : Program) → IsTableOf p tables.now → result ≡ spec.may_wait p (seen_kind kind.now) progress.now }
{
    match kind {
        Kind::Shared { operation, .. } => is_queued(*operation),
        Kind::Call { vi, .. } => is_call_waiting(tables, vi.as_slice(), progress),
        Kind::Const { .. }
        | Kind::Apply { .. }
        | Kind::Shows { .. }
        | Kind::Obtain { .. }
        | Kind::Read { .. }
        | Kind::Write { .. }
        | Kind::Loop { .. }
        | Kind::Case { .. }
        | Kind::Sequence { .. }
        | Kind::InPlace { .. } => false,
    }
}

/// Whether a node waits, where it is told whether it can fire: it isn't done and has its inputs, and its next
/// firing is one that may have to wait.
pub fn is_waiting(
    tables: &ProgramTables<'_>,
    wires: &Wires<'_>,
    entry: &Entry<'_>,
    progress: &Progress,
    goes: bool,
) -> bool
    ensures { (p : Program) → IsTableOf p tables.now → result ≡ is_ready (reader wires.now) (seen entry.now) progress.now && (spec.may_wait p (seen_kind entry.now.kind) progress.now && not goes) }
{
    if is_done(progress) {
        return false;
    }
    if !has_inputs(wires, entry) {
        return false;
    }
    if !may_wait(tables, &entry.kind, progress) {
        return false;
    }
    !goes
}
