//! The search for a node that can fire.

ghost use Rattle.std.specs.Prelude.{◌≡◌, ◌∷◌, [], None, Some, map, slice_get, IfOk};
ghost use Rattle.std.specs.List.{list_any};
ghost use Rattle.std.specs.Option.{option_map_or};
ghost use Rattle.g_diagram_table.specs.Seen.{seen, seen_kind};
ghost use Rattle.g_frames.specs.Program.{Program, numbered, pool_object, vi_at};
ghost use Rattle.g_frames.specs.Run.{all_nodes, choices_of, clones_in, frame_nodes, from_to};
ghost use Rattle.g_program.specs.Tables.{IsTableOf};
ghost use Rattle.g_runs.specs.Needs.{HasAllNeeds};
ghost use Rattle.g_runs.specs.Scans.{Finds, Picks, fires_with, goes_on, line_goes_on};

use g_diagram_table::{Entry, Kind};
use g_firing::can_fire;
use g_frames::{Firing, Frame};
use g_program::ProgramTables;
use g_states::FireState;
use std::alloc::{AllocError, Global};

/// How many clones the pool of a VI has, where calls of it take one; else 0.
fn pool_size(state: &FireState, tables: &ProgramTables<'_>, name: &[u8]) -> u8
    ensures { (p : Program) → IsTableOf p tables.now → result ≡ option_map_or clones_in (slice_get state.now.objects (pool_object p (numbered p.vis name.now))) 0 }
{
    let number = tables.pool_object(tables.number(name));
    match state.objects().get(number) {
        Some(object) => object.clone_count(),
        None => 0,
    }
}

/// How many clones a firing of a node may name.
fn clone_choices(state: &FireState, tables: &ProgramTables<'_>, kind: &Kind<'_>) -> u8
    ensures { (p : Program) → IsTableOf p tables.now → choices_of p state.now.objects (seen_kind kind.now) ≡ None ∷ map Some (from_to 0 result) }
{
    match kind {
        Kind::Call { vi, .. } => pool_size(state, tables, vi.as_slice()),
        Kind::Const { .. }
        | Kind::Apply { .. }
        | Kind::Shows { .. }
        | Kind::Shared { .. }
        | Kind::Obtain { .. }
        | Kind::Read { .. }
        | Kind::Write { .. }
        | Kind::Loop { .. }
        | Kind::Case { .. }
        | Kind::Sequence { .. }
        | Kind::InPlace { .. } => 0,
    }
}

/// A firing of a node with one of so many clones that can be done, where there is any.
fn find_clone(
    alloc: Global,
    state: &FireState,
    tables: &ProgramTables<'_>,
    has_room: bool,
    frame: u64,
    node: u64,
    count: u8,
) -> Result<Option<Firing>, AllocError>
    requires { (p : Program) × (IsTableOf p tables.now × HasAllNeeds p state.now) }
    ensures { IfOk result (λ found. (p : Program) → IsTableOf p tables.now → Picks p has_room state.now (list_any (fires_with p has_room state.now frame node) (map Some (from_to 0 count))) found) }
{
    for clone in 0..count {
        let firing = Firing {
            frame,
            node,
            choice: Some(clone as u64),
        };
        if can_fire(alloc, state, tables, has_room, firing)? {
            return Ok(Some(firing));
        }
    }
    Ok(None)
}

/// A firing of a node of a frame that can be done, where there is any.
pub(crate) fn find_on_line(
    alloc: Global,
    state: &FireState,
    tables: &ProgramTables<'_>,
    has_room: bool,
    frame: u64,
    entry: &Entry<'_>,
) -> Result<Option<Firing>, AllocError>
    requires { (p : Program) × (IsTableOf p tables.now × HasAllNeeds p state.now) }
    ensures { IfOk result (λ found. (p : Program) → IsTableOf p tables.now → Picks p has_room state.now (line_goes_on p has_room state.now frame (seen entry.now)) found) }
{
    let firing = Firing {
        frame,
        node: entry.line as u64,
        choice: None,
    };
    if can_fire(alloc, state, tables, has_room, firing)? {
        return Ok(Some(firing));
    }
    let count = clone_choices(state, tables, &entry.kind);
    find_clone(
        alloc,
        state,
        tables,
        has_room,
        frame,
        entry.line as u64,
        count,
    )
}

/// A firing of one of some nodes of a frame that can be done, where there is any.
fn find_among(
    alloc: Global,
    state: &FireState,
    tables: &ProgramTables<'_>,
    has_room: bool,
    frame: u64,
    entries: &[Entry<'_>],
) -> Result<Option<Firing>, AllocError>
    requires { (p : Program) × (IsTableOf p tables.now × HasAllNeeds p state.now) }
    ensures { IfOk result (λ found. (p : Program) → IsTableOf p tables.now → Finds p has_room state.now (list_any (line_goes_on p has_room state.now frame) (map seen entries.now)) found) }
{
    for entry in entries {
        let found = find_on_line(alloc, state, tables, has_room, frame, entry)?;
        if found.is_some() {
            return Ok(found);
        }
    }
    Ok(None)
}

/// A firing of a node of a frame that can be done, where there is any.
fn find_in_frame(
    alloc: Global,
    state: &FireState,
    tables: &ProgramTables<'_>,
    has_room: bool,
    number: u64,
    frame: &Frame,
) -> Result<Option<Firing>, AllocError>
    requires { (p : Program) × (IsTableOf p tables.now × HasAllNeeds p state.now) }
    ensures { IfOk result (λ found. (p : Program) → IsTableOf p tables.now → Finds p has_room state.now (list_any (goes_on p has_room state.now) (option_map_or (frame_nodes number frame.now) (vi_at p frame.now.vi) [])) found) }
{
    let Some(table) = tables.vi(frame.vi) else {
        return Ok(None);
    };
    let entries = table.entries(frame.diagram);
    find_among(alloc, state, tables, has_room, number, entries)
}

/// A firing that can be done, where there is any.
pub(crate) fn find(
    alloc: Global,
    state: &FireState,
    tables: &ProgramTables<'_>,
    has_room: bool,
) -> Result<Option<Firing>, AllocError>
    requires { (p : Program) × (IsTableOf p tables.now × HasAllNeeds p state.now) }
    ensures { IfOk result (λ found. (p : Program) → IsTableOf p tables.now → Finds p has_room state.now (list_any (goes_on p has_room state.now) (all_nodes p state.now)) found) }
{
    let frames = state.frames();
    for at in 0..frames.len() {
        let found = find_in_frame(alloc, state, tables, has_room, at as u64, &frames[at])?;
        if found.is_some() {
            return Ok(found);
        }
    }
    Ok(None)
}
