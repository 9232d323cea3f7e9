//! Whether a node can fire with some choice.

ghost use Rattle.std.specs.Prelude.{◌≡◌, ◌∷◌, [], ℕ, Some as Just, None as Nothing, map, slice_get, IfOk};
ghost use Rattle.std.specs.List.{list_any};
ghost use Rattle.std.specs.Option.{option_map_or};
ghost use Rattle.g_diagram_table.specs.Seen.{seen_kind};
ghost use Rattle.g_frames.specs.Program.{Program, numbered, pool_object};
ghost use Rattle.g_frames.specs.Run.{choices_of, clones_in, from_to};
ghost use Rattle.g_program.specs.Tables.{IsTableOf};
ghost use Rattle.g_needs.specs.Firings.{HasNeeds};
ghost use Rattle.g_run_ends.specs.Verdicts.{fires};

use g_diagram_table::{Entry, Kind};
use g_firing::can_fire;
use g_frames::Firing;
use g_program::ProgramTables;
use g_states::FireState;
use std::alloc::{AllocError, Global};

/// How many clones the pool has that a call by a name takes from; 0 where there is none.
fn pool_size(state: &FireState, tables: &ProgramTables<'_>, name: &[u8]) -> u8
    ensures { (p : Program) → IsTableOf p tables.now → result ≡ option_map_or clones_in (slice_get state.now.objects (pool_object p (numbered p.vis name.now))) 0 }
{
    let number = tables.pool_object(tables.number(name));
    match state.objects().get(number) {
        Some(object) => object.clone_count(),
        None => 0,
    }
}

/// Whether a node can fire with one of so many clones.
fn can_take(
    alloc: Global,
    state: &FireState,
    tables: &ProgramTables<'_>,
    has_room: bool,
    frame: u64,
    node: u64,
    clones: u8,
) -> Result<bool, AllocError>
    requires { (p : Program) × (IsTableOf p tables.now × HasNeeds p state.now frame node) }
    ensures { IfOk result (λ can. (p : Program) → IsTableOf p tables.now → can ≡ list_any (fires p has_room state.now frame node) (map Just (from_to 0 clones))) }
{
    for clone in 0..clones {
        let firing = Firing {
            frame,
            node,
            choice: Some(clone as u64),
        };
        if can_fire(alloc, state, tables, has_room, firing)? {
            return Ok(true);
        }
    }
    Ok(false)
}

/// Whether a node can fire without a choice.
fn can_plain(
    alloc: Global,
    state: &FireState,
    tables: &ProgramTables<'_>,
    has_room: bool,
    frame: u64,
    node: u64,
) -> Result<bool, AllocError>
    requires { (p : Program) × (IsTableOf p tables.now × HasNeeds p state.now frame node) }
    ensures one { IfOk result (λ can. (p : Program) → IsTableOf p tables.now → can ≡ fires p has_room state.now frame node Nothing) }
    ensures all { IfOk result (λ can. (p : Program) → IsTableOf p tables.now → can ≡ list_any (fires p has_room state.now frame node) (Nothing ∷ [])) }
{
    let firing = Firing {
        frame,
        node,
        choice: None,
    };
    can_fire(alloc, state, tables, has_room, firing)
}

/// Whether a call by a name can fire with some choice.
fn can_call(
    alloc: Global,
    state: &FireState,
    tables: &ProgramTables<'_>,
    has_room: bool,
    frame: u64,
    node: u64,
    name: &[u8],
) -> Result<bool, AllocError>
    requires { (p : Program) × (IsTableOf p tables.now × HasNeeds p state.now frame node) }
    ensures { IfOk result (λ can. (p : Program) → IsTableOf p tables.now → can ≡ list_any (fires p has_room state.now frame node) (Nothing ∷ map Just (from_to 0 (option_map_or clones_in (slice_get state.now.objects (pool_object p (numbered p.vis name.now))) 0)))) }
{
    if can_plain(alloc, state, tables, has_room, frame, node)? {
        return Ok(true);
    }
    let clones = pool_size(state, tables, name);
    can_take(alloc, state, tables, has_room, frame, node, clones)
}

/// Whether a node can fire with some choice, where the limit leaves room for an iteration or not.
pub fn goes_on(
    alloc: Global,
    state: &FireState,
    tables: &ProgramTables<'_>,
    has_room: bool,
    frame: u64,
    entry: &Entry<'_>,
) -> Result<bool, AllocError>
    requires { (p : Program) × (IsTableOf p tables.now × HasNeeds p state.now frame entry.now.line) }
    ensures { IfOk result (λ can. (p : Program) → IsTableOf p tables.now → can ≡ list_any (fires p has_room state.now frame entry.now.line) (choices_of p state.now.objects (seen_kind entry.now.kind))) }
{
    let node = entry.line as u64;
    match &entry.kind {
        Kind::Call { vi, .. } => {
            can_call(alloc, state, tables, has_room, frame, node, vi.as_slice())
        }
        Kind::Const { .. }
        | Kind::Apply { .. }
        | Kind::Shows { .. }
        | Kind::Shared { .. }
        | Kind::Obtain { .. }
        | Kind::Read { .. }
        | Kind::Write { .. }
        | Kind::Loop { .. }
        | Kind::Case { .. }
        | Kind::Sequence { .. }
        | Kind::InPlace { .. } => can_plain(alloc, state, tables, has_room, frame, node),
    }
}
