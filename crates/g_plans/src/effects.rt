//! The effects that follow operations on shared objects.

ghost use Rattle.std.specs.Prelude.{◌≡◌, [], IfOk};
ghost use Rattle.g_border.specs.Readers as readers;
ghost use Rattle.g_diagram_table.specs.Seen.{seen};
ghost use Rattle.g_frames.specs.Effects.{Here};
ghost use Rattle.g_frames.specs.Panels as panels;
ghost use Rattle.g_frames.specs.Program.{Program};
ghost use Rattle.g_frames.specs.State.{panel_items};
ghost use Rattle.g_effects.specs.declared.advance.Advance.TheVariants as step;
ghost use Rattle.g_effects.specs.Effects.{gives_with, opens_with};
ghost use Rattle.g_effects.specs.Requests as requests;
ghost use Rattle.g_program.specs.Tables.{IsTableOf};

use g_border::WireSource;
use g_diagram_table::Entry;
use g_effects::{Advance, Effect, Given, Opening, Then};
use g_lists::List;
use g_node_values::{controls_given, outputs_given, paired};
use g_program::ProgramTables;
use g_shared::Reply;
use g_values::{Value, ValueList};
use std::alloc::{AllocError, Global};

/// The effect of a node that goes on so, and gives its outputs.
fn gives_outputs(
    alloc: Global,
    entry: &Entry<'_>,
    advance: Advance,
    values: ValueList,
) -> Result<Effect, AllocError>
    ensures { IfOk result (λ x. x ≡ gives_with advance (readers.outputs_given (seen entry.now) values)) }
{
    let given = outputs_given(alloc, entry, values.into_list())?;
    Ok(g_effects::gives(alloc, advance, given))
}

/// The effect of a call that takes a clone, which has a small number.
fn enters(alloc: Global, clone: u32) -> Result<Effect, AllocError>
    ensures { IfOk result (λ x. x ≡ gives_with (step.CallEnters clone) []) }
{
    let clone = u8::try_from(clone).ok().ok_or(AllocError)?;
    Ok(g_effects::gives(alloc, Advance::CallEnters(clone), List::new(alloc)))
}

/// What the controls of a VI's panel give.
fn panel_given(
    alloc: Global,
    tables: &ProgramTables<'_>,
    vi: u32,
    values: ValueList,
) -> Result<Given, AllocError>
    ensures { IfOk result (λ given. (p : Program) → IsTableOf p tables.now → given ≡ panels.controls_given 1 (panel_items p vi) values) }
{
    match tables.vi(vi) {
        Some(table) => controls_given(alloc, table.panel(), values.into_list()),
        None => Ok(List::new(alloc)),
    }
}

/// The effect of a call that opens the frame of its data space.
fn opens(
    alloc: Global,
    tables: &ProgramTables<'_>,
    vi: u32,
    clone: u8,
    space: u32,
    values: ValueList,
) -> Result<Effect, AllocError>
    ensures { IfOk result (λ x. (h : Here) → IsTableOf h.program tables.now → x ≡ opens_with (step.CallOpens clone) (requests.panel_frame h vi space values)) }
{
    let gives = panel_given(alloc, tables, vi, values)?;
    let opening = Opening {
        vi,
        space,
        diagram: 0,
        iteration: 0,
        gives,
    };
    Ok(g_effects::opens(alloc, Advance::CallOpens(clone), opening))
}

/// The effect after an operation that was done.
pub(crate) fn after(
    alloc: Global,
    tables: &ProgramTables<'_>,
    entry: &Entry<'_>,
    follow: Then,
    reply: Reply,
) -> Result<Effect, AllocError>
    ensures { IfOk result (λ x. (h : Here) → IsTableOf h.program tables.now → x ≡ requests.after h (seen entry.now) follow reply) }
{
    let Reply { values, choice } = reply;
    match follow {
        Then::Done => gives_outputs(alloc, entry, Advance::Done, values),
        Then::CallEnters => enters(alloc, choice),
        Then::CallOpens { vi, clone, space } => opens(alloc, tables, vi, clone, space, values),
        Then::CallReturns => gives_outputs(alloc, entry, Advance::CallReturns, values),
        Then::CallReturnsLast => gives_outputs(alloc, entry, Advance::CallLeaves, values),
        Then::CallLeaves => Ok(g_effects::gives(alloc, Advance::CallLeaves, List::new(alloc))),
    }
}

/// The effect after a body in place: the reference again, and its other outputs.
pub(crate) fn after_place(
    alloc: Global,
    same: (WireSource, Value),
    places: List<WireSource>,
    reply: Reply,
) -> Result<Effect, AllocError>
    ensures { IfOk result (λ x. x ≡ requests.place_effect same places reply) }
{
    let Reply { values, choice: _ } = reply;
    let others = paired(alloc, places.as_slice(), values.into_list())?;
    let mut given = others.into_vec();
    given.insert(0, same)?;
    Ok(g_effects::gives(alloc, Advance::Done, List::from_vec(given)))
}
