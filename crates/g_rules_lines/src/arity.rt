//! Rule 5: lines have the numbers of inputs and outputs that are theirs.

ghost use Rattle.std.specs.Prelude.{◌≡◌, ◌++◌, map, OnOk};
ghost use Rattle.std.specs.Option.{option_map};
ghost use Rattle.g_operations.specs.Rows as operations;
ghost use Rattle.g_diagram_table.specs.Seen as table;
ghost use Rattle.g_rules_lines.specs.Spots.{break};
ghost use Rattle.g_rules_lines.specs.Arity as spec;
ghost use Rattle.g_rules_lines.specs.Names.{arity_in, seen_arity};

use crate::callees::{Arities, Arity, arity_of};
use crate::place::push_at;
use g_diagram::Break;
use g_diagram_table::{Entry, Kind};
use g_operations::{Row, primitive_row, shared_row};
use std::alloc::AllocError;

fn fits_row(row: Row, inputs: usize, outputs: usize) -> bool
    ensures { result ≡ operations.fits (operations.seen_row row) inputs outputs }
{
    if !row.inputs.allows(inputs) {
        return false;
    }
    row.outputs.allows(outputs)
}

fn fits_call(arity: Option<Arity>, inputs: usize, outputs: usize) -> bool
    ensures { result ≡ spec.fits_call (option_map seen_arity arity) inputs outputs }
{
    match arity {
        None => true,
        Some(arity) => inputs == arity.controls && outputs == arity.indicators,
    }
}

fn fits_arity(known: &Arities<'_>, kind: &Kind<'_>) -> bool
    ensures { result ≡ spec.fits_arity (arity_in known.now) (table.seen_kind kind.now) }
{
    match kind {
        Kind::Apply {
            primitive,
            inputs,
            outputs,
        } => fits_row(primitive_row(*primitive), inputs.len(), outputs.len()),
        Kind::Shared {
            operation,
            inputs,
            outputs,
        } => fits_row(shared_row(*operation), inputs.len(), outputs.len()),
        Kind::Call {
            vi,
            inputs,
            outputs,
        } => fits_call(arity_of(known, *vi), inputs.len(), outputs.len()),
        _ => true,
    }
}

/// Adds the breaks of rule 5: each line with another number of inputs or outputs than its operation has,
/// or, for a call, than the first VI of its name has controls and indicators.
pub fn push_miscounted(
    vi: u32,
    known: &Arities<'_>,
    entries: &[Entry<'_>],
    breaks: &mut Vec<Break>,
) -> Result<(), AllocError>
    ensures { OnOk result (breaks.new.items ≡ breaks.old.items ++ map (break vi 5) (spec.miscounted (arity_in known.now) (map table.seen entries.now))) }
{
    for entry in entries {
        if !fits_arity(known, &entry.kind) {
            push_at(vi, 5, entry.line, 0, breaks)?;
        }
    }
    Ok(())
}
