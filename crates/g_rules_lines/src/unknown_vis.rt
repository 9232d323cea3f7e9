//! Rule 9: calls name VIs, and so does MAIN.

ghost use Rattle.std.specs.Prelude.{◌≡◌, ◌++◌, map, OnOk};
ghost use Rattle.g_diagram_table.specs.Seen as table;
ghost use Rattle.g_rules_lines.specs.Spots.{break};
ghost use Rattle.g_rules_lines.specs.UnknownVis as spec;
ghost use Rattle.g_rules_lines.specs.Names.{arity_in};

use crate::callees::{Arities, arity_of};
use crate::place::push_at;
use g_diagram::Break;
use g_diagram_table::{Entry, Kind};
use g_types::Name;
use std::alloc::AllocError;

fn names_no_vi(known: &Arities<'_>, kind: &Kind<'_>) -> bool
    ensures { result ≡ spec.names_no_vi (arity_in known.now) (table.seen_kind kind.now) }
{
    match kind {
        Kind::Call { vi, .. } => arity_of(known, *vi).is_none(),
        _ => false,
    }
}

/// Adds the breaks of rule 9: each call that names no VI.
pub fn push_uncalled(
    vi: u32,
    known: &Arities<'_>,
    entries: &[Entry<'_>],
    breaks: &mut Vec<Break>,
) -> Result<(), AllocError>
    ensures { OnOk result (breaks.new.items ≡ breaks.old.items ++ map (break vi 9) (spec.uncalled (arity_in known.now) (map table.seen entries.now))) }
{
    for entry in entries {
        if names_no_vi(known, &entry.kind) {
            push_at(vi, 9, entry.line, 0, breaks)?;
        }
    }
    Ok(())
}

/// Adds the break of rule 9 that no VI has the main one's name, after so many VIs.
pub fn push_absent(
    known: &Arities<'_>,
    count: usize,
    main: &Name,
    breaks: &mut Vec<Break>,
) -> Result<(), AllocError>
    ensures { OnOk result (breaks.new.items ≡ breaks.old.items ++ spec.absent_main (arity_in known.now) count main.now) }
{
    if arity_of(known, main).is_some() {
        return Ok(());
    }
    let vi = u32::try_from(count).ok().ok_or(AllocError)?;
    push_at(vi, 9, 0, 0, breaks)
}
