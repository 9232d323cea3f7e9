//! Rule 12: what may stand in a body in place.

ghost use Rattle.std.specs.Prelude.{◌≡◌, ◌++◌, ◌∷◌, [], ◌&&◌, map, OnOk, not, if◌then◌else◌};
ghost use Rattle.g_diagram_table.specs.Seen as table;
ghost use Rattle.g_rules_lines.specs.Spots.{break, spot_at};
ghost use Rattle.g_rules_lines.specs.InPlaceBodies as spec;
ghost use Rattle.g_rules_lines.specs.Names.{has_diagram};

use crate::diagrams::{Diagrams, bodies, insides, is_one};
use crate::place::{next, push_at};
use g_diagram::{Break, Tunnel};
use g_diagram_table::{Entry, Kind};
use std::alloc::{AllocError, Global};

fn may_stand_in_place(kind: &Kind<'_>) -> bool
    ensures { result ≡ spec.may_stand_in_place (table.seen_kind kind.now) }
{
    matches!(
        kind,
        Kind::Const { .. } | Kind::Apply { .. } | Kind::Case { .. } | Kind::InPlace { .. }
    )
}

fn is_stranger(diagrams: &Diagrams, diagram: u32, kind: &Kind<'_>) -> bool
    ensures { result ≡ (has_diagram diagrams.now diagram && not (spec.may_stand_in_place (table.seen_kind kind.now))) }
{
    if !is_one(diagrams, diagram) {
        return false;
    }
    !may_stand_in_place(kind)
}

fn push_strangers(
    vi: u32,
    diagrams: &Diagrams,
    entries: &[Entry<'_>],
    breaks: &mut Vec<Break>,
) -> Result<(), AllocError>
    ensures { OnOk result (breaks.new.items ≡ breaks.old.items ++ map (break vi 12) (spec.strangers (has_diagram diagrams.now) (map table.seen entries.now))) }
{
    for entry in entries {
        if is_stranger(diagrams, entry.diagram, &entry.kind) {
            push_at(vi, 12, entry.line, 0, breaks)?;
        }
    }
    Ok(())
}

fn push_spare(vi: u32, line: u32, allowed: bool, breaks: &mut Vec<Break>) -> Result<(), AllocError>
    ensures { OnOk result (breaks.new.items ≡ breaks.old.items ++ map (break vi 12) (if allowed then [] else spot_at line 0 ∷ [])) }
{
    if !allowed {
        push_at(vi, 12, line, 0, breaks)?;
    }
    Ok(())
}

/// Adds the `ref` lines from a line on, but for the first if one is allowed.
fn push_spare_refs(
    vi: u32,
    first: u32,
    is_one_allowed: bool,
    lines: &[Tunnel],
    breaks: &mut Vec<Break>,
) -> Result<(), AllocError>
    ensures { OnOk result (breaks.new.items ≡ breaks.old.items ++ map (break vi 12) (spec.spare_refs first is_one_allowed lines.now)) }
{
    let mut line = first;
    let mut allowed = is_one_allowed;
    for tunnel in lines {
        if let Tunnel::Ref { .. } = tunnel {
            push_spare(vi, line, allowed, breaks)?;
            allowed = false;
        }
        line = next(line)?;
    }
    Ok(())
}

fn push_kind(
    vi: u32,
    line: u32,
    inside: bool,
    kind: &Kind<'_>,
    breaks: &mut Vec<Break>,
) -> Result<(), AllocError>
    ensures { OnOk result (breaks.new.items ≡ breaks.old.items ++ map (break vi 12) (spec.kind_spare_refs line inside (table.seen_kind kind.now))) }
{
    match kind {
        Kind::InPlace { lines, .. } => push_spare_refs(vi, next(line)?, !inside, *lines, breaks),
        _ => Ok(()),
    }
}

fn push_entry(
    vi: u32,
    diagrams: &Diagrams,
    entry: &Entry<'_>,
    breaks: &mut Vec<Break>,
) -> Result<(), AllocError>
    ensures { OnOk result (breaks.new.items ≡ breaks.old.items ++ map (break vi 12) (spec.kind_spare_refs entry.now.line (has_diagram diagrams.now entry.now.diagram) (table.seen_kind entry.now.kind))) }
{
    let inside = is_one(diagrams, entry.diagram);
    push_kind(vi, entry.line, inside, &entry.kind, breaks)
}

fn push_all_spare_refs(
    vi: u32,
    diagrams: &Diagrams,
    entries: &[Entry<'_>],
    breaks: &mut Vec<Break>,
) -> Result<(), AllocError>
    ensures { OnOk result (breaks.new.items ≡ breaks.old.items ++ map (break vi 12) (spec.all_spare_refs (has_diagram diagrams.now) (map table.seen entries.now))) }
{
    for entry in entries {
        push_entry(vi, diagrams, entry, breaks)?;
    }
    Ok(())
}

/// Adds the breaks of rule 12: in each body in place, wherever it stands, and in the cases in it, each
/// node other than `const`, a primitive, a case or a structure in place; each `ref` after the first of
/// its structure; and each `ref` of a structure anywhere inside another body in place. What stands in a
/// loop or a sequence that may not stand in a body isn't listed for that body.
pub fn push_misplaced(
    alloc: Global,
    vi: u32,
    entries: &[Entry<'_>],
    breaks: &mut Vec<Break>,
) -> Result<(), AllocError>
    ensures { OnOk result (breaks.new.items ≡ breaks.old.items ++ map (break vi 12) (spec.misplaced (map table.seen entries.now))) }
{
    let bodies = bodies(alloc, entries)?;
    push_strangers(vi, &bodies, entries, breaks)?;
    let insides = insides(alloc, entries)?;
    push_all_spare_refs(vi, &insides, entries, breaks)?;
    Ok(())
}
